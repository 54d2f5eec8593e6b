//! The values of the options of a command line, one by one: a word comes in, out goes what it stands for, or that the
//! option is bad.
//!
//! Options are looked up in what `clap` read. How a kind of event uses an option comes in with it; what a request makes
//! of its options is not known here.
#![tactic(auto)]

mod forms;
mod parts;
mod polynomials;
mod relations;

pub use forms::command_named;
pub use parts::{
    axis_option, blocks_word, certificate_option, cut_rule_option, decimal_option, depth_option,
    direction_option, frame_option, given_word, instant_option, join_parts, kind_option,
    layout_word, observer_option, polynomial_option, relation_option, scalar_time_option,
    second_body_option, seed_word, set_kind_option, target_option, ticks_option, ticks_or_default,
    width_option, workers_option,
};
pub use polynomials::Polynomial;
pub use relations::use_of_ref2;
