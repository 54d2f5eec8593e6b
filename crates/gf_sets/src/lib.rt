//! Sets of times, and those at which a function is at least 0.
//!
//! Leaves of a search come in, with what returns the function's sign at a single time; out come two sets, of sure times
//! and of possible ones. Union, intersection and complement keep what both say. Nothing here knows which leaves a search
//! has, or prints.
#![tactic(auto)]

mod algebra;
mod formula_signs;
mod from_leaves;
mod pair;
mod sign_source;
mod spans;

pub use from_leaves::{at_least, times_at_least};
pub use pair::Pair;
pub use sign_source::SignSource;
pub use spans::Spans;
