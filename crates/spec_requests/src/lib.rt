//! What the words of the command line ask for: the definitions that contracts cite. Words come in; what is asked goes
//! out, or the fault of the words.
#![tactic(auto)]

mod laws;
mod limits;
mod names;
mod request;
mod request_examples;
mod tables;
mod text;

pub use laws::{
    names_are_read_back, options_are_looked_at_in_a_fixed_order, requests_keep_to_limits,
    words_stand_for_one_thing,
};
pub use limits::{
    DEFAULT_DEPTH, DEFAULT_TICK, DEFAULT_WIDTH, DEFAULT_WORKERS, MAX_DEPTH, MAX_DIGITS_OF_A_COUNT,
    MAX_DIGITS_OF_A_FACTOR, MAX_DIGITS_OF_A_SEED, MAX_DIGITS_OF_A_TIME, MAX_DIGITS_OF_BLOCKS,
    MAX_GENERATED_BLOCKS, MAX_SCALAR_TIME, MAX_SEED, MAX_WIDTH, MAX_WORKERS, MAX_WRITTEN_FACTOR,
};
pub use names::{
    axis_name, body_name, command_name, cut_name, dir_name, frame_name, option_name, relation_name,
};
pub use request::{FindAsk, Named, Relation, Request, ScalarAsk, WordFault};
pub use request_examples::{
    bad_command_lines_have_faults, bad_names_of_certificates_are_reported_last,
    cert_and_verify_are_read_as_searches, check_and_gen_are_read_as_requests,
    find_is_read_as_a_search, scalar_is_read_as_a_polynomial_and_a_span,
    set_is_read_as_a_search_with_a_relation, the_first_bad_option_of_find_is_reported,
    the_first_bad_option_of_scalar_is_reported, the_first_bad_option_of_set_is_reported,
};
pub use tables::{
    AXES, BODIES, COMMANDS, CUTS, CommandName, DIRS, FIND_OPTIONS, FRAMES, GEN_OPTIONS, GEN_WORDS,
    LAYOUTS, OPTIONS, RELATIONS, SCALAR_OPTIONS, SET_OPTIONS, TICKS,
};
pub use text::{FileNames, Text};
