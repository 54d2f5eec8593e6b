//! What the files of an ephemeris are, from their lines to what reading them comes to. Texts come in: they are one list of
//! lines, whose words have their places, and are cut into sections, one after the other: the header first, then the blocks.
//! What goes out is the ephemeris, or the first fault with its file, or why a section ends early.
//!
//! Here are the definitions, worked examples of them, and what they come to: that accepted lines are a header and blocks
//! that meet the rules, and that files are accepted or refused in one way alone. Nothing is read.
#![tactic(auto)]

mod block_examples;
mod block_laws;
mod errors;
mod facts;
mod file_examples;
mod file_laws;
mod header_examples;
mod header_laws;
mod limits;
mod rules;
mod uniqueness;

pub use block_examples::{
    angles_may_be_large, blocks_follow_one_another, blocks_go_on_in_the_next_file,
    dates_of_blocks_are_refused, julian_dates_are_times, lines_that_end_within_a_block_are_refused,
    numbers_are_refused, numbers_of_bodies_are_below_2_36_km, record_lines_are_refused,
    words_after_a_block_are_zeros,
};
pub use block_laws::{accepted_blocks_are_an_ephemeris, accepted_blocks_lie_in_time};
pub use errors::ReadError;
pub use facts::{BlockShape, Facts};
pub use file_examples::{
    a_run_has_up_to_64_files, bytes_of_known_files_are_told_by_name,
    lines_keep_their_file_and_number, texts_are_refused_at_their_first_fault,
};
pub use file_laws::{
    accepted_lines_are_an_ephemeris, accepted_lines_count_seconds, first_faults_stay,
    lines_of_later_texts_follow, one_answer_is_true, texts_with_a_fault_are_refused,
};
pub use header_examples::{
    a_header_is_read, headers_are_read_at_their_limits, some_words_are_skipped,
    the_columns_are_refused, the_constants_are_refused, the_first_lines_are_refused,
    wider_headers_are_read,
};
pub use header_laws::{accepted_headers_count_seconds, accepted_headers_meet_the_rules};
pub use limits::{MAX_BLOCK_DAYS, MAX_CONSTANTS, MAX_FILES};
pub use rules::{BrokenRule, ruled_at};
pub use uniqueness::files_are_refused_in_one_way;
