//! What lines, tokens and decimals are: the types and definitions that contracts cite, and the laws about them.
#![tactic(auto)]

mod days;
mod decimals;
mod examples;
mod laws;
mod limits;

pub use days::DaysFault;
pub use decimals::{Decimal, Fault, NumberFault};
pub use examples::{
    decimals_are_read, decimals_are_refused, julian_dates_are_seconds, lines_are_cut_into_tokens,
    texts_are_cut_into_lines, whole_numbers_are_read,
};
pub use laws::{
    days_are_bounded, decimals_are_bounded, decimals_are_plain, every_word_has_one_answer,
    joined_lines_are_read_back, lines_end_at_line_feeds, tokens_end_at_separators,
    whole_numbers_are_bounded,
};
pub use limits::{
    DAY_SECONDS, LAST_JULIAN_DAY, MAX_DIGITS, MAX_EXPONENT, MAX_LINE_BYTES, MAX_TEXT_BYTES,
    MAX_WHOLE_DIGITS, MAX_WORD_BYTES,
};
