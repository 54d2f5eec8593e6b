//! Texts of numbers. The bytes of a file come in; its lines go out one by one with their numbers and tokens,
//! and words as decimals and whole numbers, or as the first fault. No call allocates.
#![tactic(auto)]

mod cursor;
mod days;
mod decimal;
mod digits;
mod eights;
mod examples;
mod fields;
mod lines;
mod parts;
mod pieces;
mod tokens;
mod triple;
mod words;

pub use cursor::{Line, LineStep, Tokens};
pub use days::{
    magnitude_denominator, magnitude_numerator, seconds_of_days_upto, seconds_of_julian_date,
};
pub use decimal::{read_decimal, read_whole};
pub use examples::a_cursor_steps_from_line_to_line;
pub use pieces::whole_lines_length;
pub use spec_text::{DaysFault, Decimal, Fault, NumberFault};
pub use triple::Triple;
pub use words::Words;
