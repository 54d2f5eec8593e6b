//! What a generated text is. A number of blocks and a seed come in; what goes out is a text of JPL's form, with the
//! header of DE405's columns and with coefficients that are drawn from the seed, and the ephemeris that the text is.
//! Here are definitions, worked examples and the law that the text is accepted; nothing is written.
#![tactic(auto)]

mod columns;
mod examples;
mod laws;
mod limits;

pub use columns::{COLUMNS, CoefficientShape};
pub use examples::{coefficients_are_drawn, lines_of_seed_seven_are_in_jpl_form};
pub use laws::{generated_texts_are_accepted, places_hold_coefficients_of_their_column};
pub use limits::{BLOCK_DATES, DRAWS, FACTOR, FIRST_DATE, INCREMENT, MAX_GENERATED, NCOEFF, ROWS};
