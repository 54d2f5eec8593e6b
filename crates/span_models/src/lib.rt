//! Models as code: a polynomial of an argument from -1 to 1 with a bound of error, all in whole numbers.
//!
//! In come intervals, lines and other models; out comes a model near which all numbers are that the operation makes of
//! numbers near the given ones (`sum`, `product`, ..), one that covers what the rules of intervals make of intervals that
//! are covered (`covering_sum`, ..), or how far from 0 all numbers near a model keep (`outlook`). No call allocates. One
//! gives `None` where an exponent or an error passes its limit, or where nothing is known.
#![tactic(auto)]

mod columns;
mod constants;
mod covering;
mod making;
mod margin;
mod model;
mod operations;
mod settling;
mod sums;
mod tangents;

pub use margin::{Margin, Outlook};
pub use model::{Model, TERMS};
pub use settling::settled;
