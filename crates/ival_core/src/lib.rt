//! Intervals of exact numbers, rounded outward: the arithmetic under every enclosure of the search.
//!
//! In come whole numbers, decimals and other intervals; out comes an interval that holds the exact result, with the
//! same bits for the same operands on every machine. The ends of an interval are private: each is made here, in order
//! and at most 2^62 in magnitude, so that no later call can overflow. No call allocates or fails.
#![tactic(auto)]

mod decimals;
mod divider;
mod ends;
mod ival;
mod sizes;

pub use decimals::{TEN_INVERSES, power_of_ten};
pub use divider::Divider;
pub use ends::product_ends;
pub use ival::{COSINE_EXPONENT, DISTANCE_EXPONENT, Enclosure, Ival};
pub use sizes::{is_cosine, is_distance};
pub use spec_intervals::Sign;
