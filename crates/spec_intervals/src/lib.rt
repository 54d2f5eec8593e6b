//! What an interval of exact numbers is, what an enclosure of a value over a span of times is, and the rules by which
//! both are calculated with.
//!
//! Nothing runs here. `specs/` has the definitions that the contracts above cite: fractions, what an interval holds,
//! the rules that make one interval from another, and the enclosures: a mid, a range and a step, each an interval.
//! `laws` says that each rule on intervals holds the exact result, `enclosures` says it of the rules on enclosures, and
//! `examples` works values of each definition out. `proofs/` has the lemmas under these.
#![tactic(auto)]

mod enclosure;
pub mod enclosures;
pub mod examples;
pub mod laws;
mod signs;

pub use enclosure::Enclosure;
pub use signs::Sign;
