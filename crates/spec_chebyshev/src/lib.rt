//! What the Chebyshev polynomials of both kinds obey, and the rows that hold them over an interval of arguments.
//!
//! Nothing runs here. `specs/` has the divided differences of the polynomials, and the rows of the four bases as
//! functions of an interval. `laws` states, in whole numbers, what the polynomials and their divided differences obey,
//! and that each row holds them; `examples` works values out. `proofs/` has the lemmas under these.
//! The recurrences of the polynomials are those of Abramowitz and Stegun, 22.7.4 and 22.7.5.
#![tactic(auto)]

mod ends;
pub mod examples;
pub mod laws;

pub use ends::Ival62;
