//! Models that cover what is seen of two bodies at single times: the intervals that rules make, of rows of Chebyshev
//! polynomials and of series.
//!
//! Nothing runs here. `specs/` has the intervals at single times (`Points`), what models are made of others (`Combining`) and
//! the rows and sums of a series (`Series`); `laws` says what covers them.
#![tactic(auto)]

pub mod examples;
pub mod laws;
