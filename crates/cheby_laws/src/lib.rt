//! The Chebyshev bases over a span of seconds: the intervals that hold `T_k`, `U_k` and their divided differences.
//!
//! In comes a span inside one granule, as the numerators of its arguments, and a count of coefficients; out come rows
//! of intervals in fixed units, with the same bits for the same operands on every machine. The ranges of positions, of
//! velocities and of their changes are sums over these rows. No call allocates or fails.
//!
//! The polynomials are computed by their recurrence (Abramowitz and Stegun, 22.7.4 and 22.7.5), and their arguments are
//! those of the granules of JPL's ephemerides, which are the records of SPICE's SPK type 2 too.
#![tactic(auto)]

mod arguments;
mod bases;
mod entries;
mod rows;
mod steps;

pub use arguments::{argument, argument_by, argument_of};
pub use bases::{Basis, basis_q, basis_r, basis_t, basis_u};
pub use rows::{Q_UNIT, R_UNIT, Row, T_UNIT, U_UNIT, fill_t, fill_tq, fill_u, fill_ur};
pub use spec_chebyshev::Ival62;
