//! Where a body can be over a span of times: the interval of one coordinate of a granule.
//!
//! In comes a granule of a checked ephemeris, an axis and a span of times within the granule; out comes an interval that
//! holds the exact position at each of these times, with the same bits for the same operands on every machine. Callers
//! that need several axes, or velocities and changes too, make the rows of the bases once and take sums over them. Every
//! position is a sum of products in 128 bits, normalized once. No call allocates or fails.
#![tactic(auto)]

mod granules;
mod positions;
mod sums;
mod terms;

pub use granules::{argument_at, arguments, arguments_by, is_evaluable};
pub use positions::{empty_row, position, position_over_row};
pub use sums::{WideEnds, row_sum, slope_sum};
pub use terms::AxisCoefficients;
