//! How fast a body moves over a span of times, and by how much it goes on from each time to the next.
//!
//! In comes a granule of a checked ephemeris, an axis and a span of times within the granule; out come intervals that
//! hold the exact velocity at each of these times, and the exact changes of position and of velocity from each time to
//! the next, with the same bits for the same operands on every machine. Callers that need several of them make the rows
//! of the bases once and take sums over them. No call allocates or fails.
#![tactic(auto)]

mod positions;
mod scaled;
mod slopes;
mod spans;
mod velocities;

pub use positions::position_step;
pub use scaled::{position_step_over_row, velocity_over_row, velocity_step_over_row};
pub use slopes::{fill_slopes, fill_slopes_and_changes};
pub use velocities::{velocity, velocity_step};
