//! The motion of a body over a span of times: the intervals that hold the positions and velocities of a series.
//!
//! Nothing runs here. `specs/` has the four intervals of a span of times within a granule: of the position, of the
//! velocity, and of the change of either from each time to the next; and what is asked of a granule, of its coefficients
//! and of the rows of the bases so that they can be had in 128 bits. `laws` states that these intervals hold the exact
//! values; `examples` works values out. `proofs/` has the lemmas under both, and those that the crates which evaluate
//! share.
#![tactic(auto)]

pub mod examples;
pub mod laws;
