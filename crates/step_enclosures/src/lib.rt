//! Enclosures over the times of a snapshot, by steps, so that parts that are equal are made once.
//!
//! In come a snapshot of two bodies over some times, a list of steps over columns, and slots. Out comes the enclosure
//! of each formula that a step stands for (`StepEnclosures`). What one formula made is read for the next: an event's
//! function makes its part, and a condition adds what is missing. No call allocates or calls itself.
#![tactic(auto)]

mod enclosures;

pub use body_states::blank;
pub use enclosures::StepEnclosures;
