//! Where two bodies are, and how fast they move, seen from an observer in a frame.
//!
//! In comes a checked ephemeris with two targets, an observer and a frame; out come enclosures of the coordinates of
//! the targets' positions and velocities over spans of times in which no granule of a column in use begins. They hold
//! the exact values, with the same bits on every machine. A snapshot encloses terms over one span, and makes each basis
//! once. How bodies are made of columns is said by lists of steps (`column_steps`). Ranges are made of rows that are kept
//! from one span to the next, in room that the caller makes once (`RangeRows`). No call allocates or fails.
#![tactic(auto)]

mod answers;
mod column_entries;
mod column_ranges;
mod columns;
mod factors;
mod points;
mod single_time;
mod snapshots;
mod sources;
mod states;

pub use column_ranges::{ColumnRange, ColumnRanges};
pub use eph_model::{Body, Ephemeris};
pub use event_expr::States;
pub use granule_values::RangeRows;
pub use snapshots::{Snapshot, blank};
pub use spec_bodies::{Factor, Frame, Quantity, Source};
pub use states::BodyStates;
