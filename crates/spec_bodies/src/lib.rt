//! What a body's position and velocity are, seen from an observer in a frame: exactly, and as enclosures.
//!
//! An ephemeris comes in, with two bodies, an observer and a frame; what goes out is which columns they need, each
//! coordinate as a formula over the coordinates of columns, its exact value at a time, and its enclosure over a span of
//! time. Nothing here runs: `laws` says that the enclosures hold the exact values, and `examples` works values out.
#![tactic(auto)]

pub mod examples;
mod factor;
mod frame;
pub mod laws;
mod quantity;
mod source;

pub use factor::Factor;
pub use frame::Frame;
pub use quantity::Quantity;
pub use source::{EMB_COLUMN, MOON_COLUMN, SUN_COLUMN, Source};
