//! What a search for an event is, over an ephemeris: its events, the verdict of each node of its tree by enclosures, the
//! parts of a node that is cut, and the windows that it finds; with the laws that these windows are those of the events.
//! A view of two bodies comes in, with a function and conditions as formulas; the tree's rules and windows go out.
#![tactic(auto)]

pub mod examples;
pub mod laws;
mod limits;

pub use limits::{MAX_DEPTH, MAX_WIDTH};
