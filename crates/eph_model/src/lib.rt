//! The checked ephemeris: a header that meets the rules, and the numbers of the blocks that were accepted.
//!
//! A header and the numbers of one block after the other come in, from the readers of a file, into a store that becomes
//! the ephemeris once all blocks are read. What goes out is, for a column and a time, the granule whose Chebyshev series
//! is read there, and, for a span of time, the border between granules that is nearest to its middle. Nothing here reads
//! text, and nothing here evaluates a series.
#![tactic(auto)]

mod borders;
mod columns;
mod ephemeris;
mod granules;
mod grid;
mod quick;
mod rounding;
mod store;

pub use columns::{component_count, is_present, place_after_column};
pub use ephemeris::{Ephemeris, Memory};
pub use quick::rounded_pair_by_guess;
pub use rounding::{is_below_distance_limit, pair_of, rounded};
pub use spec_ephemeris::{Body, Column, Columns, Granule, Header, Rounded};
pub use store::BlockStore;
