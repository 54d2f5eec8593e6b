//! Bounds of what is seen of two bodies over a span of times: they include the enclosures over every span within it.
//!
//! In come the states of two bodies, a list of steps over their columns, a step, and a span between whose times no
//! granule begins. Out comes the bound of the step's formula. The ranges of columns over the span are kept in small
//! tables, and the bounds of the steps are made in order. The rows that ranges are made of are kept in `RangeRows`, which
//! the caller makes once and lends to each call. No call allocates.
#![tactic(auto)]

mod bound;
mod bounding;
mod spans;
mod times;

pub use body_states::RangeRows;
pub use bound::Bound;
pub use bounding::bound_over;
