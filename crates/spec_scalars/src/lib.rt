//! Scalars of one's own: what is known of one over a span of times, the search for the times at which it passes 0,
//! and the law that the windows of such a search are those of these times. Quadratic polynomials are the worked
//! scalar. A scalar comes in, with what is known of it over each span; the tree's rules and windows go out. Which
//! times are meant, and what the numbers count, is the scalar's own affair.
#![tactic(auto)]

pub mod examples;
pub mod laws;
mod limits;
mod plan;
mod reach;

pub use limits::{MAX_FACTOR, MAX_SUMMAND, MAX_TIME};
pub use plan::Plan;
pub use reach::Reach;
