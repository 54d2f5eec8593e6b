//! The kinds of events: the table of what each is asked with, the function and the conditions of each, what can be
//! asked, and which asks are refused.
//!
//! An ask comes in: a kind, bodies, an observer, a frame, numbers and a direction. What goes out is the event that it
//! means, as terms over the coordinates of two bodies, the search for it over an ephemeris, or the first fault. Nothing
//! here runs: `laws` says that an ask without a fault means formulas over bodies that are there, and `examples` works
//! rows out.
#![tactic(auto)]

mod ask;
pub mod examples;
mod fault;
mod kind;
pub mod laws;
mod shadow;
mod table;

pub use ask::Ask;
pub use fault::EventFault;
pub use kind::Kind;
pub use shadow::Shadow;
pub use table::{KINDS, KindRow, Range, Use};
