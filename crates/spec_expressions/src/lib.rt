//! What an expression of positions and velocities is, and the two things that it means: an exact value at each time,
//! and intervals that hold that value over a span of times. A term, which is an expression without its boxes, comes
//! in; out go its value and its enclosure.
//!
//! Nothing runs here. `expressions` has the type of expressions, `vectors` that of vectors; `specs/` has the
//! definitions that the contracts above cite. `expression_laws` says that the second meaning holds the first,
//! whatever the leaves; `expression_examples` works values of each definition out.
#![tactic(auto)]

pub mod expression_examples;
pub mod expression_laws;
mod expressions;
mod vectors;

pub use expressions::Expr;
pub use vectors::Vector;
