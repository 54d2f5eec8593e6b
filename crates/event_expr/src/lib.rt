//! Expressions of the coordinates of two bodies, with two meanings, and the enclosure of one over any states.
//!
//! In come a formula, an expression within limits, and states that enclose each coordinate over a span; out comes the
//! formula's enclosure, which holds the exact value in the middle and at each time, and each change. Only the builders
//! allocate. States are asked once for each leaf, and a formula says which coordinates it names.
#![tactic(auto)]

mod axes;
pub mod builders;
mod enclosing;
mod formula;
pub mod laws;
mod leaves;
mod limits;
pub mod rules;
mod states;

pub use axes::Axes;
pub use enclosing::enclose;
pub use formula::Formula;
pub use leaves::Leaves;
pub use limits::ExprFault;
pub use spec_expressions::{Expr, Vector};
pub use states::States;
