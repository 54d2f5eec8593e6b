//! Formulas down to the columns of an ephemeris: what is seen of two bodies as one polynomial of columns, factors and
//! constants, and lists of steps that stand for such polynomials.
//!
//! In come an observer, a frame, two targets and a formula of their coordinates; out goes a term in which each
//! coordinate is replaced by its own formula over the columns. Nothing runs here. `specs/` has the definitions: a
//! term has a meaning for each arithmetic (enclosures, bounds, the intervals at single times), by one walk. `laws`
//! says that these meanings are those of the formula, and which terms may stand in a list; `step_laws` what lists of
//! steps stand for; `examples` works values of each definition out.
#![tactic(auto)]

pub mod examples;
pub mod laws;
mod sights;
pub mod step_laws;
mod steps;

pub use sights::Sight;
pub use steps::Step;
