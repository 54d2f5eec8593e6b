//! What the kinds of events mean: the function and the conditions of each, as the geometry of what the observer sees.
//!
//! Nothing runs here, and no crate of code stands on this one. `specs/` has scenes, which are places in whole numbers
//! of some unit, and words of geometry on them, all without roots, angles or limits. `laws` says which polynomial of a
//! scene each function and each condition is, and when it is at least 0; `examples` works values out.
#![tactic(auto)]

pub mod examples;
pub mod laws;
