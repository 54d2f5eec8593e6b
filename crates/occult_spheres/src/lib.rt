//! Occultations of one sphere by another: the function whose passes of 0 they are, and their guards.
//!
//! In come two radii and what is asked of the discs; out come formulas over the positions of two targets, of which the
//! first is in front. Nothing here knows which bodies they are, or who observes them.
#![tactic(auto)]

mod parts;
mod terms;

pub use event_expr::Formula;
pub use parts::{Memory, OccultParts, occult};
pub use spec_kinds::Shadow;
