//! Bounds of the coordinates of bodies and of terms over a span, which include their enclosures over every span within it;
//! and the spans over which a search is steady, in which the signs at two ends tell the verdict of a node, or quiet, in which
//! each node is clear, or over which its conditions hold.
//!
//! Nothing runs here. `specs/` has the definitions, `laws` says that bounds include enclosures and what verdicts are.
#![tactic(auto)]

pub mod laws;
