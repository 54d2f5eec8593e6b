//! Trees of spans that are cut in two: the leaves of a root, by walks.
//!
//! In come a judge and a root; out come the root's leaves from left to right, which follow one another from its first
//! time to its last, or how many they are. The judge's meanings are `Rules` of `spec_trees`, which never change; what a
//! verdict says of the times of a node is the judge's own affair.
#![tactic(auto)]

mod count;
mod run;
mod shares;

pub use count::count_one;
pub use gf_hooks::{Judge, rules_are_sound};
pub use run::{RunError, run_one};
pub use shares::run_shares;
pub use spec_trees::{Leaf, Mark, Node, Turn, Verdict};
