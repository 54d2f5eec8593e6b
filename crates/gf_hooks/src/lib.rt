//! What whoever judges a tree is given, whatever the tree is of: who decides which nodes are split and where, a stored cut,
//! and the tests of signs and of steps of which a verdict is made.
//!
//! - A judge's meanings (`judge`) are `Rules` of `spec_trees`, which never change; what a verdict says of the times of a node
//!   is the judge's own affair.
//! - A rule, a closure and the fact that it returns the rule's cuts come in; out comes a `Cutter` (`cutter`), whose every cut is
//!   the rule's. Whoever holds one needs to know nothing of the closure.
//! - Signs at the ends of a node come in, the ends of an interval that holds every step, and the turns that are wanted; out
//!   come the answers of `spec_events`' own tests (`ends`, `turnless`). No such call allocates or fails.
//!
//! Nothing here walks a tree, so that what judges nodes, and what checks the leaves of others, stands on no search.
#![tactic(auto)]

mod cutter;
mod ends;
mod judge;
mod rules;
mod steps;
mod turnless;

pub use cutter::{Cut, Cutter};
pub use ends::{differ, has_no_turn, turn_to};
pub use judge::{Judge, rules_are_sound};
pub use rules::rule_cut;
pub use spec_events::Dir;
pub use spec_intervals::Sign;
pub use spec_trees::{CutRule, Node, Turn, Verdict};
pub use steps::Steps;
pub use turnless::{is_one_way, is_turnless};
