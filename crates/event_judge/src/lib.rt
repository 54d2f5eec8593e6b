//! The judge of events: what is said of each node of the tree of a search, and the parts of a node that is split.
//!
//! In come the states of two bodies, their ephemeris, an event as formulas, a width and a depth down to which nodes are
//! split, and a cutter. Out comes a `Judge` with the rules of that search. It looks at no more of a node than decides:
//! at no enclosure over a wide node with a border in it, and at no end if the function over the whole node decides, or
//! the ends decide nothing. A list of steps makes once what function and conditions share. No call allocates or fails.
//!
//! A `RememberingJudge` stands for another judge of the same search, and has its rules. In words that workers share it
//! remembers signs of the function at times. Signs that differ at the two ends of a wide node leave only the limits of
//! the search to decide it. Memory can run out as the judge is made, and nothing waits. Over which spans the function
//! keeps one sign is not asked here.
#![tactic(auto)]

mod conditions;
mod event_search;
pub mod examples;
mod judge;
mod judging;
mod listed_event;
mod memory;
mod named_judge;
mod naming;
mod parts;
mod recalling;
mod remembering;
mod remembering_judge;
mod search_memory;
mod search_time;
mod sign_words;
mod slot_count;
mod steps;
mod times;
mod valid_node;
mod verdicts;

pub use body_states::BodyStates;
pub use event_kinds::Event;
pub use event_search::EventSearch;
pub use gf_hooks::{Cutter, Judge, Node, Verdict};
pub use judge::EventJudge;
pub use named_judge::NamedJudge;
pub use naming::Naming;
pub use remembering_judge::RememberingJudge;
