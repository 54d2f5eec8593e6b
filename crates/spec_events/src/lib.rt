//! What an event is, what is found at a node of time and which verdict follows from it, and what windows promise of the
//! events in them: the definitions that contracts cite, and their laws. A clear node holds no event, a node with one
//! exactly one, and leaves with the right marks have windows that hold every event. Which turns happen at which times
//! comes in, or a function's exact values and guards, and what encloses them; verdicts and windows go out.
#![tactic(auto)]

mod dir;
mod examples;
mod laws;
mod verdict_examples;

pub use dir::Dir;
pub use examples::{
    conditions_turn_when_their_truth_changes, turns_are_events_if_wanted_and_guarded,
};
pub use laws::{
    a_clear_node_holds_no_event, a_node_with_one_holds_one, all_turns_are_events_without_guards,
    enclosures_give_true_findings, staged_verdicts_are_verdicts, undecided_nodes_are_at_a_limit,
    wide_nodes_at_a_border_are_split, windows_of_a_covered_span_hold_its_events,
};
pub use verdict_examples::{
    a_line_has_one_event, limits_directions_and_guards_decide_verdicts,
    nodes_at_a_border_are_split_down_to_one_tick, verdicts_on_a_line_find_its_rise,
};
