//! How a span of time is cut into a tree, which leaves the tree has, and which windows of time the leaves make: the
//! types and definitions that contracts cite, and the laws about them. Nothing here knows what is searched for, or
//! of anything below: nodes and marks come in, and leaves and windows go out.
#![tactic(auto)]

mod book;
mod cut_examples;
mod cut_laws;
mod cuts;
mod examples;
mod laws;
mod tree;
mod window;

pub use book::{Book, Booked};
pub use cut_examples::{cuts_are_rounded_down, eight_units_are_cut_into_leaves};
pub use cut_laws::cuts_lie_inside;
pub use cuts::CutRule;
pub use examples::{
    entered_leaves_are_put_in_order, five_leaves_make_three_windows, middles_are_rounded_down,
    three_units_have_three_leaves,
};
pub use laws::{
    a_cover_is_in_order, a_node_has_the_leaves_of_its_parts, a_rearranged_cover_is_put_in_order,
    a_stable_sort_puts_in_order, a_walk_from_the_left_makes_the_windows, leaves_cover_the_node,
    windows_are_in_order,
};
pub use tree::{Leaf, Mark, Node, Turn, Verdict};
pub use window::{Holds, Window};
