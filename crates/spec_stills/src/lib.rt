//! Still spans of a search: spans of times in which each node that is no wider than so much is clear. A node within one need
//! not be cut down to its leaves: it is taken for one clear leaf, and the windows stay what they are. In an eager tree a node
//! in which a still span begins is split without being judged, since nothing can come of it but a split, or one clear leaf. An
//! undecided leaf of the eager tree is settled by the tree of the search: it is clear where it lies in a clear leaf of that.
//! In a served tree no node is split unjudged: its leaves tell at each time the sign that those of the tree tell.
//! A span is still where the function of the search keeps a margin from 0 at each time, which its steps cannot use up.
//!
//! Nothing runs here. Searches and spans come in; what goes out are the definitions of `specs/`, worked values of them, and
//! laws: `still_laws` says what is still, `eager_laws` that eager trees are sound, `settled_laws` that settled leaves have the
//! windows of the tree of the search, `served_laws` that served trees tell its signs, `weight_laws` how many leaves it may have,
//! `margin_laws` that spans with a margin are still.
#![tactic(auto)]

mod eager_examples;
pub mod eager_laws;
pub mod margin_examples;
pub mod margin_laws;
mod served_examples;
pub mod served_laws;
mod settled_examples;
pub mod settled_laws;
mod still;
mod still_examples;
pub mod still_laws;
pub mod weight_laws;

pub use eager_examples::{
    spans_begin_in_nodes_that_hold_their_start, wide_nodes_where_spans_begin_are_split_unjudged,
};
pub use served_examples::served_nodes_are_clear_and_others_judged;
pub use settled_examples::{
    a_clear_leaf_clears_nodes_within_it, only_undecided_leaves_are_settled,
    the_part_of_a_node_is_found_by_its_start,
};
pub use spec_intervals::Sign;
pub use still::StillSpan;
pub use still_examples::{
    a_span_serves_nodes_that_halving_makes_narrow, leaves_weigh_two_to_their_halvings,
};
