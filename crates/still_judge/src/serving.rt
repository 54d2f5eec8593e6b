// The still span that serves a node of a search, and how many leaves of its tree leaves of the eager tree stand for.
ghost use Rattle.std.specs.Prelude.{◌≡◌, ◌&&◌, ◌≤◌, ◌<ℤ◌, ◌*◌, ◌^◌, IfSome, min, nat_le};
ghost use Rattle.spec_trees.specs.Tree.{HasTime, width};
ghost use Rattle.spec_stills.specs.Still.{is_fine_enough, is_half, is_near_enough, lies_in, serves};
ghost use Rattle.spec_stills.specs.Weights.{fewest_halvings, first_serving, halvings_of, weight};
ghost use Rattle.still_judge.specs.Stands.{IsCount};
ghost use Rattle.still_judge.specs.declared.limits.TheConstants.{MAX_HALVINGS};

use crate::still_list::StillList;
use event_judge::EventSearch;
use gf_hooks::CutRule;
use spec_stills::StillSpan;
use spec_trees::{Leaf, Node};

// Tells whether a node lies within a still span, ends included.
#[inline(always)]
fn node_lies_in_span(still: StillSpan, node: Node) -> bool
    ensures { result ≡ lies_in still node }
{
    still.from <= node.a && node.b <= still.upto
}

/// Tells whether a still span shows that a node is clear: the node lies in the span, and is no wider than the nodes that
/// are clear there.
#[inline(always)]
pub(crate) fn span_clears_node(still: StillSpan, node: Node) -> bool
    ensures { result ≡ (lies_in still node && nat_le (width node) still.widest) }
{
    node_lies_in_span(still, node) && node.b.abs_diff(node.a) <= still.widest
}

// Returns the number of parts into which `halvings` halvings cut a node: 2 to that power. The remainder by 64 changes
// nothing, and spares the compiled code a test for shifts that are too great.
#[inline(always)]
fn part_count(halvings: u32) -> u64
    requires { halvings ≤ MAX_HALVINGS }
    ensures parts { result ≡ 2 ^ halvings }
    ensures few { result ≤ 2 ^ MAX_HALVINGS }
{
    1 << (halvings % 64)
}

// Tells whether `halvings` halvings bring a width, in ticks, down to `widest` or below.
#[inline(always)]
fn are_enough_halvings(widest: u64, width: u64, halvings: u32) -> bool
    requires { halvings ≤ MAX_HALVINGS }
    ensures { result ≡ nat_le width (2 ^ halvings * widest) }
{
    u128::from(width) <= u128::from(part_count(halvings)) * u128::from(widest)
}

// Tells whether a node, halved as often as a still span says, comes down to the width at which the span's nodes are
// clear, at depths that the search allows.
#[inline(always)]
fn is_halved_narrow_enough(search: &EventSearch, still: StillSpan, node: Node) -> bool
    requires { still.halvings ≤ MAX_HALVINGS }
    ensures { result ≡ is_near_enough search.now still node }
{
    are_enough_halvings(still.widest, node.b.abs_diff(node.a), still.halvings)
        && u64::from(node.depth) + u64::from(still.halvings) <= u64::from(search.depth())
}

// Returns the fewest halvings that bring a width, in ticks, down to `widest`, or `most` if fewer than `most` do not.
fn fewest_halvings(widest: u64, width: u64, most: u32) -> u32
    requires { most ≤ MAX_HALVINGS }
    ensures fewest { result ≡ fewest_halvings widest width most }
    ensures few { result ≤ most }
{
    match most.checked_sub(1) {
        Some(fewer) => {
            if are_enough_halvings(widest, width, fewer) {
                fewest_halvings(widest, width, fewer)
            } else {
                most
            }
        }
        None => 0,
    }
}

// Returns the greatest number of leaves that the search's tree can have in a node that a still span serves: the parts
// of the fewest halvings, or the ticks of the node if they are fewer.
fn max_leaf_count(still: StillSpan, node: Node) -> u64
    requires { still.halvings ≤ MAX_HALVINGS }
    ensures leaves { result ≡ min (2 ^ halvings_of still node) (width node) }
    ensures few { result ≤ 2 ^ MAX_HALVINGS }
{
    let width = node.b.abs_diff(node.a);
    part_count(fewest_halvings(still.widest, width, still.halvings)).min(width)
}

// Tells whether a rule cuts nodes into halves.
#[inline(always)]
fn is_half_rule(rule: CutRule) -> bool
    ensures { result ≡ is_half rule }
{
    match rule {
        CutRule::Half => true,
        CutRule::Third => false,
    }
}

// Tells whether a search halves its nodes, and splits every node that is wider than those which a still span shows to
// be clear.
#[inline(always)]
fn halves_down_to_widest(search: &EventSearch, still: StillSpan) -> bool
    ensures { result ≡ is_fine_enough search.now still }
{
    is_half_rule(search.rule()) && search.width() <= still.widest
}

// Tells whether a still span serves a node: all leaves that the search's tree has in the node are clear because of
// the span.
#[inline(always)]
fn span_serves_node(search: &EventSearch, still: StillSpan, node: Node) -> bool
    requires { still.halvings ≤ MAX_HALVINGS }
    ensures { result ≡ serves search.now still node }
{
    node_lies_in_span(still, node)
        && (is_halved_narrow_enough(search, still, node) && halves_down_to_widest(search, still))
}

impl StillList {
    /// Returns the still span that serves a node of a search, or none if none does. Of the `count` spans that begin
    /// no later than the node, which the caller has counted, only the last can serve it.
    pub(crate) fn serving_span_among(
        &self,
        search: &EventSearch,
        node: Node,
        count: usize,
    ) -> Option<StillSpan>
        requires inside { node.a <ℤ node.b }
        requires counted { IsCount node self.now count }
        ensures span { result ≡ first_serving search.now self.now node }
        ensures few { IfSome result (λ still. still.halvings ≤ MAX_HALVINGS) }
    {
        let Some(place) = count.checked_sub(1) else {
            return None;
        };
        let still = self.span_at(place);
        if span_serves_node(search, still, node) {
            Some(still)
        } else {
            None
        }
    }

    /// Returns the still span that serves a node of a search, or none if no span of the list does.
    pub(crate) fn serving_span(&self, search: &EventSearch, node: Node) -> Option<StillSpan>
        requires { node.a <ℤ node.b }
        ensures span { result ≡ first_serving search.now self.now node }
        ensures few { IfSome result (λ still. still.halvings ≤ MAX_HALVINGS) }
    {
        self.serving_span_among(search, node, self.count_begun_by(node))
    }

    /// Returns the greatest number of leaves of a search's tree for which a leaf of its eager tree can stand. A leaf
    /// that no still span serves counts as one.
    pub fn weight(&self, search: &EventSearch, leaf: Leaf) -> u64
        requires { HasTime leaf }
        ensures weight { result ≡ weight search.now self.now leaf }
        ensures few { result ≤ 2 ^ MAX_HALVINGS }
    {
        match self.serving_span(search, leaf.node) {
            Some(still) => max_leaf_count(still, leaf.node),
            None => 1,
        }
    }
}
