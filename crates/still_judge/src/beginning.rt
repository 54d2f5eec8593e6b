// Where a node of a search stands among still spans, by one search by halving of their list.
ghost use Rattle.std.specs.Prelude.{◌≡◌, ◌&&◌, ◌<ℤ◌, get_or, length, nat_lt};
ghost use Rattle.spec_events.specs.Stages.{is_above_limits};
ghost use Rattle.spec_searches.specs.Search.{criteria};
ghost use Rattle.spec_stills.specs.declared.still.StillSpan.{StillSpan};
ghost use Rattle.spec_stills.specs.Still.{is_served};
ghost use Rattle.spec_stills.specs.Eager.{begin_in};
ghost use Rattle.still_judge.specs.Stands.{IsCount, begins_in, standing_of};

use crate::standing::Standing;
use crate::still_list::StillList;
use event_judge::EventSearch;
use spec_stills::StillSpan;
use spec_trees::Node;

// Tells whether a still span begins within a node: at the node's first time or later, and before its last.
#[inline(always)]
fn begins_within(still: StillSpan, node: Node) -> bool
    ensures { result ≡ begins_in still node }
{
    node.a <= still.from && still.from < node.b
}

/// Tells whether the limits of a search allow a node to be split: it is wider than the search's least width, and not
/// yet at its greatest depth.
#[inline(always)]
pub(crate) fn may_be_split(search: &EventSearch, node: Node) -> bool
    ensures { result ≡ is_above_limits (criteria search.now) node }
{
    search.width() < node.b.abs_diff(node.a) && node.depth < search.depth()
}

impl StillList {
    // Tells whether the list has a still span at a place, counted from 0, and that span begins within a node. Past
    // the last place it is false.
    #[inline(always)]
    fn span_at_begins_within(&self, place: usize, node: Node) -> bool
        ensures { (d : StillSpan) → result
            ≡ (nat_lt place (length self.now) && begins_in (get_or self.now place d) node) }
    {
        place < self.len() && begins_within(self.span_at(place), node)
    }

    // Tells whether a still span of the list begins within a node. The caller has counted the `count` spans that
    // begin no later than the node, so only the last of these and the first after them can.
    fn some_span_begins_within(&self, node: Node, count: usize) -> bool
        requires inside { node.a <ℤ node.b }
        requires counted { IsCount node self.now count }
        ensures { result ≡ begin_in self.now node }
    {
        if self.span_at_begins_within(count, node) {
            return true;
        }
        match count.checked_sub(1) {
            Some(place) => self.span_at_begins_within(place, node),
            None => false,
        }
    }

    // Tells whether a still span of the list serves a node of a search, so that the node is clear. The caller has
    // counted the `count` spans that begin no later than the node.
    fn serves_node(&self, search: &EventSearch, node: Node, count: usize) -> bool
        requires inside { node.a <ℤ node.b }
        requires counted { IsCount node self.now count }
        ensures { result ≡ is_served search.now self.now node }
    {
        self.serving_span_among(search, node, count).is_some()
    }

    // Tells whether the eager tree splits a node without asking a judge: a still span begins within the node, and the
    // limits of the search allow it to be split. The caller has counted the `count` spans that begin no later than
    // the node.
    fn is_split_unjudged(&self, search: &EventSearch, node: Node, count: usize) -> bool
        requires inside { node.a <ℤ node.b }
        requires counted { IsCount node self.now count }
        ensures { result ≡ (begin_in self.now node && is_above_limits (criteria search.now) node) }
    {
        self.some_span_begins_within(node, count) && may_be_split(search, node)
    }

    /// Returns where a node of a search stands among the still spans: `Served` if one serves it; `Begun` if none
    /// does, but one begins within it and the search's limits allow it to be split; else `Open`.
    pub(crate) fn node_standing(&self, search: &EventSearch, node: Node) -> Standing
        requires { node.a <ℤ node.b }
        ensures { result ≡ standing_of search.now self.now node }
    {
        let count = self.count_begun_by(node);
        if self.serves_node(search, node, count) {
            Standing::Served
        } else if self.is_split_unjudged(search, node, count) {
            Standing::Begun
        } else {
            Standing::Open
        }
    }
}
