// A list of still spans in order of time, in which one is found by halving.
ghost use Rattle.std.specs.Prelude.{◌≡◌, ◌<◌, ◌≤◌, ℤ, All, IfSome, IsTrue, get_or, int_le, length, nat_eq};
ghost use Rattle.spec_intervals.specs.declared.signs.Sign.{Sign};
ghost use Rattle.spec_trees.specs.declared.tree.Verdict.TheVariants.{Clear};
ghost use Rattle.spec_trees.specs.Tree.{IsValid};
ghost use Rattle.spec_searches.specs.Found.{rules};
ghost use Rattle.spec_searches.specs.Search.{Search, verdict_of};
ghost use Rattle.spec_stills.specs.declared.still.StillSpan.{StillSpan};
ghost use Rattle.spec_stills.specs.Still.{IsStill};
ghost use Rattle.still_judge.specs.Order.{are_in_order, follow, in_order_or_none, is_next};
ghost use Rattle.still_judge.specs.Signs.{TellSigns};
ghost use Rattle.still_judge.specs.Stands.{IsCount};
ghost use Rattle.still_judge.specs.declared.limits.TheConstants.{MAX_HALVINGS};

use crate::limits::MAX_HALVINGS;
use crate::serving::span_clears_node;
use ival_core::Sign;
use spec_stills::StillSpan;
use spec_trees::Node;
use std::marker::Model;

/// Still spans of which each begins no earlier than the one before it ends.
#[derive(Drop)]
pub struct StillList {
    spans: Vec<StillSpan>,
}

impl Model for StillList {
    ghost use Rattle.std.specs.Prelude.{◌≡◌, List, true};
    ghost use Rattle.spec_stills.specs.declared.still.StillSpan.{StillSpan};
    ghost use Rattle.still_judge.specs.Order.{are_in_order};

    ghost Value = { List StillSpan };

    ghost view = { λ s. s.spans.items };

    ghost invariant = { λ s. are_in_order s.spans.items ≡ true };
}

// Tells whether a still span may come next in a list whose last one ends at `time`: it begins there or later, takes
// some time, and asks for at most 31 halvings.
fn may_come_next(time: i64, still: StillSpan) -> bool
    ensures { result ≡ is_next time still }
{
    time <= still.from && still.from < still.upto && still.halvings <= MAX_HALVINGS
}

// Tells whether still spans follow one another from the time `first` on: each begins no earlier than the one before
// it ends, takes some time, and asks for at most 31 halvings.
#[tactic(auto, using(crate::proofs::FollowingNodes::stops, crate::proofs::FollowingNodes::goes_on))]
fn are_in_order_from(first: i64, stills: &[StillSpan]) -> bool
    ensures { result ≡ follow first stills.now }
{
    let mut time = first;
    for still in stills.iter() {
        if !may_come_next(time, *still) {
            return false;
        }
        time = still.upto;
    }
    true
}

// Tells whether still spans may make a list: each begins no earlier than the one before it ends, takes some time, and
// asks for at most 31 halvings. No spans at all may.
fn are_in_order(stills: &[StillSpan]) -> bool
    ensures { result ≡ are_in_order stills.now }
{
    match stills.first() {
        Some(first) => are_in_order_from(first.from, stills),
        None => true,
    }
}

impl StillList {
    /// Makes a list of still spans. If a span begins before the one before it ends, takes no time, or asks for more
    /// than 31 halvings, the list is empty.
    pub fn new(spans: Vec<StillSpan>) -> StillList
        ensures { result ≡ in_order_or_none spans.items }
    {
        if are_in_order(&spans) {
            StillList { spans }
        } else {
            let mut none = spans;
            none.clear();
            StillList { spans: none }
        }
    }

    /// Tells whether the list has no still span.
    pub fn is_empty(&self) -> bool
        ensures { result ≡ nat_eq (length self.now) 0 }
    {
        self.len() == 0
    }

    /// Returns the number of still spans that begin no later than a node does, found by halving of the list.
    pub(crate) fn count_begun_by(&self, node: Node) -> usize
        ensures { IsCount node self.now result }
    {
        self.spans.partition_point(
            |still: &StillSpan| -> bool
                ensures { result ≡ int_le still.now.from node.a }
            { still.from <= node.a },
        )
    }

    /// Returns the sign that the function of a search has at a time, if one of the still spans holds the time, or none.
    /// If one span ends as the next begins, the later one tells.
    pub fn sign_at(&self, time: i64) -> Option<Sign>
        ensures { (point : ℤ → Sign) → TellSigns point self.now
            → IfSome result (λ sign. point time ≡ sign) }
    {
        let count = self.spans.partition_point(
            |still: &StillSpan| -> bool
                ensures { result ≡ int_le still.now.from time }
            { still.from <= time },
        );
        let Some(place) = count.checked_sub(1) else {
            return None;
        };
        let still = self.span_at(place);
        if time <= still.upto {
            Some(still.sign)
        } else {
            None
        }
    }

    /// Tells whether a still span of the list shows that a node of the search is clear: the node lies in the span, and is
    /// no wider than the nodes that are clear there.
    pub(crate) fn clears_node(&self, node: Node) -> bool
        ensures { (s : Search) → All (IsStill s) self.now → IsValid (rules s) node
            → IsTrue result → verdict_of s node ≡ Clear }
    {
        let Some(place) = self.count_begun_by(node).checked_sub(1) else {
            return false;
        };
        span_clears_node(self.span_at(place), node)
    }

    /// Returns the number of still spans in the list.
    #[inline(always)]
    pub(crate) fn len(&self) -> usize
        ensures { result ≡ length self.now }
    {
        self.spans.len()
    }

    /// Returns the still span at a place, counted from 0 in order of time.
    #[inline(always)]
    pub(crate) fn span_at(&self, place: usize) -> StillSpan
        requires { place < length self.now }
        ensures span { (d : StillSpan) → result ≡ get_or self.now place d }
        ensures few { result.halvings ≤ MAX_HALVINGS }
    {
        self.spans[place]
    }
}
