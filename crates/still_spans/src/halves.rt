// The still spans of one granule: those of its halves, of their halves, and so on.
ghost use Rattle.std.specs.Prelude.{◌≡◌, ◌<ℤ◌, ◌+ℤ◌, pos, ℤ, IfSome, OnOk, false, [], ◌∷◌, ◌++◌};
ghost use Rattle.spec_trees.specs.Cuts.{CanCut};
ghost use Rattle.spec_stills.specs.Still.{IsStill};
ghost use Rattle.still_spans.specs.Found.{AreFound, IsStillOver};
ghost use Rattle.still_spans.specs.Knowledge.{IsBoundedOver, IsKnownOver};

use crate::borders::one_tick_span_between;
use crate::budget::LeafBudget;
use crate::known::Known;
use crate::span_bound::SpanBound;
use event_bounds::RangeRows;
use event_judge::EventSearch;
use event_models::ModelRooms;
use gf_hooks::{CutRule, rule_cut};
use spec_stills::StillSpan;
use std::alloc::AllocError;

/// The greatest number of times that a granule is halved: enough to come down from a granule of 49 days to a millisecond.
pub(crate) const DEEPEST: u32 = 32;

/// The greatest number of spans of a granule that are looked at.
pub(crate) const MAX_TRIES: u32 = 16_384;

/// The width, in ticks, of the widest spans that are not halved.
const NARROWEST: u64 = 1;

/// The still spans that are found, how many more spans of a granule are looked at, and the rooms in which bounds and
/// models are made.
#[derive(Drop)]
pub(crate) struct Walk {
    pub(crate) found: Vec<StillSpan>,
    pub(crate) tries: u32,
    pub(crate) rows: RangeRows,
    pub(crate) rooms: ModelRooms,
    pub(crate) budget: LeafBudget,
}

/// Tells whether the span from `a` to `b` is too narrow to be halved: one tick, or at most the width at which
/// the search stops splitting.
pub(crate) fn is_too_narrow_to_halve(search: &EventSearch, a: i64, b: i64) -> bool
    requires { a <ℤ b }
    ensures { result ≡ false → (a +ℤ pos 1) <ℤ b }
{
    b.abs_diff(a) <= search.width().max(NARROWEST)
}

/// Returns the time at which the tree cuts a node from `a` to `b` in two: halfway, rounded down. Still spans are
/// halved there too, so that nodes of the tree fit into them.
pub(crate) fn middle_time(a: i64, b: i64) -> i64
    requires { CanCut a b }
    ensures from { a <ℤ result }
    ensures upto { result <ℤ b }
{
    rule_cut(CutRule::Half, a, b)
}

impl Walk {
    // Returns the still span from the end of the last span found to the start of `still`, one tick later. None is
    // returned if there is none yet, if they are not one tick apart, or if their signs differ.
    fn one_tick_span_before(&self, search: &EventSearch, still: StillSpan) -> Option<StillSpan>
        requires still { IsStill search.now still }
        requires several { still.from <ℤ still.upto }
        ensures { (from : ℤ) → AreFound search.now from self.now.found.items still.from
            → IfSome result (λ unit. AreFound search.now from
            (self.now.found.items ++ unit ∷ []) still.from) }
    {
        match self.found.last() {
            Some(last) => one_tick_span_between(search, *last, still),
            None => None,
        }
    }

    // Adds the still span of one tick between the last span found and `still`, or nothing if there is no such span.
    // The only error is out of memory.
    fn add_one_tick_span_before(
        &mut self,
        search: &EventSearch,
        still: StillSpan,
    ) -> Result<(), AllocError>
        requires still { IsStill search.now still }
        requires several { still.from <ℤ still.upto }
        ensures { (from : ℤ) → AreFound search.now from self.old.found.items still.from
            → OnOk result (AreFound search.now from self.new.found.items still.from) }
    {
        match self.one_tick_span_before(search, still) {
            Some(unit) => {
                self.found.push(unit)?;
                Ok(())
            }
            None => Ok(()),
        }
    }

    /// Adds the still span `still`, which is from `a` to `b`, after those found, and before it the span of one tick
    /// between them if that is still too. The only error is out of memory.
    pub(crate) fn add_span(
        &mut self,
        search: &EventSearch,
        a: i64,
        b: i64,
        still: StillSpan,
    ) -> Result<(), AllocError>
        requires several { a <ℤ b }
        requires still { IsStillOver search.now a b still }
        ensures { (from : ℤ) → AreFound search.now from self.old.found.items a
            → OnOk result (AreFound search.now from self.new.found.items b) }
    {
        self.budget.spend(still);
        self.add_one_tick_span_before(search, still)?;
        self.found.push(still)?;
        Ok(())
    }

    /// Adds the still spans from `a` to `b`: the whole span if it is still, and else those of its two halves, down to
    /// `depth` more halvings. The model `known` and the bound `over` hold over these times at least. Each call uses
    /// up one of the tries; with none left nothing is added. The only error is out of memory.
    pub(crate) fn add_spans_within(
        &mut self,
        search: &EventSearch,
        known: &Known,
        over: &SpanBound,
        a: i64,
        b: i64,
        depth: u32,
    ) -> Result<(), AllocError>
        requires known { IsKnownOver search.now known.now a b }
        requires bounded { IsBoundedOver search.now over.now a b }
        ensures { (from : ℤ) → AreFound search.now from self.old.found.items a
            → OnOk result (AreFound search.now from self.new.found.items b) }
    {
        if self.tries == 0 {
            return Ok(());
        }
        self.tries -= 1;
        let spare = self.budget.leaves_to_spare(search, b);
        let doubt = match known.still_span_within(search, &mut self.rows, over, spare, a, b) {
            Ok(still) => return self.add_span(search, a, b, still),
            Err(doubt) => doubt,
        };
        if depth == 0 || is_too_narrow_to_halve(search, a, b) {
            return Ok(());
        }
        let Some(known) = known.model_for_parts(search, &mut self.rooms, doubt, a, b) else {
            return Ok(());
        };
        let over = over.bound_for_parts(search, &mut self.rows, spare, a, b);
        let middle = middle_time(a, b);
        self.add_spans_within(search, &known, &over, a, middle, depth - 1)?;
        self.add_spans_within(search, &known, &over, middle, b, depth - 1)
    }
}
