// Bounds of the function of a search over times of one granule, and the still spans that they tell with a margin.
ghost use Rattle.std.specs.Prelude.{◌≡◌, ◌<ℤ◌, ℕ, IfSome};
ghost use Rattle.spec_events.specs.Verdict.{is_one_way};
ghost use Rattle.spec_bodies.specs.Views.{Fits};
ghost use Rattle.spec_bounds.specs.Steady.{sign_at};
ghost use Rattle.spec_bounds.specs.Terms.{bound_over};
ghost use Rattle.spec_stills.specs.Still.{IsStill};
ghost use Rattle.spec_stills.specs.Margins.{HasMargin, StepsFit};
ghost use Rattle.span_models.specs.Margins.{margin_of};
ghost use Rattle.event_bounds.specs.Made.{IsBound};
ghost use Rattle.still_spans.specs.Found.{IsStillOver, still};
ghost use Rattle.still_spans.specs.Knowledge.{HasOneSign, IsBounded, IsBoundedOver, side};

use crate::budget::leaf_share;
use crate::units::{halving_count, max_width_by_steps};
use event_bounds::{Bound, RangeRows};
use event_judge::EventSearch;
use gf_hooks::{Steps, is_one_way};
use ival_core::{Ival, Sign};
use span_models::Margin;
use spec_stills::StillSpan;
use spec_stills::margin_laws::margins_make_spans_still;
use spec_stills::still_laws::monotone_spans_are_still;

/// The number of leaves that is small for any one span, however few are left to spare.
const FEW_LEAVES: u64 = 64;

/// The number of leaves to spare with which no bound over a part of a granule is worth making: a 16th of those that all
/// spans of an ephemeris share.
const AMPLE_LEAVES: u64 = 1 << 20;

/// The least ratio of the times of a bound to those of a finer one that tells more.
const FINER: u64 = 8;

/// The least share, in leaves, of a span that gives way to its halves if it has more leaves than its share.
const MIN_HALVED_SHARE: u64 = 128;

/// A bound of the function of a search over times of one granule.
#[derive(Clone, Copy)]
pub(crate) struct SpanBound {
    pub(crate) bound: Bound,
    pub(crate) first: i64,
    pub(crate) last: i64,
}

/// Returns the bound of the function of a search over the times from `first` to `last`, which lie in one granule of
/// each column in use. Rows that it needs are kept in `rows` for later bounds.
pub(crate) fn function_bound_between(
    search: &EventSearch,
    rows: &mut RangeRows,
    first: i64,
    last: i64,
) -> Bound
    requires { Fits search.now.view first last }
    ensures { IsBound result (bound_over search.now.view search.now.event.function first last) }
{
    search.function_bound(rows, first, last)
}

// Returns the two ends of an interval of steps, in the interval's own unit.
fn step_ends(step: &Ival) -> Steps
    ensures lo { result.lo ≡ step.now.lo }
    ensures hi { result.hi ≡ step.now.hi }
{
    let (lo, hi, _) = step.parts();
    Steps { lo, hi }
}

impl SpanBound {
    /// Keeps a bound of the search's function together with the first and the last time over which it holds.
    pub(crate) fn new(search: &EventSearch, bound: Bound, first: i64, last: i64) -> SpanBound
        requires fits { Fits search.now.view first last }
        requires several { first <ℤ last }
        requires bound { IsBound bound
            (bound_over search.now.view search.now.event.function first last) }
        ensures bounded { IsBounded search.now result }
        ensures first { result.first ≡ first }
        ensures last { result.last ≡ last }
    {
        search.is_search();
        SpanBound { bound, first, last }
    }

    // Makes the bound of the search's function over the times from `first` to `last`, and keeps it with these times.
    fn bound_between(search: &EventSearch, rows: &mut RangeRows, first: i64, last: i64) -> SpanBound
        requires fits { Fits search.now.view first last }
        requires several { first <ℤ last }
        ensures bounded { IsBounded search.now result }
        ensures first { result.first ≡ first }
        ensures last { result.last ≡ last }
    {
        let bound = function_bound_between(search, rows, first, last);
        SpanBound::new(search, bound, first, last)
    }

    // Tells whether the function only rises, or only falls, over the times of the bound: all its steps have one
    // direction.
    fn is_monotone(&self) -> bool
        ensures { result ≡ is_one_way self.now.bound.step }
    {
        is_one_way(step_ends(&self.bound.step))
    }

    // Returns the greatest width in ticks of a node that is clear because the steps within it cannot use up the
    // margin by which the function keeps from 0. None is returned if even one step may be too large.
    fn clear_width_by_steps(&self, search: &EventSearch, margin: Margin) -> Option<u64>
        requires bounded { IsBounded search.now self.now }
        ensures { let x = self.now in let v = search.now.view in
            IfSome result (λ few. StepsFit
            (bound_over v search.now.event.function x.first x.last) few (margin_of margin)) }
    {
        max_width_by_steps(&self.bound, margin)
    }

    // Returns the greatest width in ticks of a node from `a` to `b` that is clear, given the margin by which the
    // function keeps from 0 there. If the function is monotone each node there is clear; if its steps are too large
    // only nodes of one tick are.
    fn widest_clear_width(&self, search: &EventSearch, margin: Margin, a: i64, b: i64) -> u64
        requires bounded { IsBoundedOver search.now self.now a b }
        requires margin { HasMargin search.now a b (margin_of margin) }
        requires sign { sign_at search.now a ≡ side margin }
        ensures { (k : ℕ) → IsStill search.now (still a b result k (side margin)) }
    {
        margins_make_spans_still();
        monotone_spans_are_still();
        if self.is_monotone() {
            return a.abs_diff(b);
        }
        match self.clear_width_by_steps(search, margin) {
            Some(few) => few,
            None => 1,
        }
    }

    // Tells whether the times of the bound are at least 8 times as long as those from `a` to `b`.
    fn is_far_wider(&self, a: i64, b: i64) -> bool {
        b.abs_diff(a) <= self.last.abs_diff(self.first) / FINER
    }

    // Returns the bound by which the times from `a` to `b` are examined: a new one over these times alone, if a finer one is
    // wanted and the function may turn in the times of this one; else this one.
    fn bound_of_part(
        &self,
        search: &EventSearch,
        rows: &mut RangeRows,
        is_finer_wanted: bool,
        a: i64,
        b: i64,
    ) -> SpanBound
        requires { IsBoundedOver search.now self.now a b }
        ensures { IsBoundedOver search.now result a b }
    {
        if is_finer_wanted && !self.is_monotone() {
            SpanBound::bound_between(search, rows, a, b)
        } else {
            *self
        }
    }

    /// Returns the bound by which the parts of the times from `a` to `b` are examined: a new one over these times alone, if
    /// this one is over far longer times in which the function may turn, and few leaves are left to spare; else this one.
    pub(crate) fn bound_for_parts(
        &self,
        search: &EventSearch,
        rows: &mut RangeRows,
        spare: u64,
        a: i64,
        b: i64,
    ) -> SpanBound
        requires { IsBoundedOver search.now self.now a b }
        ensures { IsBoundedOver search.now result a b }
    {
        let is_finer_wanted = spare < AMPLE_LEAVES && self.is_far_wider(a, b);
        self.bound_of_part(search, rows, is_finer_wanted, a, b)
    }

    /// Returns the bound by which the times from `a` to `b` are examined where only signs are known: a new one over these times
    /// alone, if this one is over longer times in which the function may turn; else this one.
    pub(crate) fn bound_for_signs(
        &self,
        search: &EventSearch,
        rows: &mut RangeRows,
        a: i64,
        b: i64,
    ) -> SpanBound
        requires { IsBoundedOver search.now self.now a b }
        ensures { IsBoundedOver search.now result a b }
    {
        let is_longer = b.abs_diff(a) < self.last.abs_diff(self.first);
        self.bound_of_part(search, rows, is_longer, a, b)
    }

    /// Returns the still span from `a` to `b`, given the sign that the function has there at each time: nodes of any width
    /// are clear, if the function is monotone. None is returned if it may not be, or if the search does not cut finely
    /// enough for the span.
    pub(crate) fn still_span_by_sign(
        &self,
        search: &EventSearch,
        sign: Sign,
        a: i64,
        b: i64,
    ) -> Option<StillSpan>
        requires bounded { IsBoundedOver search.now self.now a b }
        requires sign { HasOneSign search.now a b sign }
        ensures { IfSome result (λ still. IsStillOver search.now a b still) }
    {
        monotone_spans_are_still();
        if self.is_monotone() {
            useful_span(search, a, b, a.abs_diff(b), sign)
        } else {
            None
        }
    }

    /// Returns the still span from `a` to `b`, given the margin by which the function keeps from 0 there, and the number
    /// of leaves that are left to spare. If it would have more, a bound over these times alone is tried. None is returned
    /// if the search does not cut finely enough for the span, or if its halves may serve better.
    pub(crate) fn still_span_by_margin(
        &self,
        search: &EventSearch,
        rows: &mut RangeRows,
        margin: Margin,
        spare: u64,
        a: i64,
        b: i64,
    ) -> Option<StillSpan>
        requires bounded { IsBoundedOver search.now self.now a b }
        requires margin { HasMargin search.now a b (margin_of margin) }
        requires sign { sign_at search.now a ≡ side margin }
        ensures { IfSome result (λ still. IsStillOver search.now a b still) }
    {
        let widest = self.widest_clear_width(search, margin, a, b);
        if has_few_leaves(a, b, widest, spare) {
            return useful_span(search, a, b, widest, side_sign(margin));
        }
        let own = SpanBound::bound_between(search, rows, a, b);
        let wider = own.widest_clear_width(search, margin, a, b);
        let share = leaf_share(search, a, b);
        if MIN_HALVED_SHARE <= share && !has_few_leaves(a, b, wider, share) {
            return None;
        }
        useful_span(search, a, b, wider, side_sign(margin))
    }
}

// Tells whether the span from `a` to `b`, cut into nodes of `widest` ticks, has at most `spare` leaves, or at most 64.
fn has_few_leaves(a: i64, b: i64, widest: u64, spare: u64) -> bool {
    a.abs_diff(b) <= widest.saturating_mul(spare.max(FEW_LEAVES))
}

/// Returns the sign of the numbers on the side of 0 on which a margin is: `Yes` above 0, `No` below.
pub(crate) fn side_sign(margin: Margin) -> Sign
    ensures { result ≡ side margin }
{
    if margin.is_above { Sign::Yes } else { Sign::No }
}

// Returns the still span from `a` to `b`, in which nodes of up to `widest` ticks are clear. None is returned if the
// search stops splitting above that width, or if a node of the whole span needs more than 12 halvings to come down to
// it.
fn useful_span(search: &EventSearch, a: i64, b: i64, widest: u64, sign: Sign) -> Option<StillSpan>
    requires still { (k : ℕ) → IsStill search.now (still a b widest k sign) }
    ensures { IfSome result (λ still. IsStillOver search.now a b still) }
{
    if widest < search.width() {
        return None;
    }
    match halving_count(a.abs_diff(b), widest) {
        Some(halvings) => Some(StillSpan {
            from: a,
            upto: b,
            widest,
            halvings,
            sign,
        }),
        None => None,
    }
}
