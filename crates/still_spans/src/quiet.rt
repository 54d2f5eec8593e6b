// Granules over which the bound of the function of a search has one sign.
ghost use Rattle.std.specs.Prelude.{◌<ℤ◌, ℕ, IfSome};
ghost use Rattle.spec_bodies.specs.Views.{Fits};
ghost use Rattle.spec_bounds.specs.Terms.{bound_over};
ghost use Rattle.spec_stills.specs.Still.{IsStill};
ghost use Rattle.event_bounds.specs.Made.{IsBound};
ghost use Rattle.still_spans.specs.Found.{IsStillOver, still};

use event_bounds::Bound;
use event_judge::EventSearch;
use ival_core::Sign;
use spec_bounds::laws::quiet_spans_are_clear;
use spec_stills::StillSpan;

/// Returns the still span from `a` to `b` if the bound of the function over these times has one sign. None is
/// returned if the bound holds numbers on both sides of 0.
pub(crate) fn quiet_span(search: &EventSearch, bound: &Bound, a: i64, b: i64) -> Option<StillSpan>
    requires fits { Fits search.now.view a b }
    requires several { a <ℤ b }
    requires bound { IsBound bound.now (bound_over search.now.view search.now.event.function a b) }
    ensures { IfSome result (λ still. IsStillOver search.now a b still) }
{
    quiet_spans_are_clear();
    search.is_search();
    match bound.range.sign() {
        Sign::Yes => Some(span_for_any_width(search, a, b, Sign::Yes)),
        Sign::No => Some(span_for_any_width(search, a, b, Sign::No)),
        Sign::Open => None,
    }
}

// Returns the still span from `a` to `b` with a sign, in which a node of any width is clear: `widest` is the whole
// span, and no node is halved.
fn span_for_any_width(search: &EventSearch, a: i64, b: i64, sign: Sign) -> StillSpan
    requires still { (widest : ℕ) → IsStill search.now (still a b widest 0 sign) }
    ensures { IsStillOver search.now a b result }
{
    StillSpan {
        from: a,
        upto: b,
        widest: a.abs_diff(b),
        halvings: 0,
        sign,
    }
}
