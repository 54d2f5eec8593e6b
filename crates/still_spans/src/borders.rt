// Units at borders: from the last time of one granule to the first of the next.
ghost use Rattle.std.specs.Prelude.{◌≡◌, ◌≤ℤ◌, ◌+ℤ◌, pos, true, IfSome, IsTrue};
ghost use Rattle.spec_events.specs.Verdict.{is_known};
ghost use Rattle.spec_stills.specs.Still.{IsStill};
ghost use Rattle.still_spans.specs.Found.{IsStillOver, still};

use event_judge::EventSearch;
use ival_core::Sign;
use spec_stills::StillSpan;
use spec_stills::still_laws::units_of_one_sign_are_still;

// Tells whether a sign is known: `Yes` or `No`, but not `Open`.
fn is_known(sign: Sign) -> bool
    ensures { result ≡ is_known sign }
{
    match sign {
        Sign::Yes | Sign::No => true,
        Sign::Open => false,
    }
}

// Tells whether `after` is the tick that follows `before`.
fn is_next_tick(before: i64, after: i64) -> bool
    ensures { IsTrue result → after ≡ before +ℤ pos 1 }
{
    before < after && before.abs_diff(after) == 1
}

// Tells whether a still span begins one tick after another ends, and both have the same known sign. Then the tick
// between them is still too.
fn are_one_tick_apart(before: StillSpan, after: StillSpan) -> bool
    ensures next { IsTrue result → after.from ≡ before.upto +ℤ pos 1 }
    ensures same { IsTrue result → before.sign ≡ after.sign }
    ensures known { IsTrue result → is_known after.sign ≡ true }
{
    is_next_tick(before.upto, after.from) && before.sign == after.sign && is_known(after.sign)
}

// Returns a still span from `from` to `upto` with a sign, for nodes no wider than the width at which the search stops
// splitting. They are not halved.
fn one_tick_span(search: &EventSearch, from: i64, upto: i64, sign: Sign) -> StillSpan
    ensures { result ≡ still from upto search.now.width 0 sign }
{
    StillSpan {
        from,
        upto,
        widest: search.width(),
        halvings: 0,
        sign,
    }
}

/// Returns the still span from the end of one still span to the start of the next, one tick later. None is returned
/// if they are not one tick apart, or if their signs differ or are not known.
pub(crate) fn one_tick_span_between(
    search: &EventSearch,
    before: StillSpan,
    after: StillSpan,
) -> Option<StillSpan>
    requires after { IsStill search.now after }
    requires ordered { after.from ≤ℤ after.upto }
    ensures next { IfSome result (λ unit. after.from ≡ before.upto +ℤ pos 1) }
    ensures still { IfSome result (λ unit. IsStill search.now before
        → before.from ≤ℤ before.upto → IsStillOver search.now before.upto after.from unit) }
{
    units_of_one_sign_are_still();
    search.is_search();
    if are_one_tick_apart(before, after) {
        Some(one_tick_span(search, before.upto, after.from, after.sign))
    } else {
        None
    }
}
