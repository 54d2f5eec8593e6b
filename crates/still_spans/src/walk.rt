// The still spans of a search over a span of times, one granule after the other.
ghost use Rattle.std.specs.Prelude.{◌≤ℤ◌, ◌<ℤ◌, ℤ, All, IfOk, OnOk};
ghost use Rattle.spec_ephemeris.specs.Ephemeris.{end_of};
ghost use Rattle.spec_bodies.specs.Views.{Fits};
ghost use Rattle.spec_bounds.specs.Terms.{bound_over};
ghost use Rattle.event_bounds.specs.Made.{IsBound};
ghost use Rattle.spec_stills.specs.Still.{IsStill};
ghost use Rattle.still_spans.specs.Found.{AreFound, AreInOrder};

use crate::budget::LeafBudget;
use crate::granules::{has_no_border_between, last_time_in_granules};
use crate::halves::{DEEPEST, MAX_TRIES, Walk};
use crate::knowledge::Knowledge;
use crate::quiet::quiet_span;
use crate::sign_halves::MAX_SIGN_TRIES;
use crate::span_bound::{SpanBound, function_bound_between};
use event_bounds::{Bound, RangeRows};
use event_judge::EventSearch;
use event_models::ModelRooms;
use spec_stills::StillSpan;
use std::alloc::{AllocError, Global};

impl Walk {
    // Adds the still spans from `a` to `b`, if these times lie in one granule of each column in use. It is one span
    // if the bound of the function has one sign, and else what a model of the function shows. The only error is out
    // of memory.
    fn add_spans_of_granule(
        &mut self,
        search: &EventSearch,
        a: i64,
        b: i64,
    ) -> Result<(), AllocError>
        requires from { search.now.view.ephemeris.start ≤ℤ a }
        requires ordered { a ≤ℤ b }
        requires upto { b ≤ℤ end_of search.now.view.ephemeris }
        ensures { (from : ℤ) → AreFound search.now from self.old.found.items a
            → OnOk result (AreFound search.now from self.new.found.items b) }
    {
        if a == b || !has_no_border_between(search, a, b) {
            return Ok(());
        }
        let bound = function_bound_between(search, &mut self.rows, a, b);
        match quiet_span(search, &bound, a, b) {
            Some(still) => self.add_span(search, a, b, still),
            None => self.add_spans_by_model(search, bound, a, b),
        }
    }

    // Adds the still spans from `a` to `b` that a model of the function and its bound show. Nothing is added if the
    // function has no model there. The only error is out of memory.
    fn add_spans_by_model(
        &mut self,
        search: &EventSearch,
        bound: Bound,
        a: i64,
        b: i64,
    ) -> Result<(), AllocError>
        requires fits { Fits search.now.view a b }
        requires several { a <ℤ b }
        requires bound { IsBound bound (bound_over search.now.view search.now.event.function a b) }
        ensures { (from : ℤ) → AreFound search.now from self.old.found.items a
            → OnOk result (AreFound search.now from self.new.found.items b) }
    {
        let over = SpanBound::new(search, bound, a, b);
        match Knowledge::over(search, &mut self.rooms, a, b) {
            Some(Knowledge::Values(known)) => {
                self.tries = MAX_TRIES;
                self.add_spans_within(search, &known, &over, a, b, DEEPEST)
            }
            Some(Knowledge::Signs(known)) => {
                self.tries = MAX_SIGN_TRIES;
                self.add_spans_by_signs(search, &known, &over, a, b, DEEPEST)
            }
            None => Ok(()),
        }
    }
}

// Returns the last time of the granules in which `here` lies, or `upto` if that is earlier.
fn granule_end(search: &EventSearch, here: i64, upto: i64) -> i64
    requires from { search.now.view.ephemeris.start ≤ℤ here }
    requires several { here <ℤ upto }
    requires upto { upto ≤ℤ end_of search.now.view.ephemeris }
    ensures from { here ≤ℤ result }
    ensures upto { result ≤ℤ upto }
{
    last_time_in_granules(search, here).max(here).min(upto)
}

// Returns the still spans between two times of the ephemeris, in order, found granule by granule. The only error is
// out of memory.
fn still_spans_between(
    alloc: Global,
    search: &EventSearch,
    from: i64,
    upto: i64,
) -> Result<Vec<StillSpan>, AllocError>
    requires from { search.now.view.ephemeris.start ≤ℤ from }
    requires upto { upto ≤ℤ end_of search.now.view.ephemeris }
    ensures still { IfOk result (λ found. All (IsStill search.now) found.items) }
    ensures follow { IfOk result (λ found. AreInOrder from found.items) }
{
    search.is_search();
    let mut walk = Walk {
        found: Vec::new(alloc),
        tries: 0,
        rows: RangeRows::new(),
        rooms: ModelRooms::new(),
        budget: LeafBudget::new(from),
    };
    let mut here = from;
    while here < upto {
        let end = granule_end(search, here, upto);
        walk.add_spans_of_granule(search, here, end)?;
        here = end + 1;
    }
    Ok(walk.found)
}

/// Returns the still spans of a search from one time to another that bounds and models of its function show, in order
/// of time. Each begins where the one before it ends, or later. Times outside the ephemeris are left out. The only
/// error is out of memory.
pub fn still_spans(
    alloc: Global,
    search: &EventSearch,
    from: i64,
    upto: i64,
) -> Result<Vec<StillSpan>, AllocError>
    ensures still { IfOk result (λ found. All (IsStill search.now) found.items) }
    ensures follow { IfOk result (λ found. AreInOrder from found.items) }
{
    let ephemeris = search.ephemeris();
    let (first, last) = (from.max(ephemeris.start()), upto.min(ephemeris.end()));
    still_spans_between(alloc, search, first, last)
}
