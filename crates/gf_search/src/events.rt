// The event of a query whose search is stopped by a fault of it.
ghost use Rattle.std.specs.Prelude.{◌≡◌, ℕ, IfErr, IfOk, None, OnOk, true};
ghost use Rattle.spec_kinds.specs.Faults.{fault_of};
ghost use Rattle.spec_kinds.specs.Kinds.{event_of};
ghost use Rattle.spec_outcomes.specs.Outcomes.{Stops};
ghost use Rattle.spec_outcomes.specs.Queries.{IsQuery, is_within};

use eph_model::Ephemeris;
use event_kinds::Event;
use gf_query::event_of;
use spec_outcomes::{Query, Refusal, Span};
use std::alloc::Global;

/// Returns the event that a query asks for, which has no fault over the ephemeris. The error is the one that a search of
/// a span stops at: the fault, or out of memory.
pub(crate) fn sound_event(
    alloc: Global,
    ephemeris: &Ephemeris,
    query: &Query,
    span: Span,
) -> Result<Event, Refusal>
    requires query { IsQuery query.now }
    requires within { is_within span ephemeris.now ≡ true }
    ensures event { IfOk result (λ event. event ≡ event_of query.now.ask) }
    ensures sound { OnOk result (fault_of ephemeris.now query.now.ask ≡ None) }
    ensures stopped { (most : ℕ) → IfErr result (λ refusal.
        Stops most query.now ephemeris.now span refusal) }
{
    match event_of(alloc, ephemeris, query) {
        Ok(event) => Ok(event),
        Err(refusal) => Err(refusal),
    }
}
