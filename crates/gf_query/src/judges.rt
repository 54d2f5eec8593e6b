// The event of a query, and the judge of its search of an ephemeris.
ghost use Rattle.std.specs.Prelude.{◌≡◌, ◌⊎◌, ◌<◌, IfErr, IfOk, None, OnOk};
ghost use Rattle.spec_kinds.specs.Faults.{fault_of};
ghost use Rattle.spec_kinds.specs.Kinds.{event_of};
ghost use Rattle.spec_kinds.specs.Searches.{view_of_ask};
ghost use Rattle.spec_outcomes.specs.Outcomes.{HasFault};
ghost use Rattle.spec_outcomes.specs.Queries.{IsQuery, search};

use body_states::BodyStates;
use eph_model::Ephemeris;
use event_judge::EventJudge;
use event_kinds::{Event, event};
use gf_hooks::Cutter;
use spec_outcomes::{Query, Refusal};
use std::alloc::Global;

/// Returns the positions and velocities that the two bodies of a query have in an ephemeris, which counts the query's
/// ticks, as the observer sees them. A query of one body has it twice.
pub fn states<'e>(ephemeris: &'e Ephemeris, query: &Query) -> BodyStates<'e>
    requires block { 0 < ephemeris.now.blocks }
    requires query { IsQuery query.now }
    requires sound { fault_of ephemeris.now query.now.ask ≡ None }
    ensures { result ≡ view_of_ask ephemeris.now query.now.ask }
{
    let ask = query.ask;
    let second = ask.second.unwrap_or(ask.target);
    BodyStates::new(ephemeris, [ask.target, second], ask.observer, ask.frame)
}

/// Returns the judge of a query's search of an ephemeris, which counts the query's ticks. The event is that of the
/// query, which has no fault. The cutter cuts nodes by the query's rule: it holds a closure, so whoever searches or
/// checks makes it.
pub fn judge<'e>(
    ephemeris: &'e Ephemeris,
    query: &Query,
    event: Event,
    cutter: Cutter,
) -> EventJudge<'e>
    requires block { 0 < ephemeris.now.blocks }
    requires query { IsQuery query.now }
    requires sound { fault_of ephemeris.now query.now.ask ≡ None }
    requires event { event ≡ event_of query.now.ask }
    requires rule { cutter.rule ≡ query.now.cut }
    ensures { result.search ≡ search query.now ephemeris.now }
{
    let states = states(ephemeris, query);
    EventJudge::new(states, ephemeris, event, query.width, query.depth, cutter)
}

/// Returns the event that a query asks for, as formulas. The error is the first fault of the query over the ephemeris,
/// or out of memory.
pub fn event_of(alloc: Global, ephemeris: &Ephemeris, query: &Query) -> Result<Event, Refusal>
    requires { IsQuery query.now }
    ensures event { IfOk result (λ event. event ≡ event_of query.now.ask) }
    ensures sound { OnOk result (fault_of ephemeris.now query.now.ask ≡ None) }
    ensures refused { IfErr result (λ refusal. (refusal ≡ Refusal.Memory)
        ⊎ HasFault ephemeris.now query.now.ask refusal) }
{
    match event(alloc, ephemeris, &query.ask) {
        Ok(event) => Ok(event),
        Err(error) => Err(Refusal::of_fault(error.event_fault())),
    }
}
