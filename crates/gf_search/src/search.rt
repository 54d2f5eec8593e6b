// The search of an ephemeris for the events of a query.
ghost use Rattle.std.specs.Prelude.{◌≡◌, ◌<◌, IfErr, IfOk, true};
ghost use Rattle.spec_outcomes.specs.Outcomes.{Stops};
ghost use Rattle.spec_outcomes.specs.Queries.{IsQuery, is_within};
ghost use Rattle.gf_search.specs.Wanted.{IsWanted};

use crate::alone::found_alone;
use crate::by_crew::found_by_crew;
use crate::crew::Crew;
use crate::wanted::Wanted;
use eph_model::Ephemeris;
use gf_edges::Gate;
use spec_outcomes::{Query, Refusal, Span};
use spec_trees::Leaf;
use std::alloc::Global;
use std::sync::Wait;
use std::thread::Threads;

/// Searches a span of an ephemeris for the events of a query by the workers of a crew, and returns the leaves that
/// are wanted (`Wanted`). They follow one another over the span in order of time. Times are in the ticks of the
/// ephemeris since J2000 in TDB. Errors: the fault of the event; `TooManyLeaves` if the search has more leaves than
/// the crew may find; `Memory`.
pub fn leaves<R: Threads + Wait + Sync, G: Gate>(
    crew: &Crew<R, G>,
    wanted: Wanted,
    ephemeris: &Ephemeris,
    query: &Query,
    span: Span,
) -> Result<Vec<Leaf>, Refusal>
    requires block { 0 < ephemeris.now.blocks }
    requires query { IsQuery query.now }
    requires within { is_within span ephemeris.now ≡ true }
    ensures found { IfOk result (λ found.
        IsWanted wanted crew.now.max_leaves query.now ephemeris.now span found.items) }
    ensures stopped { IfErr result (λ refusal.
        Stops crew.now.max_leaves query.now ephemeris.now span refusal) }
{
    match found_by_crew(crew, wanted, ephemeris, query, span) {
        Ok(found) => Ok(found.leaves),
        Err(refusal) => Err(refusal),
    }
}

/// Searches a span of an ephemeris as `leaves` does, in the calling thread: nothing waits, and no gate is passed. Errors:
/// the fault of the event; `TooManyLeaves` if the search has more than `max_leaves`; `Memory`.
pub fn leaves_alone(
    alloc: Global,
    max_leaves: u32,
    wanted: Wanted,
    ephemeris: &Ephemeris,
    query: &Query,
    span: Span,
) -> Result<Vec<Leaf>, Refusal>
    requires block { 0 < ephemeris.now.blocks }
    requires query { IsQuery query.now }
    requires within { is_within span ephemeris.now ≡ true }
    ensures found { IfOk result (λ found.
        IsWanted wanted max_leaves query.now ephemeris.now span found.items) }
    ensures stopped { IfErr result (λ refusal.
        Stops max_leaves query.now ephemeris.now span refusal) }
{
    match found_alone(alloc, max_leaves, wanted, ephemeris, query, span) {
        Ok(found) => Ok(found.leaves),
        Err(refusal) => Err(refusal),
    }
}
