// The times at which a function is at least each of its references.
ghost use Rattle.std.specs.Prelude.{◌≡◌, IfErr, IfOk, None, OnOk, unwrap_or};
ghost use Rattle.spec_kinds.specs.Faults.{fault_of};
ghost use Rattle.spec_kinds.specs.Kinds.{event_of};
ghost use Rattle.spec_requests.specs.declared.request.Relation.{Relation};
ghost use Rattle.spec_output.specs.declared.limits.TheConstants.{MAX_LEAVES};
ghost use Rattle.spec_outcomes.specs.Queries.{search};
ghost use Rattle.spec_outcomes.specs.Sets.{IsSetQuery, SetStops, other_query, with_reference};
ghost use Rattle.gf_search.specs.declared.wanted.Wanted.TheVariants.{Signs};
ghost use Rattle.gf_search.specs.Reached.{AreReached};
ghost use Rattle.gf_search.specs.Walks.{IsSearched};

use crate::found::Found;
use crate::reached::reached_times;
use crate::span_task::SpanTask;
use event_kinds::Event;
use gf_query::event_of;
use gf_sets::Pair;
use spec_kinds::Ask;
use spec_outcomes::{Query, Refusal};
use spec_text::Decimal;

/// The times at which a function is at least its first reference, and the times at which it is at least its second
/// one, if there is one.
#[derive(Drop)]
pub(crate) struct ReferenceTimes {
    pub(crate) first: Pair,
    second: Option<Pair>,
}

impl ReferenceTimes {
    /// Returns the times at which the function is at least the second reference, or, if there is none, the first.
    pub(crate) fn second(&self) -> &Pair
        ensures { result.now ≡ unwrap_or self.now.second self.now.first }
    {
        match &self.second {
            Some(pair) => pair,
            None => &self.first,
        }
    }
}

// Returns the query with the number `ref2` in place of its reference.
fn with_reference(query: &Query, ref2: Decimal) -> Query
    ensures { result ≡ with_reference query.now ref2 }
{
    Query {
        ask: Ask {
            value1: ref2,
            ..query.ask
        },
        ..*query
    }
}

// Returns the times of a task's span at which a query's function is at least its one reference. Errors: the fault of
// the event, `TooManyLeaves`, or `Memory`.
fn times_of_one_reference<F: Fn(&Query) -> Result<Found, Refusal>>(
    find: &F,
    task: &SpanTask,
    query: &Query,
) -> Result<ReferenceTimes, Refusal>
    requires callable { (query : _) → IsSetQuery query.now → F.pre find.now query }
    requires finds { (query r : _) → F.post find.now query r
        → IsSearched Signs MAX_LEAVES query.now task.now.ephemeris.now task.now.span r }
    requires query { IsSetQuery query.now }
    ensures sound { OnOk result (fault_of task.now.ephemeris.now query.now.ask ≡ None) }
    ensures first { IfOk result (λ both. AreReached (search query.now task.now.ephemeris.now)
        task.now.span both.first.sure both.first.maybe) }
    ensures alone { IfOk result (λ both. both.second ≡ None) }
    ensures stopped { IfErr result (λ refusal. (relation : Relation)
        → SetStops relation query.now query.now task.now.ephemeris.now task.now.span refusal) }
{
    let event = event_of(task.alloc, task.ephemeris, query)?;
    let first = reached_times(find, task, query, &event)?;
    Ok(ReferenceTimes {
        first,
        second: None,
    })
}

// Searches for the events of two queries, which have no fault, and returns the times of a task's span at which the
// function of each is at least its reference. Errors: `TooManyLeaves` or `Memory`.
fn times_of_events<F: Fn(&Query) -> Result<Found, Refusal>>(
    find: &F,
    task: &SpanTask,
    query: &Query,
    event: &Event,
    other: &Query,
    others: &Event,
) -> Result<ReferenceTimes, Refusal>
    requires callable { (query : _) → IsSetQuery query.now → F.pre find.now query }
    requires finds { (query r : _) → F.post find.now query r
        → IsSearched Signs MAX_LEAVES query.now task.now.ephemeris.now task.now.span r }
    requires query { IsSetQuery query.now }
    requires sound { fault_of task.now.ephemeris.now query.now.ask ≡ None }
    requires event { event.now ≡ event_of query.now.ask }
    requires other { IsSetQuery other.now }
    requires other_sound { fault_of task.now.ephemeris.now other.now.ask ≡ None }
    requires others { others.now ≡ event_of other.now.ask }
    ensures first { IfOk result (λ both. AreReached (search query.now task.now.ephemeris.now)
        task.now.span both.first.sure both.first.maybe) }
    ensures second { IfOk result (λ both. AreReached (search other.now task.now.ephemeris.now)
        task.now.span
        (unwrap_or both.second both.first).sure (unwrap_or both.second both.first).maybe) }
    ensures stopped { IfErr result (λ refusal. (relation : Relation)
        → SetStops relation query.now other.now task.now.ephemeris.now task.now.span refusal) }
{
    let first = reached_times(find, task, query, event)?;
    let second = reached_times(find, task, other, others)?;
    Ok(ReferenceTimes {
        first,
        second: Some(second),
    })
}

// Returns the times of a task's span at which the function of each of two queries is at least its reference. A fault
// of either event is looked for before any search, in the first query before the second. Errors: the fault of an
// event, `TooManyLeaves`, or `Memory`.
fn times_of_two_references<F: Fn(&Query) -> Result<Found, Refusal>>(
    find: &F,
    task: &SpanTask,
    query: &Query,
    other: &Query,
) -> Result<ReferenceTimes, Refusal>
    requires callable { (query : _) → IsSetQuery query.now → F.pre find.now query }
    requires finds { (query r : _) → F.post find.now query r
        → IsSearched Signs MAX_LEAVES query.now task.now.ephemeris.now task.now.span r }
    requires query { IsSetQuery query.now }
    requires other { IsSetQuery other.now }
    ensures sound { OnOk result (fault_of task.now.ephemeris.now query.now.ask ≡ None) }
    ensures other_sound { OnOk result (fault_of task.now.ephemeris.now other.now.ask ≡ None) }
    ensures first { IfOk result (λ both. AreReached (search query.now task.now.ephemeris.now)
        task.now.span both.first.sure both.first.maybe) }
    ensures second { IfOk result (λ both. AreReached (search other.now task.now.ephemeris.now)
        task.now.span
        (unwrap_or both.second both.first).sure (unwrap_or both.second both.first).maybe) }
    ensures stopped { IfErr result (λ refusal. (relation : Relation)
        → SetStops relation query.now other.now task.now.ephemeris.now task.now.span refusal) }
{
    let event = event_of(task.alloc, task.ephemeris, query)?;
    let others = event_of(task.alloc, task.ephemeris, other)?;
    times_of_events(find, task, query, &event, other, &others)
}

/// Returns the times of a task's span at which a query's function is at least its reference, and, if there is a
/// second reference, those at which it is at least that. Errors: the fault of the event about one of them,
/// `TooManyLeaves`, or `Memory`.
pub(crate) fn reference_times<F: Fn(&Query) -> Result<Found, Refusal>>(
    find: &F,
    task: &SpanTask,
    query: &Query,
    ref2: Option<Decimal>,
) -> Result<ReferenceTimes, Refusal>
    requires callable { (query : _) → IsSetQuery query.now → F.pre find.now query }
    requires finds { (query r : _) → F.post find.now query r
        → IsSearched Signs MAX_LEAVES query.now task.now.ephemeris.now task.now.span r }
    requires query { IsSetQuery query.now }
    ensures sound { OnOk result (fault_of task.now.ephemeris.now query.now.ask ≡ None) }
    ensures other_sound { OnOk result
        (fault_of task.now.ephemeris.now (other_query query.now ref2).ask ≡ None) }
    ensures first { IfOk result (λ both. AreReached (search query.now task.now.ephemeris.now)
        task.now.span both.first.sure both.first.maybe) }
    ensures second { IfOk result (λ both.
        AreReached (search (other_query query.now ref2) task.now.ephemeris.now) task.now.span
        (unwrap_or both.second both.first).sure (unwrap_or both.second both.first).maybe) }
    ensures stopped { IfErr result (λ refusal. (relation : Relation)
        → SetStops relation query.now (other_query query.now ref2)
        task.now.ephemeris.now task.now.span refusal) }
{
    match ref2 {
        None => times_of_one_reference(find, task, query),
        Some(ref2) => {
            let other = with_reference(query, ref2);
            times_of_two_references(find, task, query, &other)
        }
    }
}
