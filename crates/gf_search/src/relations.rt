// The times at which a function has a relation to its references.
ghost use Rattle.std.specs.Prelude.{◌≡◌, ◌<◌, ◌≤◌, IfErr, IfOk, true};
ghost use Rattle.spec_requests.specs.declared.limits.TheConstants.{MAX_WORKERS};
ghost use Rattle.spec_output.specs.declared.limits.TheConstants.{MAX_LEAVES};
ghost use Rattle.spec_outcomes.specs.Queries.{is_within};
ghost use Rattle.spec_outcomes.specs.Sets.{AreSetsFound, IsSetQuery, SetStops, other_query};
ghost use Rattle.gf_search.specs.declared.wanted.Wanted.TheVariants.{Signs};
ghost use Rattle.gf_search.specs.Walks.{IsSearched};

use crate::alone::found_alone;
use crate::by_crew::found_by_crew;
use crate::combined::times_in_relation;
use crate::crew::Crew;
use crate::found::Found;
use crate::references::reference_times;
use crate::span_task::SpanTask;
use crate::wanted::Wanted;
use eph_model::Ephemeris;
use gf_edges::Gate;
use gf_sets::Pair;
use spec_outcomes::{Query, Refusal, Span};
use spec_output::MAX_LEAVES;
use spec_requests::Relation;
use spec_text::Decimal;
use std::alloc::Global;
use std::sync::Wait;
use std::thread::Threads;

// Returns the times of a task's span at which the function of a query has a relation to its references, by what a
// search for the events of a query finds. The header and the lists that are not used are taken for what their calls
// ensure.
fn related_times<F: Fn(&Query) -> Result<Found, Refusal>>(
    find: &F,
    task: &SpanTask,
    query: &Query,
    ref2: Option<Decimal>,
    relation: Relation,
) -> Result<Pair, Refusal>
    requires callable { (query : _) → IsSetQuery query.now → F.pre find.now query }
    requires finds { (query r : _) → F.post find.now query r
        → IsSearched Signs MAX_LEAVES query.now task.now.ephemeris.now task.now.span r }
    requires query { IsSetQuery query.now }
    ensures found { IfOk result (λ pair.
        AreSetsFound relation query.now (other_query query.now ref2)
        task.now.ephemeris.now task.now.span pair.sure pair.maybe) }
    ensures stopped { IfErr result (λ refusal. SetStops relation query.now
        (other_query query.now ref2) task.now.ephemeris.now task.now.span refusal) }
{
    let _header = task.ephemeris.header();
    let both = reference_times(find, task, query, ref2)?;
    let pair = times_in_relation(task.alloc, relation, both, task.span)?;
    let _sure = pair.sure.list();
    let _maybe = pair.maybe.list();
    Ok(pair)
}

/// Returns the times of a span at which the function of a query has a relation to its references: those that are sure
/// to have it, and those that may. From 1 to 64 workers search for them. The query wants all turns, of a kind that
/// has sets, and its number is the first reference. If there is no second reference, the first stands for it. Times
/// are in the ticks of the ephemeris since J2000 in TDB. Errors: the fault of the event, about the first reference
/// and then about the second; `TooManyLeaves` if the search about one of them has more than may be; `Memory`.
pub fn related<R: Threads + Wait + Sync, G: Gate>(
    rt: &R,
    alloc: Global,
    ephemeris: &Ephemeris,
    query: &Query,
    ref2: Option<Decimal>,
    relation: Relation,
    span: Span,
    workers: u32,
    gate: &G,
) -> Result<Pair, Refusal>
    requires some { 1 ≤ workers }
    requires workers { workers ≤ MAX_WORKERS }
    requires block { 0 < ephemeris.now.blocks }
    requires query { IsSetQuery query.now }
    requires within { is_within span ephemeris.now ≡ true }
    ensures found { IfOk result (λ pair.
        AreSetsFound relation query.now (other_query query.now ref2)
        ephemeris.now span pair.sure pair.maybe) }
    ensures stopped { IfErr result (λ refusal.
        SetStops relation query.now (other_query query.now ref2) ephemeris.now span refusal) }
{
    let crew = Crew {
        runtime: rt,
        alloc,
        workers,
        max_leaves: MAX_LEAVES,
        gate,
    };
    let task = SpanTask {
        alloc,
        ephemeris,
        span,
    };
    let find = |query: &Query| -> Result<Found, Refusal>
        requires block { 0 < task.ephemeris.now.blocks }
        requires query { IsSetQuery query.now }
        requires within { is_within task.span task.ephemeris.now ≡ true }
        ensures { IsSearched Signs crew.entry.max_leaves query.now
            task.entry.ephemeris.now task.entry.span result }
    { found_by_crew(&crew, Wanted::Signs, task.ephemeris, query, task.span) };
    related_times(&find, &task, query, ref2, relation)
}

/// Returns the times that `related` returns, found in the calling thread: nothing waits, and no gate is passed. Errors
/// are those of `related`.
pub fn related_alone(
    alloc: Global,
    ephemeris: &Ephemeris,
    query: &Query,
    ref2: Option<Decimal>,
    relation: Relation,
    span: Span,
) -> Result<Pair, Refusal>
    requires block { 0 < ephemeris.now.blocks }
    requires query { IsSetQuery query.now }
    requires within { is_within span ephemeris.now ≡ true }
    ensures found { IfOk result (λ pair.
        AreSetsFound relation query.now (other_query query.now ref2)
        ephemeris.now span pair.sure pair.maybe) }
    ensures stopped { IfErr result (λ refusal.
        SetStops relation query.now (other_query query.now ref2) ephemeris.now span refusal) }
{
    let task = SpanTask {
        alloc,
        ephemeris,
        span,
    };
    let find = |query: &Query| -> Result<Found, Refusal>
        requires block { 0 < task.ephemeris.now.blocks }
        requires query { IsSetQuery query.now }
        requires within { is_within task.span task.ephemeris.now ≡ true }
        ensures { IsSearched Signs MAX_LEAVES query.now
            task.entry.ephemeris.now task.entry.span result }
    {
        found_alone(
            task.alloc,
            MAX_LEAVES,
            Wanted::Signs,
            task.ephemeris,
            query,
            task.span,
        )
    };
    related_times(&find, &task, query, ref2, relation)
}
