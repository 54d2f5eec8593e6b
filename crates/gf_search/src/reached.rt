// The times at which the function of a query is at least 0, which is to say at least the reference.
ghost use Rattle.std.specs.Prelude.{◌≡◌, ◌<◌, ℤ, ◌≤ℤ◌, All, IfErr, IfOk, None, true};
ghost use Rattle.spec_kinds.specs.Faults.{fault_of};
ghost use Rattle.spec_kinds.specs.Kinds.{event_of};
ghost use Rattle.spec_trees.specs.Tree.{Covers};
ghost use Rattle.spec_sets.specs.Pairs.{AreOf};
ghost use Rattle.spec_stills.specs.Still.{IsStill};
ghost use Rattle.spec_output.specs.declared.limits.TheConstants.{MAX_LEAVES};
ghost use Rattle.spec_outcomes.specs.Outcomes.{Stops};
ghost use Rattle.spec_outcomes.specs.Queries.{is_within, search};
ghost use Rattle.spec_outcomes.specs.Sets.{IsSetQuery, signs_by, signs_in};
ghost use Rattle.gf_search.specs.declared.wanted.Wanted.TheVariants.{Signs};
ghost use Rattle.gf_search.specs.Reached.{AreReached, HasTooMany};
ghost use Rattle.gf_search.specs.Walks.{IsSearched};
ghost use Rattle.gf_search.specs.Wanted.{IsWanted};

use crate::found::Found;
use crate::span_task::SpanTask;
use crate::still_signs::StillSigns;
use eph_model::Ephemeris;
use event_kinds::Event;
use gf_query::states;
use gf_sets::{Pair, times_at_least};
use spec_outcomes::{Query, Refusal, Span};
use std::alloc::{AllocError, Global};

// Returns the times of a span at which the function of a query is at least 0, from leaves that show the signs of the
// search for the query's event, and the search's still spans. The header is read for what the call ensures. The only
// error is out of memory.
fn times_reached_by_leaves(
    alloc: Global,
    ephemeris: &Ephemeris,
    query: &Query,
    event: &Event,
    span: Span,
    found: &Found,
) -> Result<Pair, AllocError>
    requires block { 0 < ephemeris.now.blocks }
    requires query { IsSetQuery query.now }
    requires within { is_within span ephemeris.now ≡ true }
    requires sound { fault_of ephemeris.now query.now.ask ≡ None }
    requires event { event.now ≡ event_of query.now.ask }
    requires follow { Covers span.from found.now.leaves.items span.upto }
    requires still { All (IsStill (search query.now ephemeris.now)) found.now.stills }
    requires signs { (t : ℤ) → t ≤ℤ span.upto
        → signs_by (search query.now ephemeris.now) span found.now.leaves.items t
        ≡ signs_in (search query.now ephemeris.now) span t }
    ensures { IfOk result (λ pair. AreOf (signs_in (search query.now ephemeris.now) span)
        span.from span.upto pair.sure pair.maybe) }
{
    let _header = ephemeris.header();
    let states = states(ephemeris, query);
    let signs = StillSigns {
        formula: event.function(),
        states: &states,
        stills: &found.stills,
    };
    times_at_least(alloc, &signs, span.from, &found.leaves)
}

// Returns what a search of a task's span for the events of a query finds: leaves that show its signs, and its still
// spans. Errors: the fault of the event; `TooManyLeaves` if the search has more than may be found; `Memory`.
fn found_with_signs<F: Fn(&Query) -> Result<Found, Refusal>>(
    find: &F,
    task: &SpanTask,
    query: &Query,
) -> Result<Found, Refusal>
    requires callable { (query : _) → IsSetQuery query.now → F.pre find.now query }
    requires finds { (query r : _) → F.post find.now query r
        → IsSearched Signs MAX_LEAVES query.now task.now.ephemeris.now task.now.span r }
    requires query { IsSetQuery query.now }
    ensures found { IfOk result (λ found. IsWanted Signs MAX_LEAVES query.now
        task.now.ephemeris.now task.now.span found.leaves.items) }
    ensures still { IfOk result (λ found.
        All (IsStill (search query.now task.now.ephemeris.now)) found.stills) }
    ensures stopped { IfErr result (λ refusal.
        Stops MAX_LEAVES query.now task.now.ephemeris.now task.now.span refusal) }
{
    find(query)
}

/// Searches a task's span for the query's event, which has no fault, and returns the times at which the query's
/// function is at least 0: the sure times and the possible ones. Errors: `TooManyLeaves` if the search has more than
/// may be found, or `Memory`.
pub(crate) fn reached_times<F: Fn(&Query) -> Result<Found, Refusal>>(
    find: &F,
    task: &SpanTask,
    query: &Query,
    event: &Event,
) -> Result<Pair, Refusal>
    requires callable { (query : _) → IsSetQuery query.now → F.pre find.now query }
    requires finds { (query r : _) → F.post find.now query r
        → IsSearched Signs MAX_LEAVES query.now task.now.ephemeris.now task.now.span r }
    requires query { IsSetQuery query.now }
    requires sound { fault_of task.now.ephemeris.now query.now.ask ≡ None }
    requires event { event.now ≡ event_of query.now.ask }
    ensures reached { IfOk result (λ pair.
        AreReached (search query.now task.now.ephemeris.now) task.now.span pair.sure pair.maybe) }
    ensures stopped { IfErr result (λ refusal.
        HasTooMany (search query.now task.now.ephemeris.now) task.now.span refusal) }
{
    let found = found_with_signs(find, task, query)?;
    let pair = times_reached_by_leaves(
        task.alloc,
        task.ephemeris,
        query,
        event,
        task.span,
        &found,
    )?;
    Ok(pair)
}
