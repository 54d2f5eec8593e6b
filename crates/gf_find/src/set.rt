// The command `set`: the report of the times at which a function has a relation to its references.
ghost use Rattle.std.specs.Prelude.{All, ◌≡◌, ◌⊎◌, ◌<◌, Err, IfErr, IfOk, true};
ghost use Rattle.spec_ephemeris.specs.Ephemeris.{end_of};
ghost use Rattle.spec_ephemeris.specs.Ticks.{IsTick};
ghost use Rattle.spec_requests.specs.Limits.{IsSetWithinLimits};
ghost use Rattle.spec_times.specs.Ticks.{IsTimeIn};
ghost use Rattle.spec_output.specs.Report.{AreTimesIn, set_report};
ghost use Rattle.spec_outcomes.specs.Queries.{is_within, span_of};
ghost use Rattle.spec_outcomes.specs.Sets.{counted_set, set_of};
ghost use Rattle.gf_find.specs.Outcomes.{FilesHaveOutcome, HoldEphemeris};
ghost use Rattle.gf_find.specs.Reported.{AreNotOpened};
ghost use Rattle.gf_find.specs.Searchers.{ReturnsTimes, TakesRelations};
ghost use Rattle.gf_find.specs.Sets.{IsCountedSet, IsSetReport};

use crate::files::ephemeris_of_files;
use eph_model::Ephemeris;
use gf_edges::Shelf;
use gf_query::span_asked;
use gf_sets::Pair;
use spec_outcomes::{Query, Refusal, Span, query_of};
use spec_requests::{FindAsk, Relation};
use spec_text::Decimal;
use std::alloc::Global;
use window_text::set_report;

// Returns the report of the spans in which a relation surely holds, and of those in which it perhaps holds, over the
// span that was searched. Times are in the ticks of the search since J2000 in TDB. The only error is out of memory.
fn report_of_sets(
    alloc: Global,
    find: &FindAsk,
    relation: Relation,
    span: Span,
    sets: &Pair,
) -> Result<Vec<u8>, Refusal>
    requires tick { IsTick find.now.tick }
    requires from { IsTimeIn find.now.tick span.from }
    requires upto { IsTimeIn find.now.tick span.upto }
    requires sure { All (AreTimesIn find.now.tick) sets.now.sure }
    requires possible { All (AreTimesIn find.now.tick) sets.now.maybe }
    ensures text { IfOk result (λ text. text.items
        ≡ set_report find.now relation span.from span.upto sets.now.sure sets.now.maybe) }
    ensures memory { IfErr result (λ refusal. refusal ≡ Refusal.Memory) }
{
    let (sure, possible) = (sets.sure.list(), sets.maybe.list());
    let text = set_report(alloc, find, relation, span.from, span.upto, sure, possible)?;
    Ok(text)
}

// Searches a span of an ephemeris, which counts the ticks of the search, for the times at which a function has a
// relation to its references. Returns the report of the sure and the possible times, or why there is none.
fn set_report_of_span<
    T: Fn(u32, &Ephemeris, &Query, Option<Decimal>, Relation, Span) -> Result<Pair, Refusal>,
>(
    alloc: Global,
    ephemeris: &Ephemeris,
    find: &FindAsk,
    ref2: Option<Decimal>,
    relation: Relation,
    span: Span,
    related: &T,
) -> Result<Vec<u8>, Refusal>
    requires block { 0 < ephemeris.now.blocks }
    requires start { IsTimeIn find.now.tick ephemeris.now.start }
    requires end { IsTimeIn find.now.tick (end_of ephemeris.now) }
    requires limits { IsSetWithinLimits find.now ref2 relation }
    requires span { span ≡ span_of find.now ephemeris.now }
    requires within { is_within span ephemeris.now ≡ true }
    requires takes_relations { TakesRelations (T.pre related.now) }
    requires returns_times { ReturnsTimes (T.post related.now) }
    ensures report { IfOk result (λ text.
        IsCountedSet find.now ref2 relation text.items ephemeris.now) }
    ensures stopped { IfErr result (λ refusal. (refusal ≡ Refusal.Memory)
        ⊎ (counted_set find.now ref2 relation ephemeris.now ≡ Err refusal)) }
{
    let query = query_of(find);
    let workers = find.workers;
    match related(workers, ephemeris, &query, ref2, relation, span) {
        Ok(sets) => report_of_sets(alloc, find, relation, span, &sets),
        Err(refusal) => Err(refusal),
    }
}

// Searches an ephemeris, which counts the ticks of the search, for the times at which a function has a relation to its
// references, over the span that is asked for. Returns their report, or why there is none. A span that is not within
// the ephemeris is refused.
fn set_report_of_ephemeris<
    T: Fn(u32, &Ephemeris, &Query, Option<Decimal>, Relation, Span) -> Result<Pair, Refusal>,
>(
    alloc: Global,
    ephemeris: &Ephemeris,
    find: &FindAsk,
    ref2: Option<Decimal>,
    relation: Relation,
    related: &T,
) -> Result<Vec<u8>, Refusal>
    requires block { 0 < ephemeris.now.blocks }
    requires start { IsTimeIn find.now.tick ephemeris.now.start }
    requires end { IsTimeIn find.now.tick (end_of ephemeris.now) }
    requires limits { IsSetWithinLimits find.now ref2 relation }
    requires takes_relations { TakesRelations (T.pre related.now) }
    requires returns_times { ReturnsTimes (T.post related.now) }
    ensures report { IfOk result (λ text.
        IsCountedSet find.now ref2 relation text.items ephemeris.now) }
    ensures stopped { IfErr result (λ refusal. (refusal ≡ Refusal.Memory)
        ⊎ (counted_set find.now ref2 relation ephemeris.now ≡ Err refusal)) }
{
    match span_asked(find, ephemeris) {
        Ok(span) => set_report_of_span(alloc, ephemeris, find, ref2, relation, span, related),
        Err(refusal) => Err(refusal),
    }
}

/// Searches the ephemeris in the files of a request for the times at which a function has a relation to its references.
/// Returns the report of the sure and the possible times, or why there is none.
pub(crate) fn set_report_of_files<
    S: Shelf,
    T: Fn(u32, &Ephemeris, &Query, Option<Decimal>, Relation, Span) -> Result<Pair, Refusal>,
>(
    alloc: Global,
    shelf: &mut S,
    find: &FindAsk,
    ref2: Option<Decimal>,
    relation: Relation,
    related: &T,
) -> Result<Vec<u8>, Refusal>
    requires limits { IsSetWithinLimits find.now ref2 relation }
    requires takes_relations { TakesRelations (T.pre related.now) }
    requires returns_times { ReturnsTimes (T.post related.now) }
    ensures report { IfOk result (λ text. HoldEphemeris (S.files shelf.old) find.now.files
        (IsSetReport find.now ref2 relation text.items)) }
    ensures stopped { IfErr result (λ refusal. (refusal ≡ Refusal.Memory)
        ⊎ FilesHaveOutcome (S.files shelf.old) find.now.files (S.faults shelf.old) (S.faults shelf.new)
        (set_of find.now ref2 relation) (Err refusal)) }
    ensures unopened { AreNotOpened find.now.files → shelf.new ≡ shelf.old }
{
    let ephemeris = ephemeris_of_files(alloc, shelf, find.files.as_slice())?;
    let counted = ephemeris.in_ticks(find.tick);
    set_report_of_ephemeris(alloc, &counted, find, ref2, relation, related)
}
