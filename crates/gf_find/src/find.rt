// The command `find`: the report of the windows of the events that are asked for.
ghost use Rattle.std.specs.Prelude.{All, ◌≡◌, ◌⊎◌, Err, IfErr, IfOk};
ghost use Rattle.spec_ephemeris.specs.Ticks.{IsTick};
ghost use Rattle.spec_trees.specs.Tree.{Covers};
ghost use Rattle.spec_trees.specs.Windows.{windows};
ghost use Rattle.spec_requests.specs.Limits.{IsWithinLimits};
ghost use Rattle.spec_times.specs.Ticks.{IsTimeIn};
ghost use Rattle.spec_output.specs.Report.{HasTimes, report};
ghost use Rattle.spec_outcomes.specs.Outcomes.{report_of};
ghost use Rattle.gf_find.specs.Outcomes.{FilesHaveOutcome, HoldEphemeris};
ghost use Rattle.gf_find.specs.Finds.{IsReport};
ghost use Rattle.gf_find.specs.Searchers.{ReturnsLeaves, TakesSearches};
ghost use Rattle.gf_find.specs.Reported.{AreNotOpened};

use crate::searched::search_files;
use eph_model::Ephemeris;
use gf_edges::Shelf;
use gf_search::Wanted;
use ordered_join::leaf_windows;
use spec_outcomes::{Query, Refusal, Span};
use spec_output::MAX_LEAVES;
use spec_requests::FindAsk;
use spec_trees::Leaf;
use std::alloc::Global;
use window_text::report;

// Returns the report of the windows that the leaves of a search make, which cover a span. Times are in the ticks of the
// search since J2000 in TDB. The only error is out of memory.
fn report_of_leaves(
    alloc: Global,
    find: &FindAsk,
    span: Span,
    leaves: &[Leaf],
) -> Result<Vec<u8>, Refusal>
    requires tick { IsTick find.now.tick }
    requires from { IsTimeIn find.now.tick span.from }
    requires upto { IsTimeIn find.now.tick span.upto }
    requires follow { Covers span.from leaves.now span.upto }
    requires windows { All (HasTimes find.now.tick) (windows leaves.now) }
    ensures text { IfOk result (λ text.
        text.items ≡ report find.now span.from span.upto (windows leaves.now)) }
    ensures memory { IfErr result (λ refusal. refusal ≡ Refusal.Memory) }
{
    let windows = leaf_windows(alloc, leaves)?;
    let text = report(alloc, find, span.from, span.upto, &windows)?;
    Ok(text)
}

/// Searches the ephemeris in the files of a request, and returns the report of the windows that hold the events, or why
/// there is none.
pub(crate) fn search_report_of_files<
    S: Shelf,
    L: Fn(u32, u32, Wanted, &Ephemeris, &Query, Span) -> Result<Vec<Leaf>, Refusal>,
>(alloc: Global, shelf: &mut S, find: &FindAsk, leaves: &L) -> Result<Vec<u8>, Refusal>
    requires limits { IsWithinLimits find.now }
    requires takes_searches { TakesSearches (L.pre leaves.now) }
    requires returns_leaves { ReturnsLeaves (L.post leaves.now) }
    ensures report { IfOk result (λ text. HoldEphemeris
        (S.files shelf.old) find.now.files (IsReport find.now text.items)) }
    ensures stopped { IfErr result (λ refusal. (refusal ≡ Refusal.Memory)
        ⊎ FilesHaveOutcome (S.files shelf.old) find.now.files (S.faults shelf.old) (S.faults shelf.new)
        (report_of find.now) (Err refusal)) }
    ensures unopened { AreNotOpened find.now.files → shelf.new ≡ shelf.old }
{
    match search_files(alloc, Wanted::Windows, shelf, find, MAX_LEAVES, leaves) {
        Ok(found) => report_of_leaves(alloc, find, found.span, &found.leaves),
        Err(refusal) => Err(refusal),
    }
}
