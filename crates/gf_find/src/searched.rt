// Searches of files: the span that is searched, and its leaves or leaves with the same windows.
ghost use Rattle.std.specs.Prelude.{◌≡◌, ◌<◌, IfErr, IfOk, true};
ghost use Rattle.spec_requests.specs.Limits.{IsWithinLimits};
ghost use Rattle.spec_outcomes.specs.Outcomes.{Stops};
ghost use Rattle.spec_outcomes.specs.Queries.{is_within, query_of, span_of};
ghost use Rattle.gf_find.specs.Outcomes.{HoldEphemeris};
ghost use Rattle.gf_find.specs.Searches.{AreSearched, AreSearchedIn, SearchStops};
ghost use Rattle.gf_find.specs.Searchers.{ReturnsLeaves, TakesSearches};
ghost use Rattle.gf_find.specs.Reported.{AreNotOpened};

use crate::files::ephemeris_of_files;
use eph_model::Ephemeris;
use gf_edges::Shelf;
use gf_query::span_asked;
use gf_search::Wanted;
use spec_outcomes::{Query, Refusal, Span, query_of};
use spec_requests::FindAsk;
use spec_trees::Leaf;
use std::alloc::Global;

/// Leaves in order of time that have the windows of a search, and the span that they follow one another over. Times are in
/// the ticks of the search since J2000 in TDB.
#[derive(Drop)]
pub(crate) struct Searched {
    pub(crate) span: Span,
    pub(crate) leaves: Vec<Leaf>,
}

// Searches a span of an ephemeris, which counts the ticks of the search. As `wanted` says, it returns the leaves of the
// search, or fewer with the same windows; or why there are none. More than `most` leaves are refused.
fn search_span<L: Fn(u32, u32, Wanted, &Ephemeris, &Query, Span) -> Result<Vec<Leaf>, Refusal>>(
    wanted: Wanted,
    ephemeris: &Ephemeris,
    find: &FindAsk,
    span: Span,
    most: u32,
    leaves: &L,
) -> Result<Searched, Refusal>
    requires block { 0 < ephemeris.now.blocks }
    requires limits { IsWithinLimits find.now }
    requires span { span ≡ span_of find.now ephemeris.now }
    requires within { is_within span ephemeris.now ≡ true }
    requires takes_searches { TakesSearches (L.pre leaves.now) }
    requires returns_leaves { ReturnsLeaves (L.post leaves.now) }
    ensures found { IfOk result (λ found.
        AreSearched wanted most find.now ephemeris.now found.span found.leaves.items) }
    ensures stopped { IfErr result (λ refusal. Stops most (query_of find.now) ephemeris.now
        (span_of find.now ephemeris.now) refusal) }
{
    let query = query_of(find);
    match leaves(find.workers, most, wanted, ephemeris, &query, span) {
        Ok(leaves) => Ok(Searched { span, leaves }),
        Err(refusal) => Err(refusal),
    }
}

// Searches an ephemeris, which counts the ticks of the search, over the span that is asked for. As `wanted` says, it
// returns the leaves of the search, or fewer with the same windows. A span that is not within the ephemeris, and more
// than `most` leaves, are refused.
fn search_ephemeris<
    L: Fn(u32, u32, Wanted, &Ephemeris, &Query, Span) -> Result<Vec<Leaf>, Refusal>,
>(
    wanted: Wanted,
    ephemeris: &Ephemeris,
    find: &FindAsk,
    most: u32,
    leaves: &L,
) -> Result<Searched, Refusal>
    requires block { 0 < ephemeris.now.blocks }
    requires limits { IsWithinLimits find.now }
    requires takes_searches { TakesSearches (L.pre leaves.now) }
    requires returns_leaves { ReturnsLeaves (L.post leaves.now) }
    ensures found { IfOk result (λ found.
        AreSearched wanted most find.now ephemeris.now found.span found.leaves.items) }
    ensures stopped { IfErr result (λ refusal. Stops most (query_of find.now) ephemeris.now
        (span_of find.now ephemeris.now) refusal) }
{
    match span_asked(find, ephemeris) {
        Ok(span) => search_span(wanted, ephemeris, find, span, most, leaves),
        Err(refusal) => Err(refusal),
    }
}

/// Searches the ephemeris in the files of a request. As `wanted` says, it returns the leaves of the search, or fewer
/// with the same windows; or why there are none. More than `most` leaves are refused.
pub(crate) fn search_files<
    S: Shelf,
    L: Fn(u32, u32, Wanted, &Ephemeris, &Query, Span) -> Result<Vec<Leaf>, Refusal>,
>(
    alloc: Global,
    wanted: Wanted,
    shelf: &mut S,
    find: &FindAsk,
    most: u32,
    leaves: &L,
) -> Result<Searched, Refusal>
    requires limits { IsWithinLimits find.now }
    requires takes_searches { TakesSearches (L.pre leaves.now) }
    requires returns_leaves { ReturnsLeaves (L.post leaves.now) }
    ensures found { IfOk result (λ found. HoldEphemeris (S.files shelf.old) find.now.files
        (AreSearchedIn wanted most find.now found.span found.leaves.items)) }
    ensures stopped { IfErr result (λ refusal. SearchStops most find.now
        (S.files shelf.old) (S.faults shelf.old) (S.faults shelf.new) refusal) }
    ensures unopened { AreNotOpened find.now.files → shelf.new ≡ shelf.old }
{
    let ephemeris = ephemeris_of_files(alloc, shelf, find.files.as_slice())?;
    let counted = ephemeris.in_ticks(find.tick);
    search_ephemeris(wanted, &counted, find, most, leaves)
}
