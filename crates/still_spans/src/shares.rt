// The still spans of a search, found by workers in shares of its times.
ghost use Rattle.std.specs.Prelude.{◌<◌, All, IfOk};
ghost use Rattle.spec_stills.specs.Still.{IsStill};
ghost use Rattle.still_spans.specs.Found.{AreInOrder};
ghost use Rattle.still_spans.specs.Joined.{AreStill};

use crate::cuts::Cuts;
use crate::joining::{Found, join_shares};
use crate::still_spans;
use crate::worth::are_spans_worth_seeking;
use event_judge::EventSearch;
use spec_stills::StillSpan;
use std::alloc::{AllocError, Global};
use std::thread;
use std::thread::Threads;

// Returns the still spans of the share at a place, from the time at which it begins to that at which the next one
// does.
fn spans_of_share(alloc: Global, search: &EventSearch, cuts: &Cuts, place: usize) -> Found
    requires { place < cuts.now.count }
    ensures { AreStill search.now result }
{
    let place = place as u32;
    still_spans(
        alloc,
        search,
        cuts.share_start(place),
        cuts.share_start(place + 1),
    )
}

// Returns the still spans of each share in order, found at the same time by a thread for each. The error is out of
// memory for the list of shares; an error inside a share is its item.
fn spans_of_each_share<R: Threads + Sync>(
    rt: &R,
    alloc: Global,
    search: &EventSearch,
    cuts: &Cuts,
) -> Result<Vec<Found>, AllocError>
    ensures { IfOk result (λ shares. All (AreStill search.now) shares.items) }
{
    thread::map_indices(
        rt,
        alloc,
        cuts.count as usize,
        &|place| -> Found
            requires { place < cuts.now.count }
            ensures { AreStill search.entry.now result }
        { spans_of_share(alloc, search, cuts, place) },
    )
}

/// Returns the still spans of a search from one time to another, as `still_spans` finds them, by up to 64 workers.
/// Each worker looks through a share of the times, so a span of one tick between two shares may be lost. None are
/// returned if they are not worth looking for: the search does not halve its nodes, or a granule has few of them. The
/// only error is out of memory.
pub fn still_spans_by<R: Threads + Sync>(
    rt: &R,
    alloc: Global,
    search: &EventSearch,
    from: i64,
    upto: i64,
    workers: u32,
) -> Result<Vec<StillSpan>, AllocError>
    ensures still { IfOk result (λ found. All (IsStill search.now) found.items) }
    ensures follow { IfOk result (λ found. AreInOrder from found.items) }
{
    if !are_spans_worth_seeking(search, from, upto) {
        return Ok(Vec::new(alloc));
    }
    let cuts = Cuts::new(search.ephemeris(), from, upto, workers);
    if cuts.count == 1 {
        return still_spans(alloc, search, from, upto);
    }
    let shares = spans_of_each_share(rt, alloc, search, &cuts)?;
    join_shares(alloc, from, &shares)
}
