// Whether still spans are worth looking for.
ghost use Rattle.std.specs.Prelude.{◌<◌, ◌≤ℤ◌, ◌<ℤ◌, All, IsTrue};
ghost use Rattle.spec_ephemeris.specs.Ephemeris.{end_of};
ghost use Rattle.spec_ephemeris.specs.Header.{has_column};

use eph_model::Ephemeris;
use event_judge::EventSearch;
use gf_hooks::CutRule;

/// The least number of parts into which a tree must cut a granule for still spans to be worth their cost. No promise rests
/// on it.
const FEWEST_PARTS: u64 = 8;

// Returns the length in ticks of the shortest granule that one of the columns has at a time. Without columns it is
// the greatest number of 64 bits.
fn shortest_granule_length(ephemeris: &Ephemeris, columns: &[usize], time: i64) -> u64
    requires present { All (λ column. IsTrue (has_column ephemeris.now.header column)) columns.now }
    requires block { 0 < ephemeris.now.blocks }
    requires from { ephemeris.now.start ≤ℤ time }
    requires upto { time ≤ℤ end_of ephemeris.now }
{
    let mut shortest = u64::MAX;
    for &column in columns {
        shortest = shortest.min(ephemeris.granule(column, time).seconds.unsigned_abs());
    }
    shortest
}

// Tells whether a search between two times may cut even the shortest granule into eight parts or more, by its least
// width and its greatest depth. The remainder by 64 keeps the shift within the number's bits: depths of a search are
// below 64.
fn cuts_granules_finely(search: &EventSearch, first: i64, last: i64) -> bool
    requires from { search.now.view.ephemeris.start ≤ℤ first }
    requires several { first <ℤ last }
    requires upto { last ≤ℤ end_of search.now.view.ephemeris }
{
    let columns = search.states().columns();
    let shortest = shortest_granule_length(search.ephemeris(), columns, first);
    let deepest = last.abs_diff(first) >> (search.depth() % 64);
    deepest.max(search.width()) <= shortest / FEWEST_PARTS
}

/// Tells whether still spans are worth looking for between two times: the search halves its nodes, and its limits let
/// it cut a granule into several parts. Else hardly any node would be served.
pub(crate) fn are_spans_worth_seeking(search: &EventSearch, from: i64, upto: i64) -> bool {
    match search.rule() {
        CutRule::Third => false,
        CutRule::Half => {
            let ephemeris = search.ephemeris();
            let (first, last) = (from.max(ephemeris.start()), upto.min(ephemeris.end()));
            first < last && cuts_granules_finely(search, first, last)
        }
    }
}
