// The granules of the columns in use, one after the other.
ghost use Rattle.std.specs.Prelude.{◌<◌, ◌≤ℤ◌, ◌<ℤ◌, All, IsTrue};
ghost use Rattle.spec_bodies.specs.Views.{Fits};
ghost use Rattle.spec_ephemeris.specs.Ephemeris.{end_of};
ghost use Rattle.spec_ephemeris.specs.Header.{has_column};

use eph_model::Ephemeris;
use event_judge::EventSearch;

// Returns the last time before a granule of one of the columns begins after `time`. If none begins before the end of
// the ephemeris, that end is returned.
fn last_time_before_border(ephemeris: &Ephemeris, columns: &[usize], time: i64) -> i64
    requires present { All (λ column. IsTrue (has_column ephemeris.now.header column)) columns.now }
    requires block { 0 < ephemeris.now.blocks }
    requires from { ephemeris.now.start ≤ℤ time }
    requires upto { time ≤ℤ end_of ephemeris.now }
{
    let end = ephemeris.end();
    let mut last = end;
    for &column in columns {
        let granule = ephemeris.granule(column, time);
        let next = granule.start + granule.seconds;
        if next < end {
            last = last.min(next - 1);
        }
    }
    last
}

/// Returns the last time that lies in the same granules of all columns in use as `time` does.
pub(crate) fn last_time_in_granules(search: &EventSearch, time: i64) -> i64
    requires from { search.now.view.ephemeris.start ≤ℤ time }
    requires upto { time ≤ℤ end_of search.now.view.ephemeris }
{
    let columns = search.states().columns();
    last_time_before_border(search.ephemeris(), columns, time)
}

/// Tells whether no granule of the columns in use begins after `a` and up to `b`, so that one model holds over all
/// these times.
pub(crate) fn has_no_border_between(search: &EventSearch, a: i64, b: i64) -> bool
    requires from { search.now.view.ephemeris.start ≤ℤ a }
    requires several { a <ℤ b }
    requires upto { b ≤ℤ end_of search.now.view.ephemeris }
    ensures { IsTrue result → Fits search.now.view a b }
{
    let columns = search.states().columns();
    search.ephemeris().border_near(columns, a, b).is_none()
}
