// Whether the conditions of an event hold at a time, by their enclosures at that time alone.
ghost use Rattle.std.specs.Prelude.{◌≡◌, ◌≤ℤ◌, IsTrue};
ghost use Rattle.spec_ephemeris.specs.Ephemeris.{end_of};
ghost use Rattle.spec_bounds.specs.Steady.{is_certified_at};
ghost use Rattle.still_judge.specs.EndSigns.{AreCertifiedAt};

use body_states::States;
use event_judge::EventSearch;
use event_kinds::Guard;
use ival_core::Sign;

// Tells whether a condition is certified at a time of the ephemeris: by its enclosure at that time alone it holds. The
// columns are read for what the call ensures.
fn is_certified(search: &EventSearch, guard: &Guard, time: i64) -> bool
    requires from { search.now.view.ephemeris.start ≤ℤ time }
    requires upto { time ≤ℤ end_of search.now.view.ephemeris }
    ensures { result ≡ is_certified_at search.now time guard.now }
{
    let states = search.states();
    let _columns = states.columns();
    let over = states.enclosure(guard.formula(), time, time);
    match over.range.sign() {
        Sign::Yes => guard.at_least(),
        Sign::No => !guard.at_least(),
        Sign::Open => false,
    }
}

/// Tells whether a time is one of the ephemeris of a search, and each condition of the event is certified then. Without
/// conditions each time of the ephemeris is such a time.
pub(crate) fn are_conditions_certified(search: &EventSearch, time: i64) -> bool
    ensures { IsTrue result → AreCertifiedAt search.now time }
{
    let ephemeris = search.ephemeris();
    if time < ephemeris.start() || ephemeris.end() < time {
        return false;
    }
    search
        .event()
        .guards()
        .iter()
        .all(|guard| is_certified(search, guard, time))
}
