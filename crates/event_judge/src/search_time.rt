// A time of a search.
ghost use Rattle.std.specs.Prelude.{◌≤ℤ◌};
ghost use Rattle.spec_ephemeris.specs.Ephemeris.{end_of};
ghost use Rattle.spec_trees.specs.Tree.{IsSound};
ghost use Rattle.spec_searches.specs.Found.{rules};
ghost use Rattle.event_judge.specs.Memory.{IsNear};

use crate::event_search::EventSearch;

/// A time of the ephemeris of a search, in ticks of TDB since J2000.
#[derive(Clone, Copy)]
pub(crate) struct SearchTime<'s, 'e> {
    pub(crate) search: &'s EventSearch<'e>,
    pub(crate) time: i64,
    ghost sound: { IsSound (rules search.now) },
    ghost from: { search.now.view.ephemeris.start ≤ℤ time },
    ghost upto: { time ≤ℤ end_of search.now.view.ephemeris },
    ghost near: { IsNear time },
}
