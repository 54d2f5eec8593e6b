// What a model tells of the function of a search over times of one granule: its values, or its signs alone.
ghost use Rattle.std.specs.Prelude.{◌<ℤ◌, IfSome};
ghost use Rattle.spec_bodies.specs.Views.{Fits};
ghost use Rattle.still_spans.specs.Knowledge.{IsKnowledgeOver, IsToldBetween};

use crate::known::Known;
use event_judge::EventSearch;
use event_models::{FunctionModel, ModelRooms, Told, model_over};

/// A model of the function of a search over times of one granule, by what it tells.
#[derive(Clone, Copy)]
pub(crate) enum Knowledge {
    /// It covers the function's interval at each time.
    Values(Known),
    /// It tells the sign of the function's interval at each time.
    Signs(Known),
}

impl Knowledge {
    /// Makes a model of the search's function over the times from `first` to `last`, in room that is lent. None is
    /// returned if the function has no model there.
    pub(crate) fn over(
        search: &EventSearch,
        rooms: &mut ModelRooms,
        first: i64,
        last: i64,
    ) -> Option<Knowledge>
        requires fits { Fits search.now.view first last }
        requires several { first <ℤ last }
        ensures { IfSome result (IsKnowledgeOver search.now first last) }
    {
        search.is_search();
        let (listed, states) = (search.function_step(), search.states());
        match model_over(rooms, listed, search.ephemeris(), states, first, last) {
            Some(made) => Some(Knowledge::of_model(search, made, first, last)),
            None => None,
        }
    }

    // Keeps a model together with the first and the last time over which it holds, by what it tells.
    fn of_model(search: &EventSearch, made: FunctionModel, first: i64, last: i64) -> Knowledge
        requires fits { Fits search.now.view first last }
        requires several { first <ℤ last }
        requires told { IsToldBetween search.now first last made }
        ensures { IsKnowledgeOver search.now first last result }
    {
        search.is_search();
        let known = Known {
            model: made.model,
            first,
            last,
        };
        match made.told {
            Told::Values => Knowledge::Values(known),
            Told::Signs => Knowledge::Signs(known),
        }
    }
}
