// The signs of a search's function at single times, as its still spans tell them.
ghost use Rattle.spec_bodies.specs.Views.{state_enclosure};
ghost use Rattle.spec_sets.specs.Points.{point_of};
ghost use Rattle.still_judge.specs.Signs.{TellSigns};

use body_states::BodyStates;
use event_expr::Formula;
use still_judge::StillList;

/// Tells the signs of a formula by still spans, and by states at times that no span holds.
#[derive(Drop)]
pub(crate) struct StillSigns<'s, 'e> {
    pub(crate) formula: &'s Formula,
    pub(crate) states: &'s BodyStates<'e>,
    pub(crate) stills: &'s StillList,
    ghost told: { TellSigns (point_of (state_enclosure states.now) formula.now) stills.now },
}
