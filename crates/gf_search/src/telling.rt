// How the signs of a search's function are told by its still spans.
ghost use Rattle.spec_bodies.specs.Views.{Fits, state_enclosure};
ghost use Rattle.spec_sets.specs.Points.{point_of};

use crate::still_signs::StillSigns;
use body_states::States;
use gf_sets::SignSource;
use ival_core::Sign;

impl<'s, 'e> SignSource for StillSigns<'s, 'e> {
    ghost sign = { λ signs. point_of (state_enclosure signs.states.now) signs.formula.now };

    ghost fits = { λ signs t. Fits signs.states.now t t };

    // Returns the sign of the formula at a time: that of the still span that holds it, or by the enclosure there.
    fn sign_at(&self, t: i64) -> Sign {
        match self.stills.sign_at(t) {
            Some(sign) => sign,
            None => self.states.enclosure(self.formula, t, t).range.sign(),
        }
    }
}
