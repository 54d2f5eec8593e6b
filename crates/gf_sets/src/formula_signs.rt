// The signs of a formula at single times, by states.
ghost use Rattle.spec_sets.specs.Points.{point_of};

use crate::sign_source::SignSource;
use event_expr::{Formula, States};
use ival_core::Sign;

/// Tells the signs of a formula by states, which enclose it at each time.
#[derive(Drop)]
pub(crate) struct FormulaSigns<'f, S: States> {
    pub(crate) formula: &'f Formula,
    pub(crate) states: &'f S,
}

impl<'f, S: States> SignSource for FormulaSigns<'f, S> {
    ghost sign = { λ signs. point_of (S.answer signs.states.now) signs.formula.now };

    ghost fits = { λ signs t. S.fits signs.states.now t t };

    // Returns the sign of the formula at a time, or `Open` if its enclosure holds numbers on both sides of 0.
    fn sign_at(&self, t: i64) -> Sign {
        self.states.enclosure(self.formula, t, t).range.sign()
    }
}
