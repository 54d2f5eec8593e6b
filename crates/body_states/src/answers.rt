// The enclosures that are returned for a coordinate of a target.
ghost use Rattle.std.specs.Prelude.{◌≡◌};
ghost use Rattle.spec_expressions.specs.Term.{enclosure_of};
ghost use Rattle.spec_bodies.specs.Views.{Fits, exact_state, state_enclosure};
ghost use Rattle.spec_bodies.proofs.Held.{times_span, fractions_of_states, states_held, states_within};

use crate::states::BodyStates;
use event_expr::rules::TimeSpan;
use event_expr::{Formula, Leaves, States};
use ival_core::Enclosure;

impl<'e> States for BodyStates<'e> {
    ghost exact = { λ v leaf. exact_state v leaf };

    ghost answer = { λ v leaf a b. state_enclosure v leaf a b };

    ghost fits = { λ v a b. Fits v a b };

    /// Returns the enclosure of a target's position along an axis, in km, over the times from `a` to `b`.
    fn pos(&self, target: u8, axis: u8, a: i64, b: i64) -> Enclosure {
        let moment = self.at(a, b, &Leaves::none());
        self.coordinates().position(&moment, target, axis)
    }

    /// Returns the enclosure of a target's velocity along an axis, in km per unit of time, over the times `a` to `b`.
    fn vel(&self, target: u8, axis: u8, a: i64, b: i64) -> Enclosure {
        let moment = self.at(a, b, &Leaves::none());
        self.coordinates().velocity(&moment, target, axis)
    }

    /// Returns the enclosure of a formula over the times from `a` to `b`, with each column that it is made of evaluated
    /// once. If `a` is `b`, plain intervals are used, which is quicker: the middle is then the range, and the change 0.
    fn enclosure(&self, f: &Formula, a: i64, b: i64) -> Enclosure {
        let times = TimeSpan::new(a, b);
        if times.has_several() {
            self.wide_enclosure(f, a, b)
        } else {
            times.single(self.point(f, &times))
        }
    }

    ghost spans = { λ v a b fits. times_span v a b fits };

    ghost numbers = { λ v leaf a b is fits. fractions_of_states v a b fits leaf is };

    ghost holds = { λ v leaf a b is fits. states_held v a b fits leaf is };

    ghost within = { λ v leaf a b is fits. states_within v a b fits leaf is };
}

impl<'e> BodyStates<'e> {
    // Returns a formula's enclosure over the times `a` to `b`. Not inlined, as a single time needs no snapshot's room.
    #[inline(never)]
    fn wide_enclosure(&self, f: &Formula, a: i64, b: i64) -> Enclosure
        requires { Fits self.now a b }
        ensures { result ≡ enclosure_of (λ leaf. state_enclosure self.now leaf a b) a b f.now }
    {
        let moment = self.at(a, b, &f.leaves());
        self.coordinates().formula(&moment, f)
    }
}
