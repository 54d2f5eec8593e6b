// The intervals of formulas at single times.
ghost use Rattle.std.specs.Prelude.{◌≡◌};
ghost use Rattle.spec_bodies.specs.Views.{Fits};
ghost use Rattle.spec_steps.specs.ColumnTerms.{sight_of};
ghost use Rattle.body_states.specs.Moments.{IsSingle, IsWrittenAt, formula_point, point_in};

use crate::column_entries::ColumnEntry;
use crate::columns::has_any_axis;
use crate::single_time::SingleTime;
use crate::sources::KEPT_COLUMNS;
use crate::states::BodyStates;
use column_steps::Arithmetic;
use event_expr::rules::{TimeSpan, cosine_interval, length_interval};
use event_expr::{Axes, Formula};
use granule_values::ColumnQuestion;
use ival_core::Ival;
use spec_bodies::{Factor, Quantity};
use spec_steps::laws::{listed_constants_are_within_limits, listed_enclosures_are_within_limits};
use spec_text::Decimal;

impl<'e> BodyStates<'e> {
    /// Returns the interval of a formula at a single time: the middle and the range of its enclosure there. Each column
    /// is evaluated once, and no room for velocities is taken if the formula names none.
    pub(crate) fn point(&self, formula: &Formula, times: &TimeSpan) -> Ival
        requires single { times.now.last ≡ times.now.first }
        requires fits { Fits self.now times.now.first times.now.last }
        ensures { result ≡ formula_point self.now times.now.first formula.now }
    {
        let wanted = formula.leaves();
        let position_axes = self.own_axes(wanted.first_position.union(wanted.second_position));
        let velocity_axes = self.own_axes(wanted.first_velocity.union(wanted.second_velocity));
        let mut positions = [ColumnEntry::none(); KEPT_COLUMNS];
        let question = ColumnQuestion {
            quantity: Quantity::Position,
            axes: position_axes,
            times,
        };
        self.write_entries(&question, &mut positions);
        let moment = SingleTime {
            states: self,
            times,
            position_axes,
            positions: &positions,
            velocity_axes: Axes::none(),
            velocities: &positions,
        };
        if has_any_axis(velocity_axes) {
            moment.point_with_velocities(formula, velocity_axes)
        } else {
            self.coordinates().formula(&moment, formula)
        }
    }
}

impl<'t, 'e> SingleTime<'t, 'e> {
    // Returns a formula's interval at this time, with the columns' velocities evaluated along some axes of the files.
    // Not inlined, so that formulas of positions are spared the clearing of its table.
    #[inline(never)]
    fn point_with_velocities(&self, formula: &Formula, axes: Axes) -> Ival
        requires { IsSingle self.now }
        ensures { result
            ≡ formula_point self.now.states.now self.now.times.now.first formula.now }
    {
        let mut velocities = [ColumnEntry::none(); KEPT_COLUMNS];
        let question = ColumnQuestion {
            quantity: Quantity::Velocity,
            axes,
            times: self.times,
        };
        self.states.write_entries(&question, &mut velocities);
        let moment = SingleTime {
            states: self.states,
            times: self.times,
            position_axes: self.position_axes,
            positions: self.positions,
            velocity_axes: axes,
            velocities: &velocities,
        };
        self.states.coordinates().formula(&moment, formula)
    }

    // Returns the files' axes along which a quantity was evaluated, and its entries, which mean nothing without axes.
    #[inline(always)]
    fn written_entries(&self, quantity: Quantity) -> (Axes, &[ColumnEntry; KEPT_COLUMNS])
        requires { IsSingle self.now }
        ensures { IsWrittenAt self.now quantity result.0 result.1.now }
    {
        match quantity {
            Quantity::Position => (self.position_axes, self.positions),
            Quantity::Velocity => (self.velocity_axes, self.velocities),
        }
    }
}

impl<'t, 'e> Arithmetic for SingleTime<'t, 'e> {
    type Value = Ival;

    ghost is_ready = { λ s. IsSingle s };

    ghost sight = { λ s. sight_of s.states.now };

    ghost is_value = { λ s t made. made ≡ point_in s t };

    fn column(&self, quantity: Quantity, number: usize, axis: usize) -> Ival {
        let (axes, columns) = self.written_entries(quantity);
        let question = ColumnQuestion {
            quantity,
            axes,
            times: self.times,
        };
        self.states
            .column_enclosure(true, &question, columns, number, axis)
            .mid
    }

    fn zero(&self) -> Ival {
        Ival::zero()
    }

    fn length(&self, km: Decimal) -> Ival {
        listed_constants_are_within_limits();
        length_interval(km)
    }

    fn cosine(&self, number: Decimal) -> Ival {
        listed_constants_are_within_limits();
        cosine_interval(number)
    }

    fn scaled(&self, factor: Factor, x: &Ival) -> Ival {
        listed_enclosures_are_within_limits();
        self.states.factor(factor).mul(*x)
    }

    fn sum(&self, x: &Ival, y: &Ival) -> Ival {
        listed_enclosures_are_within_limits();
        x.add(*y)
    }

    fn difference(&self, x: &Ival, y: &Ival) -> Ival {
        listed_enclosures_are_within_limits();
        x.sub(*y)
    }

    fn product(&self, x: &Ival, y: &Ival) -> Ival {
        listed_enclosures_are_within_limits();
        x.mul(*y)
    }

    fn signed_square(&self, x: &Ival) -> Ival {
        listed_enclosures_are_within_limits();
        x.signed_square()
    }
}
