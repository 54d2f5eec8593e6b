// The rules by which the bound of a step over some times is made from the bounds of earlier steps.
ghost use Rattle.spec_steps.specs.ColumnTerms.{sight_of};
ghost use Rattle.event_bounds.specs.Spans.{IsAsked, IsBoundOf, IsSpanRight};

use crate::bound::Bound;
use crate::times::BoundTimes;
use body_states::{BodyStates, ColumnRanges, Factor, Quantity};
use column_steps::Arithmetic;
use event_expr::rules::{cosine_interval, length_interval};
use ival_core::Ival;
use spec_steps::laws::{listed_bounds_are_within_limits, listed_constants_are_within_limits};
use spec_text::Decimal;

/// What is seen of two bodies over some times, with the ranges of their columns over these times.
#[derive(Clone, Copy)]
pub(crate) struct Span<'s, 't, 'e> {
    pub states: &'s BodyStates<'e>,
    pub times: BoundTimes<'t>,
    /// The ranges of the columns' positions.
    pub position: &'s ColumnRanges<'s, 'e>,
    /// The ranges of the columns' velocities.
    pub velocity: &'s ColumnRanges<'s, 'e>,
}

impl<'s, 't, 'e> Span<'s, 't, 'e> {
    // Returns the ranges of the columns' positions or velocities over the times, as the quantity says.
    fn ranges_of(&self, quantity: Quantity) -> &ColumnRanges<'s, 'e>
        requires { IsSpanRight self.now }
        ensures { IsAsked self.now quantity result.now }
    {
        match quantity {
            Quantity::Position => self.position,
            Quantity::Velocity => self.velocity,
        }
    }
}

impl<'s, 't, 'e> Arithmetic for Span<'s, 't, 'e> {
    type Value = Bound;

    ghost is_ready = { λ s. IsSpanRight s };

    ghost sight = { λ s. sight_of s.states.now };

    ghost is_value = { λ s t made. IsBoundOf s t made };

    fn column(&self, quantity: Quantity, number: usize, axis: usize) -> Bound {
        let range = self.ranges_of(quantity).of(number, axis);
        self.times.bound(range.values, range.changes)
    }

    fn zero(&self) -> Bound {
        self.times.constant(Ival::zero())
    }

    fn length(&self, km: Decimal) -> Bound {
        listed_constants_are_within_limits();
        self.times.constant(length_interval(km))
    }

    fn cosine(&self, number: Decimal) -> Bound {
        listed_constants_are_within_limits();
        self.times.constant(cosine_interval(number))
    }

    fn scaled(&self, factor: Factor, x: &Bound) -> Bound {
        listed_bounds_are_within_limits();
        let constant = self.times.constant(self.states.factor(factor));
        self.times.product(constant, *x)
    }

    fn sum(&self, x: &Bound, y: &Bound) -> Bound {
        listed_bounds_are_within_limits();
        self.times.sum(*x, *y)
    }

    fn difference(&self, x: &Bound, y: &Bound) -> Bound {
        listed_bounds_are_within_limits();
        self.times.difference(*x, *y)
    }

    fn product(&self, x: &Bound, y: &Bound) -> Bound {
        listed_bounds_are_within_limits();
        self.times.product(*x, *y)
    }

    fn signed_square(&self, x: &Bound) -> Bound {
        listed_bounds_are_within_limits();
        self.times.signed_square(*x)
    }
}
