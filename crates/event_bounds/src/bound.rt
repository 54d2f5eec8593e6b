// Bounds, and the rules by which one is made from others.
ghost use Rattle.std.specs.Prelude.{◌≡◌, ◌-ℤ◌, IsTrue, false, pos};
ghost use Rattle.spec_intervals.specs.Interval.{IsExponent, is_zero, lift_limit};
ghost use Rattle.spec_intervals.specs.Enclosure.{IsWithin};
ghost use Rattle.spec_expressions.specs.Term.{part_exponent};
ghost use Rattle.spec_models.specs.Bounds.{Bound as BoundOf, bound, constant_bound, difference_bound, product_bound, reached, signed_square_bound, sum_bound};
ghost use Rattle.event_expr.specs.States.{wide_exponent};
ghost use Rattle.event_bounds.specs.Fine.{IsFine};
ghost use Rattle.event_bounds.specs.Made.{IsBound, IsMadeWithin};

use crate::times::BoundTimes;
use event_expr::rules::twice_size;
use ival_core::Ival;

/// The number of powers of 2 by which a range may be finer than what steps reach from it.
const LIFT_LIMIT: i32 = 60;

/// The least exponent of a range that is known to keep its unit by exponents alone.
const FINE_EXPONENT: i32 = -58;

/// An interval that includes every value of a quantity over some times, and one that includes every change from one
/// time to the next. Both include the enclosures over any of these times.
#[derive(Clone, Copy)]
pub struct Bound {
    pub range: Ival,
    pub step: Ival,
}

impl<'t> BoundTimes<'t> {
    /// Returns the bound with a range and steps over these times. A range whose unit is far finer than what its steps
    /// reach is coarsened. Of most ranges exponents alone show that they keep their unit, which saves work.
    pub fn bound(&self, range: Ival, step: Ival) -> Bound
        requires range { IsWithin wide_exponent range }
        requires step { IsWithin wide_exponent step }
        ensures { IsBound result (bound self.now.span.now.first self.now.span.now.last range step) }
    {
        if keeps_unit(&range, &step) {
            Bound { range, step }
        } else {
            self.coarsened_bound(range, step)
        }
    }

    // Returns the bound, with the range coarsened to at least the exponent of what steps reach from it, less 60.
    fn coarsened_bound(&self, range: Ival, step: Ival) -> Bound
        requires range { IsWithin wide_exponent range }
        requires step { IsWithin wide_exponent step }
        ensures { IsBound result (bound self.now.span.now.first self.now.span.now.last range step) }
    {
        let reached = range.coarse_sum(step.mul(self.span.distances()));
        let range = range.coarsened(exponent_below(&reached));
        Bound { range, step }
    }

    /// Returns the bound of a constant over these times: its range is the constant's interval, and its steps are 0.
    pub fn constant(&self, value: Ival) -> Bound
        requires { IsWithin part_exponent value }
        ensures { IsBound result (constant_bound self.now.span.now.first self.now.span.now.last value) }
    {
        self.bound(value, Ival::zero())
    }

    /// Returns a bound of the sum of two quantities, from a bound of each.
    pub fn sum(&self, x: Bound, y: Bound) -> Bound
        requires x_within { IsMadeWithin part_exponent x }
        requires y_within { IsMadeWithin part_exponent y }
        ensures { (p q : BoundOf) → IsBound x p → IsBound y q
            → IsBound result (sum_bound self.now.span.now.first self.now.span.now.last p q) }
    {
        let range = x.range.coarse_sum(y.range);
        let step = x.step.coarse_sum(y.step);
        self.bound(range, step)
    }

    /// Returns a bound of the first quantity less the second, from a bound of each.
    pub fn difference(&self, x: Bound, y: Bound) -> Bound
        requires x_within { IsMadeWithin part_exponent x }
        requires y_within { IsMadeWithin part_exponent y }
        ensures { (p q : BoundOf) → IsBound x p → IsBound y q
            → IsBound result (difference_bound self.now.span.now.first self.now.span.now.last p q) }
    {
        let range = x.range.coarse_difference(y.range);
        let step = x.step.coarse_difference(y.step);
        self.bound(range, step)
    }

    /// Returns a bound of the product of two quantities, from a bound of each.
    pub fn product(&self, x: Bound, y: Bound) -> Bound
        requires x_within { IsMadeWithin part_exponent x }
        requires y_within { IsMadeWithin part_exponent y }
        ensures { (p q : BoundOf) → IsBound x p → IsBound y q
            → IsBound result (product_bound self.now.span.now.first self.now.span.now.last p q) }
    {
        let range = x.range.mul(y.range);
        let step = x.range.mul(y.step).coarse_sum(y.range.mul(x.step));
        self.bound(range, step)
    }

    /// Returns a bound of the signed square `x |x|` of a quantity, from its bound.
    pub fn signed_square(&self, x: Bound) -> Bound
        requires { IsMadeWithin part_exponent x }
        ensures { (p : BoundOf) → IsBound x p
            → IsBound result (signed_square_bound self.now.span.now.first self.now.span.now.last p) }
    {
        let range = x.range.signed_square();
        let step = twice_size(x.range).mul(x.step);
        self.bound(range, step)
    }
}

// Returns an interval's exponent less 60, the least exponent that is kept of a range whose steps are this interval.
fn exponent_below(x: &Ival) -> i32
    requires { IsExponent x.now.s }
    ensures { result ≡ x.now.s -ℤ pos lift_limit }
{
    x.parts().2 - LIFT_LIMIT
}

// Tells whether exponents show that what steps reach is under 2^60 times as coarse as the range. `false` says nothing.
fn keeps_unit(range: &Ival, step: &Ival) -> bool
    requires range { IsWithin wide_exponent range.now }
    requires step { IsWithin wide_exponent step.now }
    ensures { IsTrue result → IsFine range.now step.now }
{
    is_nonzero(range) && FINE_EXPONENT <= exponent(range) && exponent(step) + 4 <= exponent(range)
}

// Tells whether an interval has a number other than 0. Only such an interval has an exponent that means something.
fn is_nonzero(x: &Ival) -> bool
    ensures { IsTrue result → is_zero x.now ≡ false }
{
    let (lo, hi, _) = x.parts();
    lo < 0 || 0 < hi
}

// Returns the exponent of 2 of the unit in which an interval's ends are.
fn exponent(x: &Ival) -> i32
    ensures { result ≡ x.now.s }
{
    x.parts().2
}
