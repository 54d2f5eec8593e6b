// The rules by which one enclosure is made from others, over the times of a span.

ghost use Rattle.std.specs.Prelude.{◌≡◌, ◌≤◌, ◌*◌, ◌-ℤ◌, pos, unsigned_abs, max, true, false};
ghost use lib.Signed.{lt_z};
ghost use Rattle.spec_intervals.specs.Interval.{Interval, IsCosine, IsDistance, cosine_exponent, distance_exponent, end_limit, from_decimal};
ghost use Rattle.spec_intervals.specs.Fraction.{Overlaps};
ghost use Rattle.spec_intervals.specs.Enclosure.{IsSpan, IsWithin, AllWithin, Encloses, middle, offsets, centred, enclosure, constant_of, sum_of, difference_of, product_of, signed_square_of, twice_size};
ghost use Rattle.spec_expressions.specs.Term.{part_exponent};
ghost use Rattle.event_expr.specs.States.{wide_exponent};

use ival_core::{COSINE_EXPONENT, DISTANCE_EXPONENT, Enclosure, Ival};
use spec_text::Decimal;
use std::marker::Model;

/// A span of times with the distances of its ends from its middle, which are computed once for all rules.
#[derive(Drop)]
pub struct TimeSpan {
    first: i64,
    last: i64,
    distances: Ival,
}

impl Model for TimeSpan {
    ghost use Rattle.std.specs.Prelude.{◌≡◌};
    ghost use Rattle.spec_intervals.specs.Enclosure.{IsSpan, offsets};
    ghost use Rattle.event_expr.specs.States.{Times};

    ghost Value = { Times };

    ghost view = { λ s. record { first = s.first; last = s.last } };

    ghost invariant = { λ s. IsSpan s.first s.last × (s.distances ≡ offsets s.first s.last) };
}

impl TimeSpan {
    /// Makes the span from `first` to `last`, at most 2^50 in magnitude, with the ends' distances from the middle.
    #[inline(always)]
    pub fn new(first: i64, last: i64) -> TimeSpan
        requires { IsSpan first last }
        ensures first { result.first ≡ first }
        ensures last { result.last ≡ last }
    {
        let middle = middle(first, last);
        let distances = Ival::of(time_after(first, middle), time_after(last, middle), 0);
        TimeSpan {
            first,
            last,
            distances,
        }
    }

    /// Returns the first time of the span.
    #[inline(always)]
    pub fn first(&self) -> i64
        ensures { result ≡ self.now.first }
    {
        self.first
    }

    /// Returns the last time of the span.
    #[inline(always)]
    pub fn last(&self) -> i64
        ensures { result ≡ self.now.last }
    {
        self.last
    }

    /// Returns the interval of the times' distances from the middle, in ticks: from the first, at most 0, to the last.
    #[inline(always)]
    pub fn distances(&self) -> Ival
        ensures { result ≡ offsets self.now.first self.now.last }
    {
        self.distances
    }

    /// Returns a constant's enclosure. Over several times its change 0 is added to the range, so a zero has exponent 0.
    #[inline(always)]
    pub fn constant(&self, value: Ival) -> Enclosure
        requires within { IsWithin part_exponent value }
        requires number { Overlaps value value }
        ensures { result ≡ constant_of self.now.first self.now.last value }
    {
        if self.has_several() {
            let zero = Ival::zero();
            Enclosure {
                mid: value,
                range: value.add(zero),
                step: zero,
            }
        } else {
            self.single(value)
        }
    }

    /// Returns the enclosure of the sum of two operands, from their enclosures over this span.
    #[tactic(auto, unfolding(spec_intervals::specs::Enclosure::sum_of))]
    #[inline(always)]
    pub fn sum(&self, x: Enclosure, y: Enclosure) -> Enclosure
        requires x_within { AllWithin part_exponent x }
        requires y_within { AllWithin part_exponent y }
        requires x_encloses { Encloses self.now.first self.now.last x }
        requires y_encloses { Encloses self.now.first self.now.last y }
        ensures { result ≡ sum_of self.now.first self.now.last x y }
    {
        let mid = x.mid.add(y.mid);
        if self.has_several() {
            self.wide(mid, x.range.add(y.range), x.step.add(y.step))
        } else {
            self.single(mid)
        }
    }

    /// Returns the enclosure of the first operand less the second, from their enclosures over this span.
    #[tactic(auto, unfolding(spec_intervals::specs::Enclosure::difference_of))]
    #[inline(always)]
    pub fn difference(&self, x: Enclosure, y: Enclosure) -> Enclosure
        requires x_within { AllWithin part_exponent x }
        requires y_within { AllWithin part_exponent y }
        requires x_encloses { Encloses self.now.first self.now.last x }
        requires y_encloses { Encloses self.now.first self.now.last y }
        ensures { result ≡ difference_of self.now.first self.now.last x y }
    {
        let mid = x.mid.sub(y.mid);
        if self.has_several() {
            self.wide(mid, x.range.sub(y.range), x.step.sub(y.step))
        } else {
            self.single(mid)
        }
    }

    /// Returns the enclosure of the product of two operands. From one time to the next the product changes by
    /// `x' (y' - y) + y (x' - x)`, with `x'` and `y'` the later values. The call is large, and so it is not inlined.
    #[inline(never)]
    pub fn product(&self, x: Enclosure, y: Enclosure) -> Enclosure
        requires x_within { AllWithin part_exponent x }
        requires y_within { AllWithin part_exponent y }
        requires x_encloses { Encloses self.now.first self.now.last x }
        requires y_encloses { Encloses self.now.first self.now.last y }
        ensures { result ≡ product_of self.now.first self.now.last x y }
    {
        let mid = x.mid.mul(y.mid);
        if self.has_several() {
            let step = x.range.mul(y.step).add(y.range.mul(x.step));
            self.wide(mid, x.range.mul(y.range), step)
        } else {
            self.single(mid)
        }
    }

    /// Returns the enclosure of `x |x|`, whose change is between 0 and that of `x` times twice the greatest `|x|`.
    #[inline(always)]
    pub fn signed_square(&self, x: Enclosure) -> Enclosure
        requires within { AllWithin part_exponent x }
        requires encloses { Encloses self.now.first self.now.last x }
        ensures { result ≡ signed_square_of self.now.first self.now.last x }
    {
        let mid = x.mid.signed_square();
        if self.has_several() {
            let step = twice_size(x.range).mul(x.step);
            self.wide(mid, x.range.signed_square(), step)
        } else {
            self.single(mid)
        }
    }

    /// Tells whether the span has more than one time.
    #[inline(always)]
    pub fn has_several(&self) -> bool
        ensures { result ≡ lt_z self.now.first self.now.last }
    {
        self.first < self.last
    }

    /// Returns the enclosure over a span of one time: its range is `mid`, the interval of the value, and its change 0.
    #[inline(always)]
    pub fn single(&self, mid: Ival) -> Enclosure
        requires { lt_z self.now.first self.now.last ≡ false }
        ensures { (plain step : Interval)
            → result ≡ enclosure self.now.first self.now.last mid plain step }
    {
        Enclosure {
            mid,
            range: mid,
            step: Ival::zero(),
        }
    }

    /// Returns the enclosure over several times from intervals of the value in the middle, of the values by an
    /// operation's rule (`plain`) and of the changes (`step`). Its range is the part of `plain` that changes reach.
    #[inline(always)]
    pub fn wide(&self, mid: Ival, plain: Ival, step: Ival) -> Enclosure
        requires several { lt_z self.now.first self.now.last ≡ true }
        requires mid_within { IsWithin wide_exponent mid }
        requires plain_within { IsWithin wide_exponent plain }
        requires step_within { IsWithin wide_exponent step }
        requires shared { Overlaps plain (centred self.now.first self.now.last mid step) }
        ensures { result ≡ enclosure self.now.first self.now.last mid plain step }
    {
        let centred = mid.add(step.mul(self.distances));
        Enclosure {
            mid,
            range: plain.meet(centred),
            step,
        }
    }
}

/// Returns the time halfway between the first and the last of a span, rounded down to a whole number.
#[inline(always)]
fn middle(first: i64, last: i64) -> i64
    requires { IsSpan first last }
    ensures { result ≡ middle first last }
{
    (first + last).div_euclid(2)
}

/// Returns by how much `time` is after `origin`, in ticks. It is below 0 if `time` is before `origin`.
#[inline(always)]
fn time_after(time: i64, origin: i64) -> i128
    ensures { result ≡ time -ℤ origin }
{
    time as i128 - origin as i128
}

/// Returns the interval from 0 to twice the greatest magnitude in a range: the slopes of a signed square over it.
#[inline(always)]
pub fn twice_size(range: Ival) -> Ival
    requires { IsWithin part_exponent range }
    ensures { result ≡ twice_size range }
{
    let (lo, hi, s) = range.parts();
    Ival::of(0, twice_greater_magnitude(lo, hi), s)
}

/// Returns twice the greater magnitude of the two ends of an interval.
#[inline(always)]
fn twice_greater_magnitude(lo: i128, hi: i128) -> i128
    requires lo_small { unsigned_abs lo ≤ end_limit }
    requires hi_small { unsigned_abs hi ≤ end_limit }
    ensures { result ≡ pos (2 * max (unsigned_abs lo) (unsigned_abs hi)) }
{
    (2 * lo.unsigned_abs().max(hi.unsigned_abs())) as i128
}

/// Returns the interval of a length, below 2^36 km in magnitude, rounded down and up to units of 2^-24 km.
#[inline(always)]
pub fn length_interval(km: Decimal) -> Ival
    requires { IsDistance km.mant km.exp }
    ensures equals { result ≡ from_decimal km.mant km.exp distance_exponent }
    ensures within { IsWithin part_exponent result }
    ensures number { Overlaps result result }
{
    Ival::from_decimal(km.mant, km.exp, DISTANCE_EXPONENT)
}

/// Returns the interval of a cosine, at most 1 in magnitude, rounded down and up to units of 2^-60.
#[inline(always)]
pub fn cosine_interval(number: Decimal) -> Ival
    requires { IsCosine number.mant number.exp }
    ensures equals { result ≡ from_decimal number.mant number.exp cosine_exponent }
    ensures within { IsWithin part_exponent result }
    ensures number { Overlaps result result }
{
    Ival::from_decimal(number.mant, number.exp, COSINE_EXPONENT)
}
