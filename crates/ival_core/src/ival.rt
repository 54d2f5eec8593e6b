// The interval, and the calls that make one from others.

ghost use Rattle.std.specs.Prelude.{◌≡◌, ◌≤◌, ◌<◌, ◌^◌, ◌*◌, ◌≤ℤ◌, ℤ, pos, neg_ℤ, unsigned_abs, ◌⊎◌};
ghost use Rattle.spec_models.specs.Bounds.{coarse_difference, coarse_sum, coarsened, raised_sum};
ghost use Rattle.spec_intervals.specs.Interval.{Interval, IsIval, IsExponent, exponent_limit, narrow_shift, IsDistance, IsCosine, distance_exponent, cosine_exponent, interval, narrow, settled, is_zero, sum, sum_up, negated, difference, product, join, join_up, meet, meet_up, signed_square, scale, from_decimal};
ghost use Rattle.spec_intervals.specs.Fraction.{Fraction, Holds, Overlaps, fraction_add, fraction_sub, fraction_mul, fraction_signed_square, fraction_scale, decimal};
ghost use Rattle.spec_intervals.specs.Signs.{sign_of};
ghost use Rattle.ival_core.specs.Aligned.{IsAligned};
ghost use Rattle.ival_core.specs.Raised.{IsRaised};
ghost use borrow.Author.Differences.{up, down};

use crate::decimals::decimal_ends;
use crate::divider::Divider;
use crate::ends::{
    ceil_shift, end_in_64_bits, exponent_gap, exponent_rise, floor_half, floor_shift,
    greater_exponent, greater_magnitude, is_end_magnitude, is_product_magnitude, leading_shift,
    least_shift, ordered_ends, product_ends, raise_end, shifted_high_end, shifted_low_end,
    signed_square_of_end, sum_of_ends,
};
use spec_intervals::Sign;
use std::marker::Model;

/// The exponent of 2 at which a decimal that is a distance in km becomes an interval.
pub const DISTANCE_EXPONENT: i32 = -24;

/// The exponent of 2 at which a decimal that is a cosine becomes an interval.
pub const COSINE_EXPONENT: i32 = -60;

/// The most bits by which the end of the greater exponent is raised; further bits are taken from the other end.
const LIFT_LIMIT: u32 = 60;

/// All numbers from `lo * 2^s` to `hi * 2^s`, with `lo <= hi` and both at most 2^62 in magnitude.
#[derive(Clone, Copy, PartialEq, Eq)]
pub struct Ival {
    lo: i64,
    hi: i64,
    s: i32,
}

impl Model for Ival {
    ghost use Rattle.spec_intervals.specs.Interval.{Interval, IsIval};

    ghost Value = { Interval };

    ghost view = { λ a. record { lo = a.lo; hi = a.hi; s = a.s } };

    ghost invariant = { λ a. IsIval (record { lo = a.lo; hi = a.hi; s = a.s }) };

    ghost inverse = { λ t. record { lo = t.lo; hi = t.hi; s = t.s } };
}

/// What is known of a quantity over a span of times: intervals that hold its value in the middle, all its values, and
/// its change from any time to the next.
pub type Enclosure = spec_intervals::Enclosure<Ival>;

impl Ival {
    /// Returns the interval's low end, its high end, and the exponent of 2 of both: it holds the numbers from `lo *
    /// 2^s` to `hi * 2^s`.
    #[inline(always)]
    pub fn parts(&self) -> (i128, i128, i32)
        ensures lo { result.0 ≡ self.now.lo }
        ensures hi { result.1 ≡ self.now.hi }
        ensures exponent { result.2 ≡ self.now.s }
    {
        (self.lo as i128, self.hi as i128, self.s)
    }

    /// Makes the interval from `lo * 2^s` to `hi * 2^s`, normalized: both ends are halved together, rounded outward,
    /// until both magnitudes are at most 2^62. If both ends are 0, the exponent is 0.
    pub fn of(lo: i128, hi: i128, s: i32) -> Ival
        requires ordered { lo ≤ℤ hi }
        requires exponent { IsExponent s }
        ensures equals { result ≡ narrow lo hi s }
        ensures holds { (r : Fraction) → Holds (interval lo hi s) r → Holds result r }
    {
        normalize_any_ends(lo, hi, s)
    }

    /// Returns the interval of 0 alone, with the exponent 0.
    #[inline(always)]
    pub fn zero() -> Ival
        ensures { result ≡ interval (pos 0) (pos 0) (pos 0) }
    {
        Ival { lo: 0, hi: 0, s: 0 }
    }

    /// Makes the interval of `mant * 10^exp` in units of `2^s`, rounded down and up: an `s` of -24 for a length in
    /// km, and of -60 for a cosine. It is not normalized, so that a 0 keeps the exponent `s`.
    pub fn from_decimal(mant: i64, exp: i16, s: i32) -> Ival
        requires exponent { (s ≡ distance_exponent) ⊎ (s ≡ cosine_exponent) }
        requires distance { s ≡ distance_exponent → IsDistance mant exp }
        requires cosine { s ≡ cosine_exponent → IsCosine mant exp }
        ensures equals { result ≡ from_decimal mant exp s }
        ensures holds { Holds result (decimal mant exp) }
    {
        decimal_ival(mant, exp, s)
    }

    /// Tells whether all numbers of the interval are at least 0 (`Yes`), all are below 0 (`No`), or neither (`Open`).
    #[inline(always)]
    pub fn sign(&self) -> Sign
        ensures { result ≡ sign_of self.now }
    {
        if self.lo >= 0 {
            Sign::Yes
        } else if self.hi < 0 {
            Sign::No
        } else {
            Sign::Open
        }
    }

    /// Returns the interval of the sums of a number of each interval: the ends are added at one exponent and
    /// normalized. An interval of 0 alone leaves the other as it is.
    #[inline(always)]
    pub fn add(self, other: Ival) -> Ival
        requires exponent { IsExponent self.s }
        requires other_exponent { IsExponent other.s }
        ensures equals { result ≡ sum self other }
        ensures holds { (r t : Fraction) → Holds self r → Holds other t
            → Holds result (fraction_add r t) }
    {
        sum_of_ivals(self, other)
    }

    /// Returns the interval of the differences, the first operand less the second: the sum with the second negated.
    /// An interval of 0 alone is not added.
    #[inline(always)]
    pub fn sub(self, other: Ival) -> Ival
        requires exponent { IsExponent self.s }
        requires other_exponent { IsExponent other.s }
        ensures equals { result ≡ difference self other }
        ensures holds { (r t : Fraction) → Holds self r → Holds other t
            → Holds result (fraction_sub r t) }
    {
        difference_of_ivals(self, other)
    }

    /// Returns the interval of the products of a number of each interval: from the least to the greatest of the four
    /// products of ends, normalized.
    #[inline(always)]
    pub fn mul(self, other: Ival) -> Ival
        requires exponent { IsExponent self.s }
        requires other_exponent { IsExponent other.s }
        ensures equals { result ≡ product self other }
        ensures holds { (r t : Fraction) → Holds self r → Holds other t
            → Holds result (fraction_mul r t) }
    {
        product_of_ivals(self, other)
    }

    /// Returns the hull of two intervals: from the lesser low end to the greater high end, at one exponent and
    /// normalized.
    #[inline(always)]
    pub fn join(self, other: Ival) -> Ival
        requires exponent { IsExponent self.s }
        requires other_exponent { IsExponent other.s }
        ensures equals { result ≡ join self other }
        ensures holds { (r : Fraction) → Holds self r ⊎ Holds other r → Holds result r }
    {
        hull_of_ivals(self, other)
    }

    /// Returns the intersection of two intervals, which have to overlap: from the greater low end to the lesser high
    /// end, at one exponent and normalized.
    #[inline(always)]
    pub fn meet(self, other: Ival) -> Ival
        requires exponent { IsExponent self.s }
        requires other_exponent { IsExponent other.s }
        requires overlap { Overlaps self other }
        ensures equals { result ≡ meet self other }
        ensures holds { (r : Fraction) → Holds self r → Holds other r → Holds result r }
    {
        intersection_of_ivals(self, other)
    }

    /// Returns the interval of a number times its magnitude, for the numbers of this one: the signed squares of its
    /// ends, normalized. The sign is kept, and the result grows with the number.
    #[inline(always)]
    pub fn signed_square(self) -> Ival
        requires { IsExponent self.s }
        ensures equals { result ≡ signed_square self }
        ensures holds { (r : Fraction) → Holds self r → Holds result (fraction_signed_square r) }
    {
        signed_square_of_ival(self)
    }

    /// Returns `2 / seconds` times the numbers from `lo * 2^s` to `hi * 2^s`, rounded outward and normalized. The
    /// argument of a polynomial over a span of `seconds` goes from -1 to 1, so `2 / seconds` is what it gains in a
    /// second.
    #[inline(always)]
    pub fn scale(lo: i128, hi: i128, s: i32, seconds: i64) -> Ival
        requires ordered { lo ≤ℤ hi }
        requires lo_size { unsigned_abs lo < 2 ^ 126 }
        requires hi_size { unsigned_abs hi < 2 ^ 126 }
        requires exponent { IsExponent s }
        requires length { pos 1 ≤ℤ seconds }
        ensures equals { result ≡ scale lo hi s (unsigned_abs seconds) }
        ensures holds { (r : Fraction) → Holds (interval lo hi s) r
            → Holds result (fraction_scale r (unsigned_abs seconds)) }
    {
        scale_ends(lo, hi, s, seconds)
    }

    /// Returns `2 / seconds` times the numbers from `lo * 2^s` to `hi * 2^s`, rounded outward and normalized, as
    /// `scale` does. The divider by the seconds is made once for many intervals.
    #[inline(always)]
    pub fn scale_by(lo: i128, hi: i128, s: i32, divider: &Divider) -> Ival
        requires ordered { lo ≤ℤ hi }
        requires lo_size { unsigned_abs lo < 2 ^ 126 }
        requires hi_size { unsigned_abs hi < 2 ^ 126 }
        requires exponent { IsExponent s }
        ensures equals { result ≡ scale lo hi s divider.now }
        ensures holds { (r : Fraction) → Holds (interval lo hi s) r
            → Holds result (fraction_scale r divider.now) }
    {
        scale_ends_by(lo, hi, s, divider)
    }

    /// Returns the interval at an exponent of at least `s`, its ends rounded outward and normalized. An interval at a
    /// greater exponent keeps that one.
    pub fn coarsened(self, s: i32) -> Ival
        requires exponent { IsExponent self.s }
        requires other_exponent { IsExponent s }
        ensures { result ≡ coarsened s self }
    {
        let own = raise_ival(self, s);
        normalize_ends(own.lo, own.hi, own.s)
    }

    /// Returns the sum of two intervals in the coarser of both units: the ends are rounded outward to the greater
    /// exponent, added and normalized. An interval of 0 alone adds nothing.
    #[tactic(auto, unfolding(spec_models::specs::Bounds::coarse_sum))]
    pub fn coarse_sum(self, other: Ival) -> Ival
        requires exponent { IsExponent self.s }
        requires other_exponent { IsExponent other.s }
        ensures { result ≡ coarse_sum self other }
    {
        if self.is_zero() {
            other
        } else if other.is_zero() {
            self
        } else {
            sum_at_greater_exponent(self, other)
        }
    }

    /// Returns the first interval less the second in the coarser of both units: the coarse sum of the first and the
    /// second negated.
    pub fn coarse_difference(self, other: Ival) -> Ival
        requires exponent { IsExponent self.s }
        requires other_exponent { IsExponent other.s }
        ensures { result ≡ coarse_difference self other }
    {
        self.coarse_sum(other.negation())
    }

    /// Returns the interval of the negated numbers of this one, with the same exponent.
    #[inline(always)]
    fn negation(self) -> Ival
        ensures { result ≡ negated self }
    {
        Ival {
            lo: -self.hi,
            hi: -self.lo,
            s: self.s,
        }
    }

    // Tells whether the interval holds 0 alone.
    #[inline(always)]
    fn is_zero(&self) -> bool
        ensures { result ≡ is_zero self.now }
    {
        self.lo == 0 && self.hi == 0
    }
}

/// Returns the interval of two ends at most 2^62 in magnitude, at the exponent `s`. If both ends are 0, the exponent
/// is 0.
#[inline(always)]
fn ival_of_ends(lo: i64, hi: i64, s: i32) -> Ival
    requires { IsIval (interval lo hi s) }
    ensures { result ≡ settled lo hi s }
{
    if lo == 0 && hi == 0 {
        Ival { lo, hi, s: 0 }
    } else {
        Ival { lo, hi, s }
    }
}

/// Returns the interval of two ends that are halved `k` times, rounded outward, at an exponent greater by `k`. `k` is
/// the least shift that brings both ends to at most 2^62 in magnitude.
#[inline(always)]
fn halve_ends(lo: i128, hi: i128, s: i32, k: u32) -> Ival
    requires ordered { lo ≤ℤ hi }
    requires above_least { unsigned_abs hi < 2 ^ 127 }
    requires exponent { unsigned_abs s ≤ 4 * exponent_limit }
    requires least { k ≡ narrow_shift lo hi }
    requires few { k ≤ 66 }
    ensures { result ≡ narrow lo hi s }
{
    ival_of_ends(
        shifted_low_end(lo, k),
        shifted_high_end(hi, k),
        s + k as i32,
    )
}

/// Returns the normalized interval of two ends in order, each at most 2^124 in magnitude, as products and sums of
/// ends are. `% 64` changes nothing: it tells the compiler that the shift is below 64, so that it emits no check.
#[inline(always)]
fn normalize_ends(lo: i128, hi: i128, s: i32) -> Ival
    requires ordered { lo ≤ℤ hi }
    requires lo_bound { unsigned_abs lo ≤ 2 ^ 124 }
    requires hi_bound { unsigned_abs hi ≤ 2 ^ 124 }
    requires exponent { unsigned_abs s ≤ 4 * exponent_limit }
    ensures { result ≡ narrow lo hi s }
{
    let size = greater_magnitude(lo, hi);
    if is_end_magnitude(size) {
        ival_of_ends(end_in_64_bits(lo), end_in_64_bits(hi), s)
    } else {
        halve_ends(lo, hi, s, leading_shift(lo, hi, size) % 64)
    }
}

/// Returns the normalized interval of two ends in order, of which the high one is not -2^127. Only ends past 2^124 in
/// magnitude take the slow path.
fn normalize_wide_ends(lo: i128, hi: i128, s: i32) -> Ival
    requires ordered { lo ≤ℤ hi }
    requires above_least { unsigned_abs hi < 2 ^ 127 }
    requires exponent { unsigned_abs s ≤ 4 * exponent_limit }
    ensures { result ≡ narrow lo hi s }
{
    if is_product_magnitude(lo) && is_product_magnitude(hi) {
        normalize_ends(lo, hi, s)
    } else {
        halve_ends(lo, hi, s, least_shift(lo, hi))
    }
}

/// Returns the normalized interval of any two ends in order. If the high end is -2^127, which cannot be negated, so
/// is the low end, and both are halved first, exactly.
fn normalize_any_ends(lo: i128, hi: i128, s: i32) -> Ival
    requires ordered { lo ≤ℤ hi }
    requires exponent { IsExponent s }
    ensures { result ≡ narrow lo hi s }
{
    let is_least = hi == i128::MIN;
    if is_least {
        normalize_wide_ends(floor_half(lo), floor_half(hi), s + 1)
    } else {
        normalize_wide_ends(lo, hi, s)
    }
}

/// Returns the interval of two ends at most 2^62 in magnitude, at the exponent `s` even if both ends are 0.
fn unnormalized_ival(lo: i128, hi: i128, s: i32) -> Ival
    requires { IsIval (interval lo hi s) }
    ensures { result ≡ interval lo hi s }
{
    Ival {
        lo: end_in_64_bits(lo),
        hi: end_in_64_bits(hi),
        s,
    }
}

// Returns the interval of the decimal `mant * 10^exp` in units of `2^s`, rounded down and up. `s` is from -60 to 0.
// The interval is not normalized.
fn decimal_ival(mant: i64, exp: i16, s: i32) -> Ival
    requires below { s ≤ℤ pos 0 }
    requires above { neg_ℤ (pos 60) ≤ℤ s }
    requires size { unsigned_abs mant * (10 ^ up exp * 2 ^ down s) ≤ 2 ^ 60 * 10 ^ down exp }
    ensures { result ≡ from_decimal mant exp s }
{
    let (lo, hi) = decimal_ends(mant, exp, s);
    unnormalized_ival(lo, hi, s)
}

// Returns the normalized product of two intervals: from the least to the greatest product of their numbers.
// `Ival::mul` adds the promise of what the product holds.
#[inline(always)]
fn product_of_ivals(x: Ival, y: Ival) -> Ival
    requires exponent { IsExponent x.s }
    requires other_exponent { IsExponent y.s }
    ensures { result ≡ product x y }
{
    let s = x.s + y.s;
    let (lo, hi) = product_ends(x.lo, x.hi, y.lo, y.hi);
    normalize_ends(lo, hi, s)
}

// Returns the normalized sum of two intervals, in whichever order their exponents are. An interval of 0 alone leaves
// the other as it is. `Ival::add` adds the promise of what the sum holds.
#[tactic(auto, unfolding(spec_intervals::specs::Interval::sum))]
#[inline(always)]
fn sum_of_ivals(x: Ival, y: Ival) -> Ival
    requires exponent { IsExponent x.s }
    requires other_exponent { IsExponent y.s }
    ensures { result ≡ sum x y }
{
    if x.is_zero() {
        y
    } else if y.is_zero() {
        x
    } else if x.s <= y.s {
        sum_with_coarser(x, y)
    } else {
        sum_with_coarser(y, x)
    }
}

/// Returns the normalized sum of an interval and one whose exponent is the same or greater.
#[inline(always)]
fn sum_with_coarser(x: Ival, y: Ival) -> Ival
    requires order { x.s ≤ℤ y.s }
    requires exponent { IsExponent x.s }
    requires other_exponent { IsExponent y.s }
    ensures { result ≡ sum_up x y }
{
    let at = align_ends(x, y);
    let lo = sum_of_ends(at.lower_lo, at.upper_lo);
    let hi = sum_of_ends(at.lower_hi, at.upper_hi);
    normalize_ends(lo, hi, at.s)
}

// Returns the first interval less the second, normalized: the sum of the first and the second negated. `Ival::sub`
// adds the promise of what the difference holds.
#[tactic(auto, unfolding(spec_intervals::specs::Interval::difference))]
#[inline(always)]
fn difference_of_ivals(x: Ival, y: Ival) -> Ival
    requires exponent { IsExponent x.s }
    requires other_exponent { IsExponent y.s }
    ensures { result ≡ difference x y }
{
    sum_of_ivals(x, y.negation())
}

// Returns the normalized hull of two intervals, in whichever order their exponents are. `Ival::join` adds the promise
// of what the hull holds.
#[tactic(auto, unfolding(spec_intervals::specs::Interval::join))]
#[inline(always)]
fn hull_of_ivals(x: Ival, y: Ival) -> Ival
    requires exponent { IsExponent x.s }
    requires other_exponent { IsExponent y.s }
    ensures { result ≡ join x y }
{
    if x.s <= y.s {
        hull_with_coarser(x, y)
    } else {
        hull_with_coarser(y, x)
    }
}

/// Returns the normalized hull of an interval and one whose exponent is the same or greater.
#[inline(always)]
fn hull_with_coarser(x: Ival, y: Ival) -> Ival
    requires order { x.s ≤ℤ y.s }
    requires exponent { IsExponent x.s }
    requires other_exponent { IsExponent y.s }
    ensures { result ≡ join_up x y }
{
    let at = align_ends(x, y);
    let lo = ordered_ends(at.lower_lo, at.upper_lo).0;
    let hi = ordered_ends(at.lower_hi, at.upper_hi).1;
    normalize_ends(lo, hi, at.s)
}

// Returns the normalized intersection of two intervals that overlap, in whichever order their exponents are.
// `Ival::meet` adds the promise of what the intersection holds.
#[tactic(auto, unfolding(spec_intervals::specs::Interval::meet))]
#[inline(always)]
fn intersection_of_ivals(x: Ival, y: Ival) -> Ival
    requires exponent { IsExponent x.s }
    requires other_exponent { IsExponent y.s }
    requires overlap { Overlaps x y }
    ensures { result ≡ meet x y }
{
    if x.s <= y.s {
        intersection_with_coarser(x, y)
    } else {
        intersection_with_coarser(y, x)
    }
}

/// Returns the normalized intersection of an interval and one that overlaps it, whose exponent is the same or
/// greater.
#[inline(always)]
fn intersection_with_coarser(x: Ival, y: Ival) -> Ival
    requires order { x.s ≤ℤ y.s }
    requires exponent { IsExponent x.s }
    requires other_exponent { IsExponent y.s }
    requires overlap { Overlaps x y }
    ensures { result ≡ meet_up x y }
{
    let at = align_ends(x, y);
    let lo = ordered_ends(at.lower_lo, at.upper_lo).1;
    let hi = ordered_ends(at.lower_hi, at.upper_hi).0;
    normalize_ends(lo, hi, at.s)
}

// Returns the normalized interval of a number times its magnitude, for the numbers of an interval.
// `Ival::signed_square` adds the promise of what it holds.
#[inline(always)]
fn signed_square_of_ival(x: Ival) -> Ival
    requires { IsExponent x.s }
    ensures { result ≡ signed_square x }
{
    let s = x.s + x.s;
    normalize_ends(signed_square_of_end(x.lo), signed_square_of_end(x.hi), s)
}

// Returns `2 / seconds` times the numbers from `lo * 2^s` to `hi * 2^s`, rounded outward and normalized, by a divider
// that is made for this call alone.
#[inline(always)]
fn scale_ends(lo: i128, hi: i128, s: i32, seconds: i64) -> Ival
    requires ordered { lo ≤ℤ hi }
    requires lo_size { unsigned_abs lo < 2 ^ 126 }
    requires hi_size { unsigned_abs hi < 2 ^ 126 }
    requires exponent { IsExponent s }
    requires length { pos 1 ≤ℤ seconds }
    ensures { result ≡ scale lo hi s (unsigned_abs seconds) }
{
    let divider = Divider::of(seconds);
    scale_ends_by(lo, hi, s, &divider)
}

// Returns `2 / seconds` times the numbers from `lo * 2^s` to `hi * 2^s`, rounded outward and normalized, by a divider
// that the caller keeps.
#[inline(always)]
fn scale_ends_by(lo: i128, hi: i128, s: i32, divider: &Divider) -> Ival
    requires ordered { lo ≤ℤ hi }
    requires lo_size { unsigned_abs lo < 2 ^ 126 }
    requires hi_size { unsigned_abs hi < 2 ^ 126 }
    requires exponent { IsExponent s }
    ensures equals { result ≡ scale lo hi s divider.now }
    ensures positive { 1 ≤ divider.now }
{
    normalize_wide_ends(divider.down(2 * lo), divider.up(2 * hi), s)
}

/// The ends of two intervals at one exponent `s`. Those of the lower interval are rounded outward; those of the upper
/// one stand for the same numbers as before.
#[derive(Clone, Copy)]
struct Aligned {
    lower_lo: i128,
    lower_hi: i128,
    upper_lo: i128,
    upper_hi: i128,
    s: i32,
}

/// Returns the ends of two intervals at one exponent, of which `y` has the same exponent as `x` or a greater one. The
/// ends of `y` are raised by at most 60 bits, which keeps them exact; those of `x` are rounded outward by the bits
/// that are left.
#[inline(always)]
fn align_ends(x: Ival, y: Ival) -> Aligned
    requires order { x.s ≤ℤ y.s }
    requires exponent { IsExponent x.s }
    requires other_exponent { IsExponent y.s }
    ensures { IsAligned x y result }
{
    let d = exponent_gap(x.s, y.s);
    let m = d.min(LIFT_LIMIT);
    let k = d - m;
    let s = x.s + k as i32;
    let (lower_lo, lower_hi) = (floor_shift(x.lo, k), ceil_shift(x.hi, k));
    let (upper_lo, upper_hi) = (raise_end(y.lo, m), raise_end(y.hi, m));
    Aligned {
        lower_lo,
        lower_hi,
        upper_lo,
        upper_hi,
        s,
    }
}

/// The ends of an interval at an exponent that is no lower than its own, rounded outward.
#[derive(Clone, Copy)]
struct Raised {
    lo: i128,
    hi: i128,
    s: i32,
}

/// Returns the ends of an interval at an exponent of at least `s`, rounded outward. An interval at a greater exponent
/// keeps it and its ends.
fn raise_ival(x: Ival, s: i32) -> Raised
    requires exponent { IsExponent x.s }
    requires other_exponent { IsExponent s }
    ensures { IsRaised s x result }
{
    let k = exponent_rise(x.s, s);
    let (lo, hi) = (floor_shift(x.lo, k), ceil_shift(x.hi, k));
    Raised {
        lo,
        hi,
        s: x.s + k as i32,
    }
}

/// Returns the sum of two intervals at the greater of both exponents, each rounded outward to it, and normalized.
fn sum_at_greater_exponent(x: Ival, y: Ival) -> Ival
    requires exponent { IsExponent x.s }
    requires other_exponent { IsExponent y.s }
    ensures { result ≡ raised_sum x y }
{
    let s = greater_exponent(x.s, y.s);
    let (own, more) = (raise_ival(x, s), raise_ival(y, s));
    normalize_ends(
        sum_of_ends(own.lo, more.lo),
        sum_of_ends(own.hi, more.hi),
        s,
    )
}
