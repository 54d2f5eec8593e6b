// Models that cover what the rules of intervals make of covered intervals. A model covers an interval at an argument
// where all numbers of the interval are near it there.

ghost use Rattle.std.specs.Prelude.{◌≤◌, ◌+◌, ◌*◌, ◌^◌, ℤ, pos, neg_ℤ, ◌*ℤ◌, ◌≤ℤ◌, IfSome, IsTrue};
ghost use Rattle.spec_intervals.specs.Fraction.{fraction_add, fraction_mul};
ghost use Rattle.spec_intervals.specs.Interval.{Interval, sum, difference, product, signed_square};
ghost use Rattle.spec_chebyshev.specs.Differences.{IsArgument};
ghost use Rattle.spec_models.specs.Models.{Covers};
ghost use Rattle.spec_covers.specs.Combining.{IsNotNegative, IsNotPositive, greatest};
ghost use Rattle.span_models.specs.Covering.{IsWidenedFor};

use crate::model::Model;
use crate::sums::exponent_gap;
use spec_covers::laws::{
    operations_are_covered, signed_squares_are_products, units_that_are_enough,
};
use spec_models::model_laws::operations;

impl Model {
    /// Returns a model that covers the sum of any two intervals that the two models cover. None where an exponent or
    /// an error passes its limit.
    pub fn covering_sum(&self, other: &Model) -> Option<Model>
        ensures { IfSome result (λ m. (p q : ℤ) (x y : Interval) → IsArgument p q
            → x.lo ≤ℤ x.hi → y.lo ≤ℤ y.hi
            → Covers self.now p q x → Covers other.now p q y → Covers m p q (sum x y)) }
    {
        operations_are_covered();
        match self.sum(other) {
            Some(near) => widen_by_sum_rounding(&near, self, other),
            None => None,
        }
    }

    /// Returns a model that covers the difference of any two intervals that the two models cover. None where an
    /// exponent or an error passes its limit.
    pub fn covering_difference(&self, other: &Model) -> Option<Model>
        ensures { IfSome result (λ m. (p q : ℤ) (x y : Interval) → IsArgument p q
            → x.lo ≤ℤ x.hi → y.lo ≤ℤ y.hi
            → Covers self.now p q x → Covers other.now p q y → Covers m p q (difference x y)) }
    {
        operations_are_covered();
        match self.difference(other) {
            Some(near) => widen_by_sum_rounding(&near, self, other),
            None => None,
        }
    }

    /// Returns a model that covers the product of any two intervals that the two models cover. None where an exponent
    /// or an error passes its limit.
    pub fn covering_product(&self, other: &Model) -> Option<Model>
        ensures { IfSome result (λ m. (p q : ℤ) (x y : Interval) → IsArgument p q
            → x.lo ≤ℤ x.hi → y.lo ≤ℤ y.hi
            → Covers self.now p q x → Covers other.now p q y → Covers m p q (product x y)) }
    {
        operations_are_covered();
        match self.product(other) {
            Some(near) => widen_by_product_rounding(&near, self, other),
            None => None,
        }
    }

    /// Returns a model that covers the signed square of any interval that the model covers. None where an exponent or
    /// an error passes its limit, or where the first coefficient does not show that all numbers near the model have
    /// one sign.
    pub fn covering_square(&self) -> Option<Model>
        ensures { IfSome result (λ m. (p q : ℤ) (x : Interval) → IsArgument p q
            → x.lo ≤ℤ x.hi → Covers self.now p q x → Covers m p q (signed_square x)) }
    {
        if is_not_negative(self) {
            square_of_nonnegative(self)
        } else if is_not_positive(self) {
            square_of_nonpositive(self)
        } else {
            None
        }
    }
}

// Returns a model that covers the signed squares of the intervals that a model covers, near which no number is below
// 0. They are plain squares then, so that it is made of the model times itself. None where an exponent or an error
// passes its limit.
fn square_of_nonnegative(m: &Model) -> Option<Model>
    requires { IsNotNegative m.now }
    ensures { IfSome result (λ l. (p q : ℤ) (x : Interval) → IsArgument p q
        → x.lo ≤ℤ x.hi → Covers m.now p q x → Covers l p q (signed_square x)) }
{
    operations_are_covered();
    signed_squares_are_products();
    match m.product(m) {
        Some(near) => widen_by_product_rounding(&near, m, m),
        None => None,
    }
}

// Returns a model that covers the signed squares of the intervals that a model covers, near which no number is above
// 0. They are negated squares then, so that it is made of the model times itself, negated. None where an exponent or
// an error passes its limit.
fn square_of_nonpositive(m: &Model) -> Option<Model>
    requires { IsNotPositive m.now }
    ensures { IfSome result (λ l. (p q : ℤ) (x : Interval) → IsArgument p q
        → x.lo ≤ℤ x.hi → Covers m.now p q x → Covers l p q (signed_square x)) }
{
    operations();
    operations_are_covered();
    signed_squares_are_products();
    match m.product(m) {
        Some(near) => widen_by_product_rounding(&near.negated(), m, m),
        None => None,
    }
}

// Tells whether no number near a model is below 0, as its first coefficient shows: it is at least as great as all
// other coefficients and the error together. `false` says nothing.
fn is_not_negative(m: &Model) -> bool
    ensures { IsTrue result → IsNotNegative m.now }
{
    signed_squares_are_products();
    is_at_most_twice(m.bulk(), m.coefficients()[0])
}

// Tells whether no number near a model is above 0, as its first coefficient shows: negated, it is at least as great as
// all other coefficients and the error together. `false` says nothing.
fn is_not_positive(m: &Model) -> bool
    ensures { IsTrue result → IsNotPositive m.now }
{
    signed_squares_are_products();
    is_at_most_minus_twice(m.bulk(), m.coefficients()[0])
}

// Tells whether a magnitude is at most twice a number. `false` is not claimed to mean anything.
fn is_at_most_twice(size: u64, z: i64) -> bool
    ensures { IsTrue result → pos size ≤ℤ (pos 2 *ℤ z) }
{
    size as i128 <= 2 * (z as i128)
}

// Tells whether a magnitude is at most twice a negated number. `false` is not claimed to mean anything.
fn is_at_most_minus_twice(size: u64, z: i64) -> bool
    ensures { IsTrue result → pos size ≤ℤ neg_ℤ (pos 2 *ℤ z) }
{
    size as i128 <= -(2 * (z as i128))
}

// Returns the model `k` of a sum or difference of numbers near `m` and `n`, its error widened by what the rules of
// intervals round of such a sum. None where the exponent of `k` is below one of theirs, or the error passes the limit.
fn widen_by_sum_rounding(k: &Model, m: &Model, n: &Model) -> Option<Model>
    ensures { IfSome result
        (IsWidenedFor (fraction_add (greatest m.now) (greatest n.now)) k.now) }
{
    units_that_are_enough();
    if k.exponent() < m.exponent() {
        None
    } else if k.exponent() < n.exponent() {
        None
    } else {
        k.widened(sum_rounding_units(m.bulk(), n.bulk()))
    }
}

// Returns the model `k` of products of numbers near `m` and `n`, its error widened by what the rules of intervals round
// of such a product. None where the exponent of `k` is below the sum of theirs, or the error passes the limit.
fn widen_by_product_rounding(k: &Model, m: &Model, n: &Model) -> Option<Model>
    ensures { IfSome result
        (IsWidenedFor (fraction_mul (greatest m.now) (greatest n.now)) k.now) }
{
    units_that_are_enough();
    let exponent = m.exponent() + n.exponent();
    if k.exponent() < exponent {
        return None;
    }
    let gap = exponent_gap(exponent, k.exponent());
    match product_rounding_units(m.bulk(), n.bulk(), gap) {
        Some(units) => k.widened(units),
        None => None,
    }
}

// Returns a whole number of units that is at least the sum of two magnitudes divided by 2^58, which is the most that
// rounding adds to an interval of sums.
fn sum_rounding_units(m: u64, n: u64) -> u64
    ensures { m + n ≤ result * 2 ^ 58 }
{
    ((m as u128 + n as u128) >> 58) as u64 + 1
}

// Returns a whole number of units that is at least the product of two magnitudes divided by 2^58, where a unit is 2^gap
// times that of the product. Rounding adds no more to an interval of products. None where the number is above 2^60.
fn product_rounding_units(m: u64, n: u64, gap: u32) -> Option<u64>
    ensures { IfSome result (λ units. m * n ≤ units * 2 ^ (58 + gap)) }
{
    let units = ((m as u128 * n as u128) >> (58 + gap.min(69))) + 1;
    if units <= 1 << 60 {
        Some(units as u64)
    } else {
        None
    }
}
