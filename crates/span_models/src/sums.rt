// Sums and multiples of coefficients, and what a coarser unit makes of an error.

ghost use Rattle.std.specs.Prelude.{◌≡◌, ◌≤◌, ◌+◌, ◌*◌, ◌^◌, pos, ◌+ℤ◌, ◌≤ℤ◌, neg_ℤ, unsigned_abs, length};
ghost use Rattle.spec_numbers.specs.Numbers.{floor_div};
ghost use Rattle.spec_models.specs.Models.{added, halved, opposite};
ghost use Rattle.span_models.specs.Sizes.{size_limit, exponent_limit, terms, AreWithin};
ghost use Rattle.span_models.specs.Settled.{raised_error};

use crate::model::TERMS;
use crate::settling::ROUNDING;

/// Returns the coefficients of the sum of two polynomials, whose first has a unit that is 2^k times finer: each of its
/// coefficients is divided by 2^k and rounded down, and added to that of the second.
#[inline(always)]
pub(crate) fn coefficient_sums(a: &[i64; TERMS], k: u32, b: &[i64; TERMS]) -> [i128; TERMS]
    requires first { AreWithin size_limit a.now }
    requires second { AreWithin size_limit b.now }
    ensures equals { result ≡ added (halved k a.now) b.now }
    ensures count { length result ≡ terms }
{
    let mut sums = [0; TERMS];
    for i in 0..TERMS {
        sums[i] = coefficient_sum(a[i], k, b[i]);
    }
    sums
}

// Returns `floor(a / 2^k) + b`. The shift is capped at 63, past which the quotient does not change.
#[inline(always)]
fn coefficient_sum(a: i64, k: u32, b: i64) -> i128
    requires a_small { unsigned_abs a ≤ size_limit }
    requires b_small { unsigned_abs b ≤ size_limit }
    ensures equals { result ≡ floor_div a (2 ^ k) +ℤ b }
    ensures small { unsigned_abs result ≤ 2 ^ 61 }
{
    ((a >> k.min(63)) + b) as i128
}

/// Returns an error in a unit that is 2^k times coarser, for any `k`: rounded up, and one unit more for each coefficient
/// that is rounded. It stays as it is for a `k` of 0.
#[inline(always)]
pub(crate) fn error_in_coarser_unit(error: u64, k: u32) -> u64
    requires { error ≤ size_limit }
    ensures equals { result ≡ raised_error k error }
    ensures small { result ≤ size_limit + terms + 1 }
{
    if k == 0 {
        error
    } else {
        (error >> k.min(63)) + ROUNDING
    }
}

/// Returns by how much the exponent `high` is above `low`.
#[inline(always)]
pub(crate) fn exponent_gap(low: i32, high: i32) -> u32
    requires order { low ≤ℤ high }
    requires low_small { unsigned_abs low ≤ 2 * exponent_limit }
    requires high_small { unsigned_abs high ≤ 2 * exponent_limit }
    ensures { low +ℤ pos result ≡ high }
{
    (high - low) as u32
}

/// Returns each coefficient of a polynomial negated, in order.
#[inline(always)]
pub(crate) fn negated_coefficients(a: &[i64; TERMS]) -> [i64; TERMS]
    requires { AreWithin size_limit a.now }
    ensures equals { result ≡ opposite a.now }
    ensures small { AreWithin size_limit result }
{
    let mut negated = [0; TERMS];
    for i in 0..TERMS {
        negated[i] = negated_coefficient(a[i]);
    }
    negated
}

// Returns a coefficient negated, which is at most 2^60 in magnitude.
#[inline(always)]
fn negated_coefficient(z: i64) -> i64
    requires { unsigned_abs z ≤ size_limit }
    ensures equals { result ≡ neg_ℤ z }
    ensures small { unsigned_abs result ≤ size_limit }
{
    -z
}
