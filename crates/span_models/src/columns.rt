// The coefficients of the product of two polynomials, in 128 bits, and sums of magnitudes of coefficients.

ghost use Rattle.std.specs.Prelude.{◌≡◌, ◌≤◌, ◌<◌, ◌*◌, ◌^◌, ◌*ℤ◌, unsigned_abs};
ghost use Rattle.span_models.specs.Columns.{column, AreColumns, tail_sizes};
ghost use Rattle.spec_models.specs.Models.{sizes};
ghost use Rattle.span_models.specs.Sizes.{size_limit, terms, AreWithin};

use crate::model::TERMS;

/// Returns the coefficients of `u^0` to `u^9` of the product of two polynomials with these coefficients. Those of
/// higher powers are left out: `omitted_size` bounds them.
#[inline(always)]
pub(crate) fn product_coefficients(a: &[i64; TERMS], b: &[i64; TERMS]) -> [i128; TERMS]
    requires first { AreWithin size_limit a.now }
    requires second { AreWithin size_limit b.now }
    ensures columns { AreColumns a.now b.now terms result }
    ensures small { AreWithin (terms * 2 ^ 120) result }
{
    let mut sums = [0; TERMS];
    for k in 0..TERMS {
        sums[k] = product_coefficient(a, b, k);
    }
    sums
}

// Returns the coefficient of `u^k` in the product of two polynomials: the sum of `a[i] b[k - i]` over all `i` up to `k`.
#[inline(always)]
fn product_coefficient(a: &[i64; TERMS], b: &[i64; TERMS], k: usize) -> i128
    requires first { AreWithin size_limit a.now }
    requires second { AreWithin size_limit b.now }
    requires place { k < terms }
    ensures equals { result ≡ column a.now b.now k }
    ensures small { unsigned_abs result ≤ terms * 2 ^ 120 }
{
    let mut sum: i128 = 0;
    for i in 0..k + 1 {
        sum += coefficient_product(a[i], b[k - i]);
    }
    sum
}

/// Returns the sum of `|a[i]| |b[j]|` over all `i + j` of at least `TERMS`. It bounds what the product of two polynomials
/// has beyond its first `TERMS` coefficients, and goes into the error of a product of models.
#[inline(always)]
pub(crate) fn omitted_size(a: &[i64; TERMS], b: &[i64; TERMS]) -> u128
    requires first { AreWithin size_limit a.now }
    requires second { AreWithin size_limit b.now }
    ensures equals { result ≡ tail_sizes a.now b.now terms }
    ensures small { result ≤ terms * (terms * 2 ^ 120) }
{
    let mut back: u64 = 0;
    let mut sum: u128 = 0;
    for i in 0..TERMS {
        sum += a[i].unsigned_abs() as u128 * back as u128;
        back += b[TERMS - 1 - i].unsigned_abs();
    }
    sum
}

/// Returns the sum of the magnitudes of the coefficients of a polynomial, which bounds its values from -1 to 1.
#[inline(always)]
pub(crate) fn magnitude_sum(a: &[i64; TERMS]) -> u64
    requires small { AreWithin size_limit a.now }
    ensures equals { result ≡ sizes a.now }
    ensures small { result ≤ terms * 2 ^ 60 }
{
    let mut sum: u64 = 0;
    for i in 0..TERMS {
        sum += a[i].unsigned_abs();
    }
    sum
}

/// Returns the exact product of two coefficients, each at most 2^60 in magnitude. Both are extended to 128 bits only so
/// that the compiler takes one multiplication of 64-bit numbers.
#[inline(always)]
pub(crate) fn coefficient_product(a: i64, b: i64) -> i128
    requires a_small { unsigned_abs a ≤ size_limit }
    requires b_small { unsigned_abs b ≤ size_limit }
    ensures equals { result ≡ a *ℤ b }
    ensures small { unsigned_abs result ≤ 2 ^ 120 }
{
    a as i128 * b as i128
}
