// Models without a coefficient but the first, and the products of models with them.

ghost use Rattle.std.specs.Prelude.{◌≡◌, ◌≤◌, ◌<◌, ℕ, pos, slice_index_or, length, ◌*ℤ◌, unsigned_abs, IsTrue};
ghost use Rattle.span_models.specs.Columns.{IsConstant};
ghost use Rattle.span_models.specs.Sizes.{size_limit, terms, AreWithin};

use crate::columns::coefficient_product;
use crate::model::TERMS;

/// Tells whether a polynomial is constant: all its coefficients but the first are 0. Only `true` is proved to mean so,
/// since `false` merely leads to the general product, which is right for constants too.
#[inline(always)]
pub(crate) fn is_constant(a: &[i64; TERMS]) -> bool
    requires small { AreWithin size_limit a.now }
    ensures { IsTrue result → IsConstant a.now }
{
    for k in 1..TERMS {
        if a[k] != 0 {
            return false;
        }
    }
    true
}

/// Returns the first coefficient of a polynomial, which is its value at the argument 0.
#[inline(always)]
pub(crate) fn first_coefficient(a: &[i64; TERMS]) -> i64
    requires small { AreWithin size_limit a.now }
    ensures equals { result ≡ slice_index_or a.now 0 (pos 0) }
    ensures small { unsigned_abs result ≤ size_limit }
{
    a[0]
}

/// Returns each coefficient of a polynomial times a number, in order: the coefficients of the product with a constant.
#[inline(always)]
pub(crate) fn coefficient_multiples(first: i64, a: &[i64; TERMS]) -> [i128; TERMS]
    requires first { unsigned_abs first ≤ size_limit }
    requires small { AreWithin size_limit a.now }
    ensures products { (k : ℕ) → k < terms
        → slice_index_or result k (pos 0) ≡ first *ℤ slice_index_or a.now k (pos 0) }
    ensures count { length result ≡ terms }
{
    let mut products = [0; TERMS];
    for i in 0..TERMS {
        products[i] = coefficient_product(first, a[i]);
    }
    products
}
