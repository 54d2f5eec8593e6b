// Operations on models: each returns a model near which all results of the operation on near numbers are.

ghost use Rattle.std.specs.Prelude.{◌≡◌, ◌≤◌, ◌+◌, ◌*◌, ◌≤ℤ◌, IfSome, unsigned_abs};
ghost use Rattle.spec_models.specs.Models.{bulk, negated, sizes, widened};
ghost use Rattle.span_models.specs.Sizes.{size_limit, terms};
ghost use Rattle.span_models.specs.Columns.{IsConstant, tail_sizes};
ghost use Rattle.span_models.specs.Near.{IsSumOf, IsDifferenceOf, IsProductOf};

use crate::columns::{omitted_size, product_coefficients};
use crate::constants::{coefficient_multiples, first_coefficient, is_constant};
use crate::model::Model;
use crate::settling::settled;
use crate::sums::{coefficient_sums, error_in_coarser_unit, exponent_gap, negated_coefficients};
use spec_models::model_laws::{changes, lists, operations};

/// The greatest error of a model in its units, 2^60.
const SIZE_LIMIT: u64 = 1 << 60;

impl Model {
    /// Returns a model near which the products of numbers near two models are. Coefficients past `TERMS` go into its
    /// error. None where the exponent passes the limit.
    pub fn product(&self, other: &Model) -> Option<Model>
        ensures { IfSome result (λ m. IsProductOf m self.now other.now) }
    {
        if is_constant(self.coefficients()) {
            product_with_constant(self, other)
        } else if is_constant(other.coefficients()) {
            product_with_constant(other, self)
        } else {
            polynomial_product(self, other)
        }
    }

    /// Returns a model near which the sums of numbers near two models are, at the greater of their exponents or above.
    /// None where the exponent passes the limit.
    pub fn sum(&self, other: &Model) -> Option<Model>
        ensures { IfSome result (λ m. IsSumOf m self.now other.now) }
    {
        if self.exponent() <= other.exponent() {
            sum_at_higher_exponent(self, other)
        } else {
            sum_at_higher_exponent(other, self)
        }
    }

    /// Returns a model near which the differences of numbers near two models are, at the greater of their exponents or
    /// above. None where the exponent passes the limit.
    pub fn difference(&self, other: &Model) -> Option<Model>
        ensures { IfSome result (λ m. IsDifferenceOf m self.now other.now) }
    {
        operations();
        self.sum(&other.negated())
    }

    /// Returns the model with an error that is greater by `units`. None where the error passes its limit, 2^60.
    pub fn widened(&self, units: u64) -> Option<Model>
        ensures { IfSome result (λ m. m ≡ widened units self.now) }
    {
        let error = self.error().checked_add(units)?;
        if error <= SIZE_LIMIT {
            Some(self.with_error(error))
        } else {
            None
        }
    }

    /// Returns a bound, in units, of the magnitude of all numbers near the model: the sum of the coefficients'
    /// magnitudes and the error.
    pub fn bulk(&self) -> u64
        ensures { result ≡ bulk self.now }
    {
        self.size() + self.error()
    }

    /// Returns the model of the negated numbers, with the same error and exponent.
    pub fn negated(&self) -> Model
        ensures { result ≡ negated self.now }
    {
        Model::of_parts(
            negated_coefficients(self.coefficients()),
            self.error(),
            self.exponent(),
        )
    }
}

// Returns a model near which the products of numbers near two models are, by all pairs of their coefficients. None
// where the exponent passes the limit.
#[inline(always)]
fn polynomial_product(m: &Model, n: &Model) -> Option<Model>
    ensures { IfSome result (λ k. IsProductOf k m.now n.now) }
{
    operations();
    changes();
    let wide = product_coefficients(m.coefficients(), n.coefficients());
    let error = product_error(m, n);
    settled(&wide, error, m.exponent() + n.exponent())
}

// Returns a model near which the products of numbers near two models are, the first of which has no coefficient but the
// constant one: ten multiplications are enough. None where the exponent passes the limit.
#[inline(always)]
fn product_with_constant(c: &Model, m: &Model) -> Option<Model>
    requires constant { IsConstant c.now.coefficients }
    ensures { IfSome result (λ k. IsProductOf k c.now m.now) }
{
    operations();
    changes();
    lists();
    let first = first_coefficient(c.coefficients());
    let wide = coefficient_multiples(first, m.coefficients());
    let error = constant_product_error(first, c.error(), m);
    settled(&wide, error, c.exponent() + m.exponent())
}

// Returns the error of the product of a constant and a model, in units of the product of theirs: the constant is
// `first`, within `error` units.
#[inline(always)]
fn constant_product_error(first: i64, error: u64, m: &Model) -> u128
    requires first { unsigned_abs first ≤ size_limit }
    requires error { error ≤ size_limit }
    ensures { result ≡ unsigned_abs first * m.now.error + sizes m.now.coefficients * error
        + error * m.now.error }
{
    let by_first = first.unsigned_abs() as u128 * m.error() as u128;
    let by_second = m.size() as u128 * error as u128;
    let by_both = error as u128 * m.error() as u128;
    by_first + by_second + by_both
}

// Returns the error of the product of two models, in units of the product of theirs. It takes in the coefficients past
// `TERMS`, which are left out.
#[inline(always)]
fn product_error(a: &Model, b: &Model) -> u128
    ensures { result ≡ sizes a.now.coefficients * b.now.error + sizes b.now.coefficients * a.now.error
        + a.now.error * b.now.error + tail_sizes a.now.coefficients b.now.coefficients terms }
{
    let by_first = a.size() as u128 * b.error() as u128;
    let by_second = b.size() as u128 * a.error() as u128;
    let by_both = a.error() as u128 * b.error() as u128;
    by_first + by_second + by_both + omitted_size(a.coefficients(), b.coefficients())
}

// Returns a model near which the sums of numbers near two models are, at the exponent of the second or above. The first
// has no greater exponent. None where the exponent passes the limit.
#[inline(always)]
fn sum_at_higher_exponent(lower: &Model, upper: &Model) -> Option<Model>
    requires order { lower.now.exponent ≤ℤ upper.now.exponent }
    ensures { IfSome result (λ m. IsSumOf m lower.now upper.now) }
{
    operations();
    changes();
    let k = exponent_gap(lower.exponent(), upper.exponent());
    let wide = coefficient_sums(lower.coefficients(), k, upper.coefficients());
    let error = error_in_coarser_unit(lower.error(), k) as u128 + upper.error() as u128;
    settled(&wide, error, upper.exponent())
}
