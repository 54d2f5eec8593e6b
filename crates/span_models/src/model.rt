// The model: a polynomial with a bound of error.

ghost use Rattle.std.specs.Prelude.{◌≡◌, ◌≤◌, ◌*◌, ◌^◌};
ghost use Rattle.spec_models.specs.Models.{model, sizes};
ghost use Rattle.span_models.specs.Sizes.{IsSmall, size_limit, terms};

use crate::columns::magnitude_sum;

/// The number of coefficients of a model.
pub const TERMS: usize = 10;

/// A polynomial of `u`, from -1 to 1, with a bound of error: coefficients of `u^0`, `u^1`, .., and the error, all in
/// units of `2^exponent`. A number is near the model at `u` where it is within the error of the polynomial's value.
#[derive(Clone, Copy)]
pub struct Model {
    coefficients: [i64; TERMS],
    /// The sum of the coefficients' magnitudes, which is kept because each product and each rounding asks for it.
    size: u64,
    error: u64,
    exponent: i32,
}

impl std::marker::Model for Model {
    ghost use Rattle.std.proofs.Common.{sym};
    ghost use Rattle.spec_models.specs.Models.{Model as Polynomial, sizes};
    ghost use Rattle.span_models.specs.Sizes.{IsKept};

    ghost Value = { Polynomial };

    ghost view = { λ a. record { coefficients = a.coefficients; error = a.error; exponent = a.exponent } };

    ghost invariant = { λ a. IsKept (record { coefficients = a.coefficients; error = a.error; exponent = a.exponent }) a.size };

    ghost inverse = { λ t. record { coefficients = t.coefficients; size = sizes t.coefficients; error = t.error; exponent = t.exponent } };

    ghost inverse_ok = { λ a kept i. record { coefficients = a.coefficients; size = sym kept.same i; error = a.error; exponent = a.exponent } };
}

impl Model {
    /// Makes the model of these numbers, which are within its limits.
    #[inline(always)]
    pub(crate) fn of_parts(coefficients: [i64; TERMS], error: u64, exponent: i32) -> Model
        requires small { IsSmall (model coefficients error exponent) }
        ensures { result ≡ model coefficients error exponent }
    {
        let size = magnitude_sum(&coefficients);
        Model {
            coefficients,
            size,
            error,
            exponent,
        }
    }

    /// Returns the model with another error, at most 2^60 units.
    #[inline(always)]
    pub(crate) fn with_error(&self, error: u64) -> Model
        requires { error ≤ size_limit }
        ensures { result ≡ model self.now.coefficients error self.now.exponent }
    {
        Model {
            coefficients: self.coefficients,
            size: self.size,
            error,
            exponent: self.exponent,
        }
    }

    /// Returns the coefficients of `u^0`, `u^1`, .., in units of `2^exponent`.
    #[inline(always)]
    pub fn coefficients(&self) -> &[i64; TERMS]
        ensures equals { result.now ≡ self.now.coefficients }
        ensures small { IsSmall self.now }
    {
        &self.coefficients
    }

    /// Returns the sum of the magnitudes of the coefficients, which bounds the polynomial from -1 to 1, in units of
    /// `2^exponent`.
    #[inline(always)]
    pub(crate) fn size(&self) -> u64
        ensures equals { result ≡ sizes self.now.coefficients }
        ensures small { result ≤ terms * 2 ^ 60 }
    {
        self.size
    }

    /// Returns the bound of error, in units of `2^exponent`.
    #[inline(always)]
    pub fn error(&self) -> u64
        ensures equals { result ≡ self.now.error }
        ensures small { IsSmall self.now }
    {
        self.error
    }

    /// Returns the exponent of 2 of the unit of all numbers of the model.
    #[inline(always)]
    pub fn exponent(&self) -> i32
        ensures equals { result ≡ self.now.exponent }
        ensures small { IsSmall self.now }
    {
        self.exponent
    }
}
