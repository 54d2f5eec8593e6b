// Quadratic polynomials within limits that keep all sums within 128 bits.
ghost use Rattle.std.specs.Prelude.{◌≡◌, ◌≤◌, unsigned_abs};
ghost use Rattle.spec_scalars.specs.declared.limits.TheConstants.{MAX_TIME};
ghost use Rattle.spec_scalars.specs.Quads.{IsSmall, is_small, quad_step, small_quadratic};
ghost use Rattle.gf_uds.specs.Bounds.{quad_bound};

use crate::squares::{
    Bound, max_square_between, min_square_between, product_bound, quadratic_step, sum,
};
use spec_scalars::{MAX_FACTOR, MAX_SUMMAND};
use std::marker::Model;

/// A polynomial p t^2 + q t + r at times t of at most 2^40 in magnitude, where p and q are at most 2^20 in magnitude
/// and r at most 2^62.
#[derive(Clone, Copy, PartialEq, Eq)]
pub struct Quad {
    p: i64,
    q: i64,
    r: i64,
}

impl Model for Quad {
    ghost use Rattle.spec_scalars.specs.Quads.{IsSmall, Quadratic};

    ghost Value = { Quadratic };

    ghost view = { λ k. record { p = k.p; q = k.q; r = k.r } };

    ghost invariant = { λ k. IsSmall (record { p = k.p; q = k.q; r = k.r }) };

    ghost inverse = { λ k. record { p = k.p; q = k.q; r = k.r } };
}

// Tells whether the numbers of a polynomial p t^2 + q t + r are within the limits of a `Quad`, in magnitude: p and q
// are at most `MAX_FACTOR`, and r is at most `MAX_SUMMAND`.
fn are_within_limits(p: i64, q: i64, r: i64) -> bool
    ensures { result ≡ is_small (record { p = p; q = q; r = r }) }
{
    p.unsigned_abs() <= MAX_FACTOR
        && q.unsigned_abs() <= MAX_FACTOR
        && r.unsigned_abs() <= MAX_SUMMAND
}

impl Quad {
    /// Returns the polynomial p t^2 + q t + r, or none if p or q is greater than 2^20 in magnitude or r than 2^62.
    pub fn new(p: i64, q: i64, r: i64) -> Option<Quad>
        ensures { result ≡ small_quadratic p q r }
    {
        if are_within_limits(p, q, r) {
            Some(Quad { p, q, r })
        } else {
            None
        }
    }

    // Returns the polynomial's numbers p, q and r as 128-bit numbers, in which its values are computed without
    // overflow.
    fn coefficients(&self) -> (i128, i128, i128)
        ensures p { result.0 ≡ self.now.p }
        ensures q { result.1 ≡ self.now.q }
        ensures r { result.2 ≡ self.now.r }
        ensures small { IsSmall self.now }
    {
        (i128::from(self.p), i128::from(self.q), i128::from(self.r))
    }

    /// Returns a bound of the polynomial's values at the times from `a` to `b`: for `Bound::Low` a number that no
    /// value is below, for `Bound::High` one that no value is above. Each of the three terms is bounded by itself.
    pub(crate) fn bound_over(&self, bound: Bound, a: i128, b: i128) -> i128
        requires first { unsigned_abs a ≤ MAX_TIME }
        requires last { unsigned_abs b ≤ MAX_TIME }
        ensures { result ≡ quad_bound bound self.now a b }
    {
        let (p, q, r) = self.coefficients();
        let square = product_bound(bound, p, min_square_between(a, b), max_square_between(a, b));
        sum(sum(square, product_bound(bound, q, a, b)), r)
    }

    /// Returns the polynomial's change from time `t` to `t + 1`.
    pub(crate) fn step_at(&self, t: i128) -> i128
        requires { unsigned_abs t ≤ MAX_TIME }
        ensures { result ≡ quad_step self.now t }
    {
        let (p, q, _) = self.coefficients();
        quadratic_step(p, q, t)
    }
}
