// Models made of single numbers, of lines and of intervals.

ghost use Rattle.std.specs.Prelude.{◌≡◌, ◌≤◌, ◌<◌, ◌*◌, ◌^◌, ℤ, ℕ, pos, ◌*ℤ◌, ◌+ℤ◌, ◌-ℤ◌, ◌≤ℤ◌, unsigned_abs, IfSome, [], ◌∷◌, length};
ghost use Rattle.spec_numbers.specs.Numbers.{floor_div};
ghost use Rattle.spec_chebyshev.specs.Differences.{IsArgument};
ghost use Rattle.spec_models.specs.Models.{Covers, coefficient, model};
ghost use Rattle.span_models.specs.Sizes.{terms};
ghost use Rattle.span_models.specs.Settled.{Reaches};
ghost use Rattle.span_models.specs.Making.{IsMiddle};

use crate::model::{Model, TERMS};
use crate::settling::settled;
use ival_core::Ival;
use spec_models::model_laws::{changes, constants, lists};

/// The greatest magnitude of an exponent at which a number is taken, 2^20.
const EXPONENT_LIMIT: u32 = 1 << 20;

impl Model {
    /// Returns a model near which all numbers are that are within `error` of `first + second u`, all in units of
    /// `2^exponent`. Its own unit is as fine as its numbers allow. None where its exponent passes the limit.
    pub fn of_line(first: i64, second: i64, error: u64, exponent: i32) -> Option<Model>
        requires { unsigned_abs exponent ≤ 2 ^ 20 }
        ensures { IfSome result (λ m. Reaches (model (first ∷ second ∷ []) error exponent) m) }
    {
        changes();
        lists();
        let j = spare_bits(greatest_magnitude(first, second, error));
        let wide = line_coefficients(power_multiple(first, j), power_multiple(second, j));
        settled(&wide, error_in_finer_unit(error, j), exponent - j as i32)
    }

    /// Returns a model that covers an interval at each argument: the model of its middle, with half its width as
    /// error. None where the exponent passes the limit.
    pub fn of_interval(x: Ival) -> Option<Model>
        ensures { IfSome result (λ m. (p q : ℤ) → IsArgument p q → Covers m p q x) }
    {
        constants();
        lists();
        let (lo, hi, exponent) = x.parts();
        if exponent.unsigned_abs() <= EXPONENT_LIMIT {
            let (middle, error) = middle_and_distance(lo, hi);
            Model::of_line(middle, 0, error, exponent)
        } else {
            None
        }
    }
}

// Returns the greatest magnitude of two coefficients and an error. No contract says so, because the number only chooses
// the unit of a model, and each unit gives a right one.
#[inline(always)]
fn greatest_magnitude(first: i64, second: i64, error: u64) -> u64 {
    first.unsigned_abs().max(second.unsigned_abs()).max(error)
}

// Returns by how many powers of 2 the unit can be made finer so that a number of this magnitude stays below 2^59: at
// most 58, and 0 for a magnitude of 0. Only the greatest result is claimed, which no shift may pass.
#[inline(always)]
fn spare_bits(size: u64) -> u32
    ensures { result ≤ 58 }
{
    if size >= 1 << 58 {
        0
    } else if size == 0 {
        0
    } else {
        58 - size.ilog2()
    }
}

// Returns `2^j z`, the coefficient `z` in a unit that is 2^j times finer.
#[inline(always)]
fn power_multiple(z: i64, j: u32) -> i128
    requires { j ≤ 58 }
    ensures { result ≡ pos (2 ^ j) *ℤ z }
{
    (1i128 << (j % 64)) * z as i128
}

// Returns `2^j error`, the error in a unit that is 2^j times finer.
#[inline(always)]
fn error_in_finer_unit(error: u64, j: u32) -> u128
    requires { j ≤ 58 }
    ensures { result ≡ error * 2 ^ j }
{
    error as u128 * (1u128 << (j % 64))
}

// Returns the coefficients of the line `first + second u`: these two, and 0 for all others.
#[inline(always)]
fn line_coefficients(first: i128, second: i128) -> [i128; TERMS]
    ensures coefficients { (k : ℕ) → coefficient (first ∷ second ∷ []) k ≡ coefficient result k }
    ensures count { length result ≡ terms }
{
    let mut wide = [0; TERMS];
    wide[0] = first;
    wide[1] = second;
    wide
}

// Returns the middle of an interval with these ends, rounded down, and the distance of the upper end from it, which is
// the greater one.
#[inline(always)]
fn middle_and_distance(lo: i128, hi: i128) -> (i64, u64)
    requires lo_small { unsigned_abs lo ≤ 2 ^ 62 }
    requires hi_small { unsigned_abs hi ≤ 2 ^ 62 }
    requires ordered { lo ≤ℤ hi }
    ensures { IsMiddle lo hi result.0 result.1 }
{
    let middle = half_sum(lo, hi);
    let distance = distance_above(middle, hi);
    (middle, distance)
}

// Returns half the sum of two ends of an interval, rounded down.
#[inline(always)]
fn half_sum(lo: i128, hi: i128) -> i64
    requires lo_small { unsigned_abs lo ≤ 2 ^ 62 }
    requires hi_small { unsigned_abs hi ≤ 2 ^ 62 }
    ensures { result ≡ floor_div (lo +ℤ hi) 2 }
{
    ((lo + hi) >> 1) as i64
}

// Returns by how much the upper end of an interval is above its middle.
#[inline(always)]
fn distance_above(low: i64, high: i128) -> u64
    requires low_small { unsigned_abs low ≤ 2 ^ 62 }
    requires high_small { unsigned_abs high ≤ 2 ^ 62 }
    requires ordered { low ≤ℤ high }
    ensures { pos result ≡ high -ℤ low }
{
    (high - low as i128) as u64
}
