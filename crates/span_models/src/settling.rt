// Models made of large coefficients: these are rounded to a coarser unit, in which they are within the limits.

ghost use Rattle.std.specs.Prelude.{◌≡◌, ◌≤◌, ◌<◌, ◌+◌, ◌*◌, ◌^◌, pos, ◌+ℤ◌, unsigned_abs, IfSome, ◌↔◌, IsTrue, length};
ghost use Rattle.spec_numbers.specs.Numbers.{floor_div};
ghost use Rattle.spec_models.specs.Models.{model, halved};
ghost use Rattle.span_models.specs.Sizes.{settled_limit, exponent_limit, terms, AreWithin};
ghost use Rattle.span_models.specs.Settled.{Reaches, at_coarser, raised_error};

use crate::model::{Model, TERMS};
use spec_models::model_laws::changes;

/// The greatest magnitude of an exponent of a model, 2^20.
const EXPONENT_LIMIT: u32 = 1 << 20;

/// What an error gains where a unit grows: one unit for each coefficient that is rounded, and one for the error
/// itself.
pub(crate) const ROUNDING: u64 = TERMS as u64 + 1;

/// Returns a model near which all numbers are that are near the polynomial with these coefficients and this error, in
/// units of `2^exponent`. Its unit is the finest in which they are below 2^59. None where its exponent passes the limit.
#[inline(always)]
pub fn settled(wide: &[i128; TERMS], error: u128, exponent: i32) -> Option<Model>
    requires exponent { unsigned_abs exponent ≤ 2 ^ 22 }
    requires count { length wide.now ≡ terms }
    ensures { IfSome result (λ m. Reaches (model wide.now error exponent) m) }
{
    changes();
    let k = normalizing_shift(magnitude_bound(wide, error));
    let coarser = exponent + k as i32;
    if is_model_exponent(coarser) {
        Some(rounded_model(wide, error, exponent, k))
    } else {
        None
    }
}

// Returns a bound of the magnitudes of all coefficients and of the error. It has no more bits than the greatest of them,
// because it joins their bits, which takes fewer steps than comparing them.
#[inline(always)]
fn magnitude_bound(wide: &[i128; TERMS], error: u128) -> u128
    requires count { length wide.now ≡ terms }
    ensures error { error ≤ result }
    ensures coefficients { AreWithin result wide.now }
{
    let mut size = error;
    for i in 0..TERMS {
        size |= wide[i].unsigned_abs();
    }
    size
}

// Returns the least number of halvings that bring a number of this magnitude below 2^59: 0 where it is below already.
#[inline(always)]
fn normalizing_shift(size: u128) -> u32
    ensures enough { size < settled_limit * 2 ^ result }
    ensures few { result ≤ 69 }
{
    if size < 1 << 59 { 0 } else { size.ilog2() - 58 }
}

// Tells whether an exponent is within the limit of models, 2^20 in magnitude.
#[inline(always)]
fn is_model_exponent(exponent: i32) -> bool
    ensures { IsTrue result ↔ unsigned_abs exponent ≤ exponent_limit }
{
    exponent.unsigned_abs() <= EXPONENT_LIMIT
}

// Returns the model of these coefficients and this error in a unit that is 2^k times coarser, in which they are within
// the limits. Coefficients are rounded down, and the error takes in what that changes.
#[inline(always)]
fn rounded_model(wide: &[i128; TERMS], error: u128, exponent: i32, k: u32) -> Model
    requires coefficients { AreWithin (settled_limit * 2 ^ k) wide.now }
    requires error { error < settled_limit * 2 ^ k }
    requires exponent { unsigned_abs exponent ≤ 2 ^ 22 }
    requires coarser { unsigned_abs (exponent +ℤ pos k) ≤ exponent_limit }
    requires few { k ≤ 69 }
    ensures { result ≡ at_coarser k (model wide.now error exponent) }
{
    Model::of_parts(
        rounded_coefficients(wide, k),
        rounded_error(error, k),
        exponent + k as i32,
    )
}

// Returns each coefficient divided by 2^k and rounded down, in order.
#[inline(always)]
fn rounded_coefficients(wide: &[i128; TERMS], k: u32) -> [i64; TERMS]
    requires small { AreWithin (settled_limit * 2 ^ k) wide.now }
    requires few { k ≤ 69 }
    ensures equals { result ≡ halved k wide.now }
    ensures small { AreWithin settled_limit result }
{
    let mut halves = [0; TERMS];
    for i in 0..TERMS {
        halves[i] = floor_shift(wide[i], k);
    }
    halves
}

// Returns `z / 2^k` rounded down, which is at most 2^59 in magnitude.
#[inline(always)]
fn floor_shift(z: i128, k: u32) -> i64
    requires small { unsigned_abs z ≤ settled_limit * 2 ^ k }
    requires few { k ≤ 69 }
    ensures equals { result ≡ floor_div z (2 ^ k) }
    ensures small { unsigned_abs result ≤ settled_limit }
{
    (z >> k) as i64
}

// Returns an error in a unit that is 2^k times coarser: rounded up, and one unit more for each coefficient that is
// rounded. It stays as it is for a `k` of 0.
#[inline(always)]
fn rounded_error(error: u128, k: u32) -> u64
    requires small { error < settled_limit * 2 ^ k }
    requires few { k ≤ 69 }
    ensures equals { result ≡ raised_error k error }
    ensures small { result ≤ settled_limit + terms + 1 }
{
    if k == 0 {
        error as u64
    } else {
        (error >> k) as u64 + ROUNDING
    }
}
