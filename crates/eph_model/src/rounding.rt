// Numbers rounded once, and the rounded pairs that are kept beside them.
ghost use Rattle.std.specs.Prelude.{◌≡◌, ◌↔◌, ◌+◌, ◌<◌, ◌≤◌, [], ◌∷◌, ◌++◌, List, length, OnOk, IsOk, IsTrue, vec_len, vec_capacity};
ghost use Rattle.spec_text.specs.declared.decimals.Decimal.{Decimal};
ghost use Rattle.spec_intervals.specs.Interval.{IsDistance};
ghost use Rattle.spec_ephemeris.specs.Rounding.{pair_of};
ghost use Rattle.eph_model.specs.Pairs.{IsPair, ArePairs, BeginWithPairs};
ghost use Rattle.eph_model.specs.Stores.{IsRounded};

use ival_core::{DISTANCE_EXPONENT, Ival, is_distance};
use spec_ephemeris::Rounded;
use spec_text::Decimal;
use std::alloc::AllocError;

// The greatest exponent of 10 at which every number of 64 bits is below 2^36.
pub(crate) const SMALL_EXPONENT: i16 = -9;

/// Returns a number of km, below 2^36 in magnitude, rounded down and rounded up to a whole number of units of 2^-24
/// km.
pub fn pair_of(number: Decimal) -> Rounded
    requires { IsDistance number.mant number.exp }
    ensures { result ≡ pair_of number }
{
    let (lo, hi, _) = Ival::from_decimal(number.mant, number.exp, DISTANCE_EXPONENT).parts();
    Rounded {
        lo: lo as i64,
        hi: hi as i64,
    }
}

/// Tells whether a number of km is below 2^36 in magnitude. An exponent of at most -9 tells so without a computation.
#[tactic(auto, using(crate::proofs::Small::small_below))]
#[inline(always)]
pub fn is_below_distance_limit(number: Decimal) -> bool
    ensures { IsTrue result ↔ IsDistance number.mant number.exp }
{
    number.exp <= SMALL_EXPONENT || is_distance(number.mant, number.exp)
}

/// Returns a number of km, rounded down and rounded up to units of 2^-24 km. None if its magnitude is 2^36 km or
/// more.
pub fn rounded(number: Decimal) -> Option<Rounded>
    ensures { IsRounded number result }
{
    if is_below_distance_limit(number) {
        Some(pair_of(number))
    } else {
        None
    }
}

// Returns the pair that is kept beside a number: its rounded pair, or zeros if it has none. A number without a
// rounded pair is none of a body, so that its zeros are never read.
#[inline(always)]
pub(crate) fn pair_or_zeros(rounded: Option<Rounded>) -> Rounded
    ensures { (number : Decimal) → IsRounded number rounded → IsPair number result }
{
    match rounded {
        Some(pair) => pair,
        None => Rounded { lo: 0, hi: 0 },
    }
}

// Appends a pair to a vector that has room for it, so that the call never fails.
#[inline(always)]
pub(crate) fn push_pair(pairs: &mut Vec<Rounded>, pair: Rounded) -> Result<(), AllocError>
    requires room { vec_len pairs.old < vec_capacity pairs.old }
    ensures done { IsOk result }
    ensures added { pairs.new.items ≡ pairs.old.items ++ pair ∷ [] }
    ensures capacity { vec_capacity pairs.old ≤ vec_capacity pairs.new }
{
    pairs.push(pair)?;
    Ok(())
}

// Appends the rounded pairs of these numbers to a vector that has room for them, so that the call never fails. A
// number without one gets a pair of zeros.
pub(crate) fn push_pairs(pairs: &mut Vec<Rounded>, numbers: &[Decimal]) -> Result<(), AllocError>
    requires room { vec_len pairs.old + length numbers.now ≤ vec_capacity pairs.old }
    ensures done { IsOk result }
    ensures pairs { OnOk result ((before : List Decimal) → ArePairs before pairs.old.items
        → ArePairs (before ++ numbers.now) pairs.new.items) }
{
    for &number in numbers {
        pairs.push(pair_or_zeros(rounded(number)))?;
    }
    Ok(())
}

// Appends the pairs of those numbers that lack theirs, the last ones, to a vector that has room for them. With that
// room no call fails, so that the answer of `push_pairs` says nothing.
pub(crate) fn push_lacking_pairs(pairs: &mut Vec<Rounded>, numbers: &[Decimal])
    requires begun { BeginWithPairs numbers.now pairs.old.items }
    requires fewer { vec_len pairs.old ≤ length numbers.now }
    requires room { length numbers.now ≤ vec_capacity pairs.old }
    ensures { ArePairs numbers.now pairs.new.items }
{
    let first = pairs.len();
    let _ = push_pairs(pairs, &numbers[first..]);
}
