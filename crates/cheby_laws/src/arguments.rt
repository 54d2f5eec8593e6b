// The arguments of a span of seconds.

ghost use Rattle.std.specs.Prelude.{◌≡◌, ◌≤◌, ◌*◌, ◌^◌, ◌≤ℤ◌, ◌*ℤ◌, ℤ, pos, neg_ℤ, unsigned_abs};
ghost use Rattle.spec_chebyshev.specs.Rows.{argument_of, HoldsIn, IsArguments};

use ival_core::Divider;
use spec_chebyshev::Ival62;

/// The number 1 in units of 2^-60.
const ONE: i128 = 1_152_921_504_606_846_976;

/// Returns the interval of the arguments from `ua / seconds` to `ub / seconds`, rounded outward in units of 2^-60.
///
/// For a granule of `seconds` that starts at second `g`, the argument of second `t` is `(2 (t - g) - seconds) /
/// seconds`. It goes from -1 to 1, as in the JPL ephemerides.
pub fn argument(ua: i64, ub: i64, seconds: i64) -> Ival62
    requires length { pos 1 ≤ℤ seconds }
    requires from_start { neg_ℤ seconds ≤ℤ ua }
    requires ordered { ua ≤ℤ ub }
    requires to_end { ub ≤ℤ seconds }
    ensures equals { result ≡ argument_of ua ub seconds }
    ensures unit { IsArguments result }
    ensures holds { (u : ℤ) → ua ≤ℤ u → u ≤ℤ ub → HoldsIn 60 result u seconds }
{
    argument_by(ua, ub, &Divider::of(seconds))
}

/// Returns the interval of the arguments from `ua / seconds` to `ub / seconds`, rounded outward in units of 2^-60, as
/// `argument` does. The divider by the seconds is made once for all spans of a granule.
#[inline(always)]
pub fn argument_by(ua: i64, ub: i64, divider: &Divider) -> Ival62
    requires length { 1 ≤ divider.now }
    requires from_start { neg_ℤ (pos divider.now) ≤ℤ ua }
    requires ordered { ua ≤ℤ ub }
    requires to_end { ub ≤ℤ pos divider.now }
    ensures equals { result ≡ argument_of ua ub (pos divider.now) }
    ensures unit { IsArguments result }
    ensures holds { (u : ℤ) → ua ≤ℤ u → u ≤ℤ ub → HoldsIn 60 result u (pos divider.now) }
{
    argument_ends(ua, ub, divider)
}

/// Returns the interval of the argument of one time, `u / seconds`, rounded outward in units of 2^-60. Both ends come
/// from one division.
#[inline(always)]
pub fn argument_of(u: i64, divider: &Divider) -> Ival62
    requires length { 1 ≤ divider.now }
    requires from_start { neg_ℤ (pos divider.now) ≤ℤ u }
    requires to_end { u ≤ℤ pos divider.now }
    ensures equals { result ≡ argument_of u u (pos divider.now) }
    ensures unit { IsArguments result }
    ensures holds { HoldsIn 60 result u (pos divider.now) }
{
    argument_from_one_division(u, divider)
}

// Returns the interval of the arguments from `ua / seconds` to `ub / seconds` in units of 2^-60, the first rounded
// down and the last up, by a division for each. `argument_by` adds what the interval holds.
#[inline(always)]
fn argument_ends(ua: i64, ub: i64, divider: &Divider) -> Ival62
    requires length { 1 ≤ divider.now }
    requires low_size { unsigned_abs ua ≤ divider.now }
    requires high_size { unsigned_abs ub ≤ divider.now }
    ensures { result ≡ argument_of ua ub (pos divider.now) }
{
    Ival62 {
        lo: narrow_to_i64(divider.down(in_argument_units(ua))),
        hi: narrow_to_i64(divider.up(in_argument_units(ub))),
    }
}

// Returns the interval of the argument `u / seconds` in units of 2^-60, rounded down and up. Both ends come from one
// division. `argument_of` adds what the interval holds.
#[inline(always)]
fn argument_from_one_division(u: i64, divider: &Divider) -> Ival62
    requires length { 1 ≤ divider.now }
    requires size { unsigned_abs u ≤ divider.now }
    ensures { result ≡ argument_of u u (pos divider.now) }
{
    let (lo, hi) = divider.floor_and_ceil(in_argument_units(u));
    Ival62 {
        lo: narrow_to_i64(lo),
        hi: narrow_to_i64(hi),
    }
}

/// Returns `u` in units of 2^-60, which is `u 2^60`: the numerator of an argument `u / seconds` in these units.
#[inline(always)]
fn in_argument_units(u: i64) -> i128
    ensures equals { result ≡ u *ℤ pos (2 ^ 60) }
    ensures bound { unsigned_abs result ≤ 2 ^ 123 }
    ensures size { unsigned_abs result ≡ 2 ^ 60 * unsigned_abs u }
{
    u as i128 * ONE
}

/// Returns a number of at most 2^60 in magnitude in 64 bits, which every such number fits.
#[inline(always)]
fn narrow_to_i64(z: i128) -> i64
    requires { unsigned_abs z ≤ 2 ^ 60 }
    ensures { result ≡ z }
{
    z as i64
}
