// The place of a span's times in a granule, and the test of a granule.
ghost use Rattle.std.specs.Prelude.{◌≡◌, ℕ, ◌≤◌, ◌*◌, ◌^◌, ◌≤ℤ◌, ◌+ℤ◌, ◌-ℤ◌, ◌*ℤ◌, neg_ℤ, pos, unsigned_abs, ◌↔◌, All, IsTrue, map};
ghost use Rattle.spec_chebyshev.specs.Rows.{IsArguments};
ghost use Rattle.spec_motions.specs.Enclosures.{arguments};
ghost use Rattle.spec_ephemeris.specs.Ephemeris.{IsBodyNumber};
ghost use Rattle.spec_ephemeris.specs.Rounding.{pair_of};
ghost use Rattle.spec_intervals.specs.Interval.{IsDistance};
ghost use Rattle.spec_motions.specs.Granules.{IsEvaluable};
ghost use Rattle.spec_ephemeris.specs.Granules.{series_of};

use cheby_laws::{argument_by, argument_of};
use eph_model::{Granule, Rounded, pair_of};
use ival_core::{Divider, is_distance};
use spec_chebyshev::Ival62;
use spec_text::Decimal;

/// Returns the interval of the arguments of a granule's polynomials from time `a` to time `b`, in seconds of TDB
/// since J2000 (or in ticks, as the granule's own times). They go from -1 at the granule's start to 1 at its end, and
/// are rounded outward in units of 2^-60.
pub fn arguments(g: &Granule, a: i64, b: i64) -> Ival62
    requires granule { IsEvaluable g.now }
    requires from { g.now.start ≤ℤ a }
    requires order { a ≤ℤ b }
    requires upto { b ≤ℤ (g.now.start +ℤ g.now.seconds) }
    ensures equals { (axis : ℕ) → result ≡ arguments (series_of g.now axis) a b }
    ensures unit { IsArguments result }
{
    arguments_by(g, a, b, &Divider::of(g.seconds))
}

/// Returns the interval of the arguments of a granule's polynomials from time `a` to time `b`, rounded outward in
/// units of 2^-60, as `arguments` does. The divider, by the granule's seconds, is made once for all spans of a
/// column.
#[inline(always)]
pub fn arguments_by(g: &Granule, a: i64, b: i64, divider: &Divider) -> Ival62
    requires granule { IsEvaluable g.now }
    requires from { g.now.start ≤ℤ a }
    requires order { a ≤ℤ b }
    requires upto { b ≤ℤ (g.now.start +ℤ g.now.seconds) }
    requires divider { divider.now ≡ unsigned_abs g.now.seconds }
    ensures equals { (axis : ℕ) → result ≡ arguments (series_of g.now axis) a b }
    ensures unit { IsArguments result }
{
    argument_by(
        argument_numerator(a, g.start, g.seconds),
        argument_numerator(b, g.start, g.seconds),
        divider,
    )
}

/// Returns the interval of the argument of a granule's polynomials at one time, rounded outward in units of 2^-60, by
/// one division. It is that of `arguments` from this time to itself.
#[inline(always)]
pub fn argument_at(g: &Granule, t: i64, divider: &Divider) -> Ival62
    requires granule { IsEvaluable g.now }
    requires from { g.now.start ≤ℤ t }
    requires upto { t ≤ℤ (g.now.start +ℤ g.now.seconds) }
    requires divider { divider.now ≡ unsigned_abs g.now.seconds }
    ensures equals { (axis : ℕ) → result ≡ arguments (series_of g.now axis) t t }
    ensures unit { IsArguments result }
{
    argument_of(argument_numerator(t, g.start, g.seconds), divider)
}

/// Tells whether a granule can be evaluated, as the calls of this crate and those of velocities and changes require.
/// It has from 1 to 32 coefficients for each component. Each is a whole number of units of 10^-140 km, is below 2^36
/// km in magnitude, and has its rounded pair beside it. The granule takes from 1 to 2^40 seconds, and starts at most
/// 2^50 seconds from J2000.
pub fn is_evaluable(g: &Granule) -> bool
    ensures { IsTrue result ↔ IsEvaluable g.now }
{
    if !is_coefficient_count(g.n) {
        return false;
    }
    if !is_count_of_rows(g.coefs.len(), g.comps, g.n) {
        return false;
    }
    if !is_granule_time(g.start, g.seconds) {
        return false;
    }
    are_body_numbers(g.coefs) && are_rounded_pairs(g.coefs, g.rounded)
}

// Tells whether a component of a granule may have this many coefficients: 1 to 32.
fn is_coefficient_count(n: usize) -> bool
    ensures { IsTrue result ↔ ((1 ≤ n) × (n ≤ 32)) }
{
    1 <= n && n <= 32
}

// Tells whether a count of numbers is that of `rows` rows of `n` numbers each.
fn is_count_of_rows(numbers: usize, rows: usize, n: usize) -> bool
    requires { 1 ≤ n }
    ensures { IsTrue result ↔ (numbers ≡ rows * n) }
{
    numbers % n == 0 && numbers / n == rows
}

// Tells whether a granule may start at this time and take this many seconds: it starts at most 2^50 seconds from
// J2000, and takes from 1 to 2^40.
fn is_granule_time(start: i64, seconds: i64) -> bool
    ensures { IsTrue result
        ↔ ((unsigned_abs start ≤ 2 ^ 50) × (pos 1 ≤ℤ seconds) × (seconds ≤ℤ pos (2 ^ 40))) }
{
    start.unsigned_abs() <= 1 << 50 && 1 <= seconds && seconds <= 1 << 40
}

// Tells whether each of these numbers can be a coefficient of a body: below 2^36 km in magnitude, and a whole number
// of units of 10^-140 km.
fn are_body_numbers(coefs: &[Decimal]) -> bool
    ensures { IsTrue result ↔ All IsBodyNumber coefs.now }
{
    coefs.iter().all(|c| is_body_number(*c))
}

// Tells whether a number can be a coefficient of a body: below 2^36 km in magnitude, and a whole number of units of
// 10^-140 km.
fn is_body_number(c: Decimal) -> bool
    ensures { IsTrue result ↔ IsBodyNumber c }
{
    is_distance(c.mant, c.exp) && -140 <= c.exp
}

// Tells whether these pairs are the coefficients, each rounded down and up to units of 2^-24 km, in the same order
// and as many.
fn are_rounded_pairs(coefs: &[Decimal], pairs: &[Rounded]) -> bool
    requires { All IsBodyNumber coefs.now }
    ensures { IsTrue result ↔ (pairs.now ≡ map pair_of coefs.now) }
{
    if coefs.len() != pairs.len() {
        return false;
    }
    for k in 0..coefs.len() {
        if !is_rounded_pair(coefs[k], pairs[k]) {
            return false;
        }
    }
    true
}

// Tells whether a pair is this coefficient rounded down and up to units of 2^-24 km.
fn is_rounded_pair(c: Decimal, pair: Rounded) -> bool
    requires { IsDistance c.mant c.exp }
    ensures { IsTrue result ↔ (pair ≡ pair_of c) }
{
    let own = pair_of(c);
    own.lo == pair.lo && own.hi == pair.hi
}

// Returns the numerator of a time's argument, whose denominator is the granule's seconds: `2 (t - start) - seconds`.
// It goes from minus the seconds at the granule's start to the seconds at its end.
fn argument_numerator(t: i64, start: i64, seconds: i64) -> i64
    requires start { unsigned_abs start ≤ 2 ^ 50 }
    requires long { pos 1 ≤ℤ seconds }
    requires short { seconds ≤ℤ pos (2 ^ 40) }
    requires from { start ≤ℤ t }
    requires upto { t ≤ℤ (start +ℤ seconds) }
    ensures equals { result ≡ (pos 2 *ℤ (t -ℤ start)) -ℤ seconds }
    ensures low { neg_ℤ seconds ≤ℤ result }
    ensures high { result ≤ℤ seconds }
{
    2 * (t - start) - seconds
}
