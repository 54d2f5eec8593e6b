// The constants of the formulas, as intervals.
ghost use Rattle.std.specs.Prelude.{◌≡◌, ◌+◌, ◌*◌, ◌^◌, ◌<◌, ◌≤◌, pos, unsigned_abs};
ghost use borrow.Author.Differences.{up, down};
ghost use Rattle.spec_numbers.specs.Numbers.{floor_div, ceil_div};
ghost use Rattle.spec_ephemeris.specs.Header.{IsMassRatio};
ghost use Rattle.spec_bodies.specs.Meanings.{share_beside, factor_interval};
ghost use Rattle.body_states.specs.Factors.{AreFactors, interval_of};

use ival_core::Ival;
use spec_bodies::Factor;
use spec_text::Decimal;

/// 1 in units of 2^-60.
const ONE: u128 = 1_152_921_504_606_846_976;

/// The exponent of 2 in the unit of all factors, 2^-60.
const UNIT_EXPONENT: i32 = -60;

/// The cosine of the obliquity of the ecliptic of J2000, with 15 decimals: that of 84381.448 arc seconds, of the IAU
/// 1976 system of constants and of SPICE's ECLIPJ2000.
const COSINE_OF_OBLIQUITY: i64 = 917_482_062_069_182;

/// The sine of that obliquity, with 15 decimals.
const SINE_OF_OBLIQUITY: i64 = 397_777_155_931_914;

/// The intervals of the Moon's share of the Earth-Moon mass and of the obliquity's cosine and sine, in units of 2^-60.
#[derive(Clone, Copy)]
pub(crate) struct Factors {
    pub moon_share: Ival,
    pub cosine: Ival,
    pub sine: Ival,
}

impl Factors {
    /// Returns the three intervals for a ratio of the Earth's mass to the Moon's, which is EMRAT in JPL's headers.
    pub fn new(ratio: Decimal) -> Factors
        requires { IsMassRatio ratio }
        ensures { AreFactors ratio result }
    {
        Factors {
            moon_share: moon_share_of_mass(ratio.mant, ratio.exp),
            cosine: Ival::from_decimal(COSINE_OF_OBLIQUITY, -15, UNIT_EXPONENT),
            sine: Ival::from_decimal(SINE_OF_OBLIQUITY, -15, UNIT_EXPONENT),
        }
    }

    /// Returns the interval of a factor, in units of 2^-60.
    pub fn interval(self, factor: Factor) -> Ival
        ensures { result ≡ interval_of self factor }
    {
        match factor {
            Factor::MoonShare => self.moon_share,
            Factor::Cosine => self.cosine,
            Factor::Sine => self.sine,
        }
    }
}

// Returns the interval of the Moon's share of the Earth-Moon mass, `1 / (1 + mant * 10^exp)`, in units of 2^-60.
fn moon_share_of_mass(mant: i64, exp: i16) -> Ival
    requires { IsMassRatio (record { mant = mant; exp = exp }) }
    ensures { result ≡ factor_interval (share_beside (record { mant = mant; exp = exp })) }
{
    let moon = lesser_mass(mant, exp);
    let earth = greater_mass(mant, exp);
    quotient_interval(moon, moon + earth)
}

// Returns the mass of the Moon if the Earth's is `mant * 10^exp` times as great, in a unit in which both masses are
// whole numbers: 1, or `10^-exp` if `exp` is negative.
fn lesser_mass(mant: i64, exp: i16) -> u64
    requires { IsMassRatio (record { mant = mant; exp = exp }) }
    ensures mass { result ≡ 10 ^ down exp }
    ensures some { 0 < result }
    ensures few { result ≤ 10 ^ 18 }
{
    if exp < 0 {
        10u64.pow(exp.unsigned_abs().into())
    } else {
        1
    }
}

// Returns the Earth's mass in the unit of `lesser_mass`: `mant * 10^exp`, or `mant` if `exp` is negative.
fn greater_mass(mant: i64, exp: i16) -> u64
    requires { IsMassRatio (record { mant = mant; exp = exp }) }
    ensures mass { result ≡ unsigned_abs mant * 10 ^ up exp }
    ensures few { result ≤ 2 ^ 63 }
{
    if exp < 0 {
        mant.unsigned_abs()
    } else {
        mant.unsigned_abs() * 10u64.pow(exp.unsigned_abs().into())
    }
}

// Returns the interval of `part / whole` in units of 2^-60: from the quotient rounded down to that rounded up.
fn quotient_interval(part: u64, whole: u64) -> Ival
    requires some { 0 < whole }
    requires at_most { part ≤ whole }
    requires enough { whole ≤ part * 2 ^ 60 }
    ensures { result ≡ factor_interval (record { numerator = pos part; denominator = whole }) }
{
    let top = u128::from(part) * ONE;
    let whole = u128::from(whole);
    Ival::of(
        quotient_down(top, whole),
        quotient_up(top, whole),
        UNIT_EXPONENT,
    )
}

// Returns `top / whole`, rounded down to a whole number.
fn quotient_down(top: u128, whole: u128) -> i128
    requires some { 0 < whole }
    requires few { top ≤ 2 ^ 124 }
    ensures { result ≡ floor_div (pos top) whole }
{
    (top / whole) as i128
}

// Returns `top / whole`, rounded up to a whole number. If it is a whole number, it stays as it is.
fn quotient_up(top: u128, whole: u128) -> i128
    requires some { 0 < whole }
    requires few { top ≤ 2 ^ 124 }
    ensures { result ≡ ceil_div (pos top) whole }
{
    let low = top / whole;
    if low * whole < top {
        low as i128 + 1
    } else {
        low as i128
    }
}
