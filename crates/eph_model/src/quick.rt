// A fast way to round numbers of km: one multiplication guesses the quotient, and a check follows.
ghost use Rattle.std.specs.Prelude.{◌≡◌, ◌+◌, ◌-◌, ◌*◌, ◌^◌, ◌<◌, ◌≤◌, IfSome, Some};
ghost use Rattle.spec_ephemeris.specs.Rounding.{pair_of};
ghost use Rattle.eph_model.specs.Quotients.{IsQuotient, IsOf};
ghost use Rattle.eph_model.specs.Stores.{IsRounded};

use crate::rounding::SMALL_EXPONENT;
use ival_core::TEN_INVERSES;
use spec_ephemeris::Rounded;
use spec_text::Decimal;

// The most digits after the point for which the tables stand. With one digit more a number of 64 bits is below 2^-24.
const MAX_PLACES: usize = 26;

// The numerators of 2^24 / 10^n, reduced to a quotient of two numbers of 64 bits, by n.
const UNITS: [u64; 27] = [
    16_777_216, 8_388_608, 4_194_304, 2_097_152, 1_048_576, 524_288, 262_144, 131_072, 65_536,
    32_768, 16_384, 8_192, 4_096, 2_048, 1_024, 512, 256, 128, 64, 32, 16, 8, 4, 2, 1, 1, 1,
];

// The denominators of 2^24 / 10^n, reduced to a quotient of two numbers of 64 bits, by n.
const DIVIDERS: [u64; 27] = [
    1,
    5,
    25,
    125,
    625,
    3_125,
    15_625,
    78_125,
    390_625,
    1_953_125,
    9_765_625,
    48_828_125,
    244_140_625,
    1_220_703_125,
    6_103_515_625,
    30_517_578_125,
    152_587_890_625,
    762_939_453_125,
    3_814_697_265_625,
    19_073_486_328_125,
    95_367_431_640_625,
    476_837_158_203_125,
    2_384_185_791_015_625,
    11_920_928_955_078_125,
    59_604_644_775_390_625,
    596_046_447_753_906_250,
    5_960_464_477_539_062_500,
];

// The greatest k at which 2^24 / 10^n times 2^(64 + k), rounded up, fits 64 bits. That number is the inverse of 10^n, from
// an n of 8 on. Below 8 the quotient is greater than 1, and no guess is right.
const SHIFTS: [u32; 27] = [
    0, 0, 0, 0, 0, 0, 0, 0, 2, 5, 9, 12, 15, 19, 22, 25, 29, 32, 35, 39, 42, 45, 49, 52, 55, 59, 62,
];

// Returns the numerator of `2^24 / 10^places` in lowest terms. That fraction makes units of 2^-24 km of the digits of
// a number of km with `places` digits after the point.
fn unit_numerator(places: usize) -> u64
    requires { places ≤ MAX_PLACES }
    ensures { result ≡ 2 ^ (24 - places) }
{
    UNITS[places]
}

// Returns the denominator of `2^24 / 10^places` in lowest terms. That fraction makes units of 2^-24 km of the digits
// of a number of km with `places` digits after the point.
fn unit_denominator(places: usize) -> u64
    requires { places ≤ MAX_PLACES }
    ensures { result ≡ 5 ^ places * 2 ^ (places - 24) }
{
    DIVIDERS[places]
}

// Returns a guess of `size * 2^24 / 10^places`, rounded down, by a multiplication with a kept inverse of `10^places`.
// The contract says nothing of the guess, since `check_guess` tests it.
#[inline(always)]
fn guess_quotient(size: u64, places: usize) -> u64
    requires { places ≤ MAX_PLACES }
{
    let product = u128::from(size) * u128::from(TEN_INVERSES[places]);
    ((product >> 64) % (1 << 64)) as u64 >> (SHIFTS[places] % 64)
}

// A magnitude in units of 2^-24 km, rounded down, and a rest that is 0 exactly where nothing is lost.
#[derive(Clone, Copy)]
struct Quotient {
    quotient: u64,
    left: u64,
}

// Returns the quotient of `top / divider`, rounded down, and the rest, if the guess is that quotient. None if it is
// not.
#[inline(always)]
fn check_guess(top: u128, divider: u64, guess: u64) -> Option<Quotient>
    ensures parts { IfSome result (λ q. q.quotient * divider + q.left ≡ top) }
    ensures less { IfSome result (λ q. q.left < divider) }
{
    let product = u128::from(guess) * u128::from(divider);
    if top < product || top - product >= u128::from(divider) {
        return None;
    }
    Some(Quotient {
        quotient: guess,
        left: (top - product) as u64,
    })
}

// Returns a magnitude of km with at most 26 digits after the point in units of 2^-24 km, rounded down, and the rest.
// None if the guess of the quotient is wrong, so that a slower way has to be taken.
#[inline(always)]
fn quotient_by_guess(size: u64, places: usize) -> Option<Quotient>
    requires { places ≤ MAX_PLACES }
    ensures { IfSome result (λ q. IsQuotient size places q.quotient q.left) }
{
    let top = u128::from(size) * u128::from(unit_numerator(places));
    check_guess(top, unit_denominator(places), guess_quotient(size, places))
}

// Returns a magnitude of km with more than 26 digits after the point in units of 2^-24 km. A number of 64 bits is
// then below one unit, so the quotient is 0, and the magnitude is the rest. Only the contract reads `places`, so `let
// _places` keeps it from being unused.
#[inline(always)]
fn quotient_below_one(size: u64, places: usize) -> Quotient
    requires { MAX_PLACES < places }
    ensures { IsQuotient size places result.quotient result.left }
{
    let _places = places;
    Quotient {
        quotient: 0,
        left: size,
    }
}

// Returns a magnitude of km with `places` digits after the point in units of 2^-24 km, rounded down, and the rest.
// None if the guess of the quotient is wrong, so that a slower way has to be taken.
#[inline(always)]
fn quotient_in_units(size: u64, places: usize) -> Option<Quotient>
    ensures { IfSome result (λ q. IsQuotient size places q.quotient q.left) }
{
    if places > MAX_PLACES {
        Some(quotient_below_one(size, places))
    } else {
        quotient_by_guess(size, places)
    }
}

// Returns a quotient that was rounded down as one that is rounded up: the same if its rest is 0, else one more.
#[inline(always)]
fn ceil_quotient(q: &Quotient) -> u64
    requires { q.now.quotient ≤ 2 ^ 60 }
    ensures exact { q.now.left ≡ 0 → result ≡ q.now.quotient }
    ensures next { 1 ≤ q.now.left → result ≡ q.now.quotient + 1 }
    ensures most { result ≤ q.now.quotient + 1 }
{
    if q.left == 0 {
        q.quotient
    } else {
        q.quotient + 1
    }
}

// Returns the rounded pair of a number, from its magnitude in units of 2^-24 km, rounded down, with the rest. If the
// number is below 0, the ends are negated and change places.
#[inline(always)]
fn pair_of_quotient(number: Decimal, q: &Quotient) -> Rounded
    requires small { q.now.quotient ≤ 2 ^ 60 }
    requires is { IsOf number q.now.quotient q.now.left }
    ensures { result ≡ pair_of number }
{
    let low = q.quotient as i64;
    let high = ceil_quotient(q) as i64;
    if number.mant < 0 {
        Rounded {
            lo: -high,
            hi: -low,
        }
    } else {
        Rounded { lo: low, hi: high }
    }
}

/// Rounds a number of km down and up to units of 2^-24 km, if its exponent alone tells that it is below 2^36 km and
/// one multiplication finds its quotient. None says nothing of the number: callers then take a slower way.
#[inline(always)]
pub fn rounded_pair_by_guess(number: Decimal) -> Option<Rounded>
    ensures { IfSome result (λ p. IsRounded number (Some p)) }
{
    if number.exp > SMALL_EXPONENT {
        return None;
    }
    let q = quotient_in_units(
        number.mant.unsigned_abs(),
        number.exp.unsigned_abs() as usize,
    )?;
    Some(pair_of_quotient(number, &q))
}
