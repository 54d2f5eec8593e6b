// Magnitudes of decimals, and numbers of days in seconds. A magnitude past the greatest number of 128 bits counts as
// that number, which is past every bound.
ghost use Rattle.std.specs.Prelude.{◌≡◌, ◌≤◌, ◌<◌, ◌*◌, ◌^◌, ◌-◌, IfOk, min, unsigned_abs};
ghost use borrow.Author.Differences.{up, down};
ghost use Rattle.spec_text.specs.Days.{seconds_of_days, seconds_of_julian_date, seconds_within, size_over, size_under};
ghost use Rattle.de_text.specs.Sizes.{capped};

use ival_core::power_of_ten;
use spec_text::{DAY_SECONDS, DaysFault, Decimal, LAST_JULIAN_DAY};

const DAY: u128 = DAY_SECONDS as u128;

// The greatest exponent of a power of ten of 128 bits.
const MAX_POWER: u32 = 38;

// Returns `10^exp`, or the greatest number of 128 bits if the power is past that.
#[tactic(auto, using(crate::proofs::Sizes::ten_fits, crate::proofs::Sizes::great_power))]
fn capped_power_of_ten(exp: u32) -> u128
    ensures { result ≡ min (10 ^ exp) (2 ^ 128 - 1) }
{
    if exp > MAX_POWER {
        u128::MAX
    } else {
        power_of_ten(exp)
    }
}

// Returns the exponent of ten of a decimal if it is above 0, else 0.
fn positive_exponent(d: Decimal) -> u32
    ensures { result ≡ up d.exp }
{
    if d.exp < 0 { 0 } else { d.exp as u32 }
}

// Returns the magnitude of a decimal's exponent of ten if it is below 0, else 0.
fn negative_exponent(d: Decimal) -> u32
    ensures { result ≡ down d.exp }
{
    if d.exp < 0 {
        u32::from(d.exp.unsigned_abs())
    } else {
        0
    }
}

/// Returns the numerator of a decimal's magnitude: its digits, times its power of ten if the exponent is above 0. A
/// product past 128 bits counts as the greatest number of 128 bits.
#[tactic(auto, using(crate::proofs::Sizes::capped_size))]
pub fn magnitude_numerator(d: Decimal) -> u128
    ensures size { result ≡ min (size_over d) (2 ^ 128 - 1) }
    ensures mant { unsigned_abs d.mant ≤ 2 ^ 63 }
{
    u128::from(d.mant.unsigned_abs()).saturating_mul(capped_power_of_ten(positive_exponent(d)))
}

/// Returns the denominator of a decimal's magnitude: the power of ten if the exponent is below 0, else 1. A power
/// past 128 bits counts as the greatest number of 128 bits.
#[tactic(auto, using(crate::proofs::Sizes::power_is_some))]
pub fn magnitude_denominator(d: Decimal) -> u128
    ensures size { result ≡ min (size_under d) (2 ^ 128 - 1) }
    ensures some { 0 < result }
{
    capped_power_of_ten(negative_exponent(d))
}

// Returns the seconds of a number of days, whose sign is left out. None if they are not a whole number. Seconds past
// 128 bits count as the greatest number of 128 bits.
fn seconds_of_days(d: Decimal) -> Option<u128>
    ensures { result ≡ capped (seconds_of_days d) }
{
    let days = magnitude_numerator(d).saturating_mul(DAY);
    let unit = magnitude_denominator(d);
    if days % unit == 0 {
        Some(days / unit)
    } else {
        None
    }
}

/// Returns the seconds of a number of days from 0 to `most`. Errors: `NotWholeSecond` first, for days that end within
/// a second; then `OutOfRange`, for days below 0 or past `most`.
pub fn seconds_of_days_upto(most: u64, days: Decimal) -> Result<u64, DaysFault>
    requires { most ≤ LAST_JULIAN_DAY }
    ensures value { result ≡ seconds_within most days }
    ensures few { IfOk result (λ seconds. seconds ≤ DAY_SECONDS * most) }
{
    match seconds_of_days(days) {
        None => Err(DaysFault::NotWholeSecond),
        Some(seconds) if days.mant < 0 || seconds > DAY * u128::from(most) => {
            Err(DaysFault::OutOfRange)
        }
        Some(seconds) => Ok(seconds as u64),
    }
}

/// Returns the seconds from Julian date 0 to a date from 0 to 5,000,000. Errors: `NotWholeSecond` first, for a date
/// within a second; then `OutOfRange`, for any other date.
pub fn seconds_of_julian_date(date: Decimal) -> Result<u64, DaysFault>
    ensures value { result ≡ seconds_of_julian_date date }
    ensures few { IfOk result (λ seconds. seconds ≤ DAY_SECONDS * LAST_JULIAN_DAY) }
{
    seconds_of_days_upto(LAST_JULIAN_DAY, date)
}
