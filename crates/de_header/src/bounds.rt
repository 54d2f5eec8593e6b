// Bounds of the numbers of a header: dates, the length of a block, and the mass ratio.
ghost use Rattle.std.specs.Prelude.{◌≡◌};
ghost use Rattle.spec_text.specs.Days.{seconds_of_julian_date};
ghost use Rattle.spec_files.specs.HeaderRules.{block_length, days_by, days_rule, is_mass_ratio};

use de_text::{
    DaysFault, magnitude_denominator, magnitude_numerator, seconds_of_days_upto,
    seconds_of_julian_date,
};
use spec_ephemeris::{GREATEST_MASS_RATIO, MIN_MASS_RATIO};
use spec_faults::{JD_NOT_WHOLE_SECOND, LIMIT};
use spec_files::{BrokenRule, MAX_BLOCK_DAYS};
use spec_text::Decimal;

// Returns the rule that a number of days of a header breaks by this fault: that of dates for a part of a second, that
// of limits for a number out of range.
fn rule_of_days_fault(fault: DaysFault) -> BrokenRule
    ensures { result ≡ days_rule fault }
{
    match fault {
        DaysFault::NotWholeSecond => BrokenRule::new(JD_NOT_WHOLE_SECOND, 0),
        DaysFault::OutOfRange => BrokenRule::new(LIMIT, 0),
    }
}

/// Checks a Julian date of a header, and returns its seconds from Julian date 0. Errors: the rule that is broken by a
/// date within a second, or by one that is not from 0 to 5,000,000.
pub(crate) fn check_julian_date(date: Decimal) -> Result<u64, BrokenRule>
    ensures { result ≡ days_by (seconds_of_julian_date date) }
{
    match seconds_of_julian_date(date) {
        Ok(seconds) => Ok(seconds),
        Err(fault) => Err(rule_of_days_fault(fault)),
    }
}

// Returns the length in seconds of a block of this many days. Errors: the rule that is broken by 0 days, by a part of
// a second or by more than 64 days.
pub(crate) fn block_length(days: Decimal) -> Result<u32, BrokenRule>
    ensures { result ≡ block_length days }
{
    match seconds_of_days_upto(MAX_BLOCK_DAYS, days) {
        Err(fault) => Err(rule_of_days_fault(fault)),
        Ok(0) => Err(BrokenRule::new(LIMIT, 0)),
        Ok(seconds) => Ok(seconds as u32),
    }
}

/// Tells whether a number is a mass ratio of Earth and Moon that the rules allow, from 1 to 1,000.
pub(crate) fn is_mass_ratio(d: Decimal) -> bool
    ensures { result ≡ is_mass_ratio d }
{
    let over = magnitude_numerator(d);
    let under = magnitude_denominator(d);
    d.mant > 0
        && u128::from(MIN_MASS_RATIO) * under <= over
        && over <= u128::from(GREATEST_MASS_RATIO).saturating_mul(under)
}
