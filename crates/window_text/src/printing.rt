// The calendar text of a time. Calls that append fail only if memory runs out.
ghost use Rattle.std.specs.Prelude.{◌≡◌, ◌<◌, ◌++◌, IfOk, OnOk, string_bytes, unsigned_abs};
ghost use Rattle.std.specs.Fmt.{decimal};
ghost use Rattle.jiff_core.specs.Calendar.{IsYear};
ghost use Rattle.jiff_core.specs.Date.{epoch_day};
ghost use Rattle.spec_times.specs.Calendar.{clock, clock_text, date_text, day_number, digits, time_text, year_text};
ghost use Rattle.spec_ephemeris.specs.Ticks.{IsTick};
ghost use Rattle.spec_times.specs.TimeWords.{IsTime};
ghost use Rattle.spec_times.specs.Ticks.{IsTimeIn, fraction_text, past_second, second_of, tick_text};

use crate::Memory;
use jiff_core::civil::Date;
use spec_ephemeris::DAY;
use spec_times::{HALF_DAY, J2000_DAY};
use std::alloc::{AllocError, Global};

/// Returns the calendar text of a time in ticks since J2000 in TDB, from Julian date 0 to 5,000,000. It is
/// `YYYY-MM-DDTHH:MM:SS`, and for ticks of milliseconds also a point and three digits. A year below 0 has a minus sign
/// and six digits. The only error is out of memory.
pub fn time_text(alloc: Global, time: i64, tick: u32) -> Result<String, Memory>
    requires tick { IsTick tick }
    requires time { IsTimeIn tick time }
    ensures { IfOk result (λ text. string_bytes text ≡ tick_text tick time) }
{
    let mut text = String::new(alloc);
    add_time_in_ticks(&mut text, tick, time)?;
    Ok(text)
}

/// Appends the calendar text of a time in ticks since J2000 in TDB to a text. A second has `tick` ticks. The only error
/// is out of memory.
pub(crate) fn add_time_in_ticks(text: &mut String, tick: u32, time: i64) -> Result<(), AllocError>
    requires tick { IsTick tick }
    requires time { IsTimeIn tick time }
    ensures { OnOk result (string_bytes text.new ≡ string_bytes text.old ++ tick_text tick time) }
{
    add_time(text, second_of_time(tick, time))?;
    add_fraction(text, tick, ticks_past_second(tick, time))
}

// Returns the last whole second at or before a time in ticks. Both are counted from J2000 in TDB, and a second has
// `tick` ticks.
fn second_of_time(tick: u32, time: i64) -> i64
    requires tick { IsTick tick }
    requires time { IsTimeIn tick time }
    ensures second { result ≡ second_of tick time }
    ensures time { IsTime result }
{
    time.div_euclid(i64::from(tick))
}

// Returns the number of ticks from the last whole second to a time in ticks: 0 to 999. A second has `tick` ticks.
fn ticks_past_second(tick: u32, time: i64) -> u32
    requires { IsTick tick }
    ensures past { result ≡ past_second tick time }
    ensures few { result < 1_000 }
{
    time.rem_euclid(i64::from(tick)) as u32
}

// Appends a point and three digits for the ticks past a second, from 0 to 999, or nothing if a tick is a second. The
// only error is out of memory.
fn add_fraction(text: &mut String, tick: u32, past: u32) -> Result<(), AllocError>
    requires { past < 1_000 }
    ensures { OnOk result (string_bytes text.new
        ≡ string_bytes text.old ++ fraction_text tick past) }
{
    if tick == 1 {
        return Ok(());
    }
    let mut buffer = itoa::Buffer::new();
    text.push_str(".")?;
    text.push_str(leading_zeros(past))?;
    text.push_str(buffer.format(past))
}

/// Appends the calendar text of a time in whole seconds since J2000 in TDB to a text. The only error is out of memory.
pub(crate) fn add_time(text: &mut String, time: i64) -> Result<(), AllocError>
    requires { IsTime time }
    ensures { OnOk result (string_bytes text.new ≡ string_bytes text.old ++ time_text time) }
{
    add_date(text, date_of_time(time))?;
    add_time_of_day(text, seconds_after_midnight(time))
}

// Returns the date, in the proleptic Gregorian calendar, of the day that a time in seconds since J2000 in TDB lies in.
// J2000 is a noon, so half a day is added to count from a midnight.
fn date_of_time(time: i64) -> Date
    requires { IsTime time }
    ensures { epoch_day result ≡ day_number time }
{
    let day = (time + HALF_DAY).div_euclid(DAY) + J2000_DAY;
    Date::from_unix_epoch_day(day).unwrap()
}

// Returns the seconds from the last midnight to a time in seconds since J2000 in TDB: 0 to 86,399. J2000 is a noon, so
// half a day is added to count from a midnight.
fn seconds_after_midnight(time: i64) -> u32
    requires { IsTime time }
    ensures value { result ≡ clock time }
    ensures bound { result < 86_400 }
{
    (time + HALF_DAY).rem_euclid(DAY) as u32
}

// Appends a date as `YYYY-MM-DD` to a text. A year below 0 has a minus sign and six digits. The only error is out of
// memory.
fn add_date(text: &mut String, date: Date) -> Result<(), AllocError>
    ensures { OnOk result (string_bytes text.new
        ≡ string_bytes text.old ++ date_text date.year date.month date.day) }
{
    add_year(text, date.year)?;
    add_two_digit_field(text, "-", date.month as u32)?;
    add_two_digit_field(text, "-", date.day as u32)
}

// Appends a time of day as `THH:MM:SS` to a text. It is given in seconds after midnight. The only error is out of
// memory.
fn add_time_of_day(text: &mut String, clock: u32) -> Result<(), AllocError>
    requires { clock < 86_400 }
    ensures { OnOk result (string_bytes text.new ≡ string_bytes text.old ++ clock_text clock) }
{
    add_two_digit_field(text, "T", clock / 3_600)?;
    add_two_digit_field(text, ":", clock / 60 % 60)?;
    add_two_digit_field(text, ":", clock % 60)
}

// Appends a year to a text, in four digits, or as a minus sign and six digits if it is below 0. The only error is out
// of memory.
fn add_year(text: &mut String, year: i16) -> Result<(), AllocError>
    requires { IsYear year }
    ensures { OnOk result (string_bytes text.new ≡ string_bytes text.old ++ year_text year) }
{
    text.push_str(year_prefix(year))?;
    add_four_digits(text, year.unsigned_abs() as u32)
}

// Returns the text before the last four digits of a printed year: none, or a minus sign and two zeros if the year is
// below 0.
fn year_prefix(year: i16) -> &'static str
    requires { IsYear year }
    ensures { result.now ++ digits 4 (unsigned_abs year) ≡ year_text year }
{
    if year < 0 { "-00" } else { "" }
}

// Appends a number below 10,000 in four digits to a text. The only error is out of memory.
fn add_four_digits(text: &mut String, n: u32) -> Result<(), AllocError>
    requires { n < 10_000 }
    ensures { OnOk result (string_bytes text.new ≡ string_bytes text.old ++ digits 4 n) }
{
    add_two_digits(text, n / 100)?;
    add_two_digits(text, n % 100)
}

// Appends a separator, such as `:`, and a number below 100 in two digits to a text. The only error is out of memory.
fn add_two_digit_field(text: &mut String, mark: &str, n: u32) -> Result<(), AllocError>
    requires { n < 100 }
    ensures { OnOk result (string_bytes text.new
        ≡ string_bytes text.old ++ (mark.now ++ digits 2 n)) }
{
    text.push_str(mark)?;
    add_two_digits(text, n)
}

// Appends a number below 100 in two digits to a text. The only error is out of memory.
fn add_two_digits(text: &mut String, n: u32) -> Result<(), AllocError>
    requires { n < 100 }
    ensures { OnOk result (string_bytes text.new ≡ string_bytes text.old ++ digits 2 n) }
{
    let mut buffer = itoa::Buffer::new();
    text.push_str(leading_zero(n))?;
    text.push_str(buffer.format(n))
}

// Returns the zeros that stand before the decimal digits of a number below 1,000 to make them three.
fn leading_zeros(n: u32) -> &'static str
    requires { n < 1_000 }
    ensures { result.now ++ decimal n ≡ digits 3 n }
{
    if n < 10 {
        "00"
    } else if n < 100 {
        "0"
    } else {
        ""
    }
}

// Returns the zero that stands before the digit of a number below 10 to make two digits, or no text for 10 to 99.
fn leading_zero(n: u32) -> &'static str
    requires { n < 100 }
    ensures { result.now ++ decimal n ≡ digits 2 n }
{
    if n < 10 { "0" } else { "" }
}
