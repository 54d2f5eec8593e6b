// What a word shows on calendar and clock, and the time of it. None of the calls allocates.
ghost use Rattle.std.specs.Prelude.{◌≡◌, ◌<◌, ◌≤◌, ◌+◌, ◌^◌, IfOk, Some, drop, length, neg_ℤ, pos, true};
ghost use Rattle.jiff_core.specs.Calendar.{days_from_civil, days_in_month, IsEpochDay, IsWithin, IsYear};
ghost use Rattle.spec_times.specs.Calendar.{is_calendar_time, is_date, midnight, is_time_of_day, second_of_day, time_of_calendar};
ghost use Rattle.spec_times.specs.TimeWords.{IsTime, calendar_after, has_negative_year, negative_year_digits, negative_year_form, shown, time_shown, time_within, two_digits_at, year_digits, year_form};

use crate::reading::{check_seconds_in_range, digits_value, has_form, is_between};
use jiff_core::civil::{Date, days_in_month};
use spec_ephemeris::DAY;
use spec_times::{CalendarTime, FIRST_YEAR, HALF_DAY, J2000_DAY, LAST_YEAR, TimeFault};

/// Reads a calendar text without a fraction and returns its time in seconds since J2000 in TDB. The fault is `NotTime`
/// for a word of another form, and for a date or a time of day that there is not. It is `OutOfRange` for a time outside
/// Julian date 0 to 5,000,000.
pub(crate) fn read_calendar_time(word: &[u8]) -> Result<i64, TimeFault>
    ensures time { result ≡ time_shown (shown word.now) }
    ensures bound { IfOk result IsTime }
{
    match read_calendar_fields(word) {
        Some(shown) => time_of_fields(shown),
        None => Err(TimeFault::NotTime),
    }
}

// Returns the time that a date and a time of day show, in seconds since J2000 in TDB. The fault is `NotTime` if there
// is no such date or time of day, and `OutOfRange` outside Julian date 0 to 5,000,000.
fn time_of_fields(shown: CalendarTime) -> Result<i64, TimeFault>
    ensures { result ≡ time_shown (Some shown) }
{
    if is_date(shown) && is_time_of_day(shown) {
        time_in_range(shown)
    } else {
        Err(TimeFault::NotTime)
    }
}

// ---- what a word shows

// Reads the fields of a calendar text: year, month, day, hour, minute and second. Returns none for a word of another
// form. The fields may still be no date or time of day.
fn read_calendar_fields(word: &[u8]) -> Option<CalendarTime>
    ensures { result ≡ shown word.now }
{
    if has_form(year_form(), word) {
        return Some(read_fields_of_year(word));
    }
    if has_negative_year(word) {
        return Some(read_fields_of_negative_year(word));
    }
    None
}

// Reads the fields of a calendar text of 19 bytes, whose year has four digits and no sign.
fn read_fields_of_year(word: &[u8]) -> CalendarTime
    requires { length word.now ≡ 19 }
    ensures { result ≡ calendar_after (pos (year_digits word.now)) (drop 4 word.now) }
{
    let year = digits_value(&word[..4]) as i64;
    read_fields_after_year(year, &word[4..])
}

// Reads the fields of a calendar text of 22 bytes, whose year is a minus sign and six digits.
fn read_fields_of_negative_year(word: &[u8]) -> CalendarTime
    requires { length word.now ≡ 22 }
    ensures { result ≡ calendar_after (neg_ℤ (pos (negative_year_digits word.now))) (drop 7 word.now) }
{
    let year = digits_value(&word[1..7]) as i64;
    read_fields_after_year(-year, &word[7..])
}

// Tells whether a word has the form of a calendar text of a year below 0. A year written `-000000` does not count.
fn has_negative_year(word: &[u8]) -> bool
    ensures { result ≡ has_negative_year word.now }
{
    has_form(negative_year_form(), word) && 0 < digits_value(&word[1..7])
}

// Returns the form of a calendar text of a year from 0 on, in which `0` stands for any digit and each other byte for
// itself.
fn year_form() -> &'static [u8]
    ensures { result.now ≡ year_form }
{
    b"0000-00-00T00:00:00"
}

// Returns the form of a calendar text of a year below 0, in which `0` stands for any digit and each other byte for
// itself.
fn negative_year_form() -> &'static [u8]
    ensures { result.now ≡ negative_year_form }
{
    b"-000000-00-00T00:00:00"
}

// Reads the fields after the year of a calendar text, in the form `-MM-DDTHH:MM:SS`, and joins them with that year.
fn read_fields_after_year(year: i64, rest: &[u8]) -> CalendarTime
    requires { length rest.now ≡ 15 }
    ensures { result ≡ calendar_after year rest.now }
{
    CalendarTime {
        year,
        month: two_digits_at(1, rest),
        day: two_digits_at(4, rest),
        hour: two_digits_at(7, rest),
        minute: two_digits_at(10, rest),
        second: two_digits_at(13, rest),
    }
}

// Returns the number that two digits of a word write. `place` is the place of the first of them, counted from 0.
fn two_digits_at(place: usize, word: &[u8]) -> u64
    requires { place + 2 ≤ length word.now }
    ensures { result ≡ two_digits_at place word.now }
{
    digits_value(&word[place..place + 2])
}

// ---- whether there is such a date and such a time of day

// Tells whether the proleptic Gregorian calendar has the date that the fields show.
fn is_date(shown: CalendarTime) -> bool
    ensures { result ≡ is_date shown }
{
    is_between(1, 12, shown.month)
        && is_between(1, month_length(shown.year, shown.month), shown.day)
}

// Tells whether there is the time of day that the fields show. There is no hour 24 and no second 60.
fn is_time_of_day(shown: CalendarTime) -> bool
    ensures { result ≡ is_time_of_day shown }
{
    shown.hour < 24 && shown.minute < 60 && shown.second < 60
}

// Returns the number of days in a month of any year. The calendar repeats after 400 years, so `days_in_month`, which
// takes 16 bits, is asked for the remainder of the year by 400.
fn month_length(year: i64, month: u64) -> u64
    requires { month ≤ 12 }
    ensures value { result ≡ days_in_month year month }
{
    days_in_month((year % 400) as i16, month as u8) as u64
}

// ---- the time that the fields show

// Returns the time that a date and a time of day show, in seconds since J2000 in TDB, or `OutOfRange`. The year is
// tested first, since `Date` has no day of far years.
fn time_in_range(shown: CalendarTime) -> Result<i64, TimeFault>
    requires { is_calendar_time shown ≡ true }
    ensures { result ≡ time_within shown }
{
    if shown.year < FIRST_YEAR || LAST_YEAR < shown.year {
        Err(TimeFault::OutOfRange)
    } else {
        check_seconds_in_range(time_of_calendar(shown))
    }
}

// Returns the time that a date and a time of day show, in seconds since J2000 in TDB.
fn time_of_calendar(shown: CalendarTime) -> i64
    requires year { IsYear shown.year }
    requires shown { is_calendar_time shown ≡ true }
    ensures { result ≡ time_of_calendar shown }
{
    midnight_of_day(day_number(shown)) + second_of_day(shown) as i64
}

// Returns the time at which a day starts, in seconds since J2000 in TDB, which is a noon. The day is a number of days
// from 1970-01-01.
fn midnight_of_day(day: i64) -> i64
    requires { IsEpochDay day }
    ensures value { result ≡ midnight day }
    ensures bound { IsWithin (10 ^ 12) result }
{
    (day - J2000_DAY) * DAY - HALF_DAY
}

// Returns the seconds from midnight to the time of day that the fields show: 0 to 86,399.
fn second_of_day(shown: CalendarTime) -> u64
    requires { is_calendar_time shown ≡ true }
    ensures value { result ≡ second_of_day shown }
    ensures bound { result < 86_400 }
{
    shown.hour * 3_600 + shown.minute * 60 + shown.second
}

// Returns the number of days from 1970-01-01 to the date that the fields show.
fn day_number(shown: CalendarTime) -> i64
    requires year { IsYear shown.year }
    requires shown { is_calendar_time shown ≡ true }
    ensures value { result ≡ days_from_civil shown.year shown.month shown.day }
    ensures bound { IsEpochDay result }
{
    let date = Date::new(shown.year as i16, shown.month as i8, shown.day as i8).unwrap();
    date.to_unix_epoch_day() as i64
}
