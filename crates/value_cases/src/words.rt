// Rows of words that are decimals, Julian dates and times.
use crate::fields::{Fields, RowError};
use crate::parts::next_decimal;
use de_text::{DaysFault, Decimal, NumberFault, read_decimal, read_whole, seconds_of_julian_date};
use spec_ephemeris::{FIRST_TIME, LAST_TIME};
use spec_times::TimeFault;
use std::alloc::Global;
use window_text::{read_time, time_text};

// Reads what a row expects of a word: `ok` and a decimal, or `fault` and the number of the fault, 1 to 3, for which
// the word is no decimal.
fn expected_decimal(fields: &mut Fields<'_>) -> Result<Result<Decimal, NumberFault>, RowError> {
    match fields.next_word() {
        "ok" => Ok(Ok(next_decimal(fields))),
        "fault" => match fields.next_number::<u16>() {
            1 => Ok(Err(NumberFault::NotNumber)),
            2 => Ok(Err(NumberFault::TooManyDigits)),
            3 => Ok(Err(NumberFault::ExponentRange)),
            _ => Err(RowError::Malformed),
        },
        _ => Err(RowError::Malformed),
    }
}

/// Compares a word: the row has the word, the decimal that it is or the fault for which it is none, and the whole
/// number that it is, or `none`.
pub(crate) fn decimal_agrees(alloc: Global, fields: &mut Fields<'_>) -> Result<bool, RowError> {
    let word = fields.next_bytes(alloc)?;
    let is_decimal = expected_decimal(fields)? == read_decimal(&word);
    Ok(fields.next_number_or_none::<u32>() == read_whole(&word) && is_decimal)
}

// Reads what a row expects of a Julian date: its seconds, or `NotWholeSecond` or `OutOfRange` for a date that has
// none.
fn expected_seconds(fields: &mut Fields<'_>) -> Result<Result<u64, DaysFault>, RowError> {
    match fields.next_word() {
        "NotWholeSecond" => Ok(Err(DaysFault::NotWholeSecond)),
        "OutOfRange" => Ok(Err(DaysFault::OutOfRange)),
        word => match word.parse::<u64>() {
            Ok(seconds) => Ok(Ok(seconds)),
            Err(_) => Err(RowError::Malformed),
        },
    }
}

// Reads a word that is a decimal, and returns the decimal, a Julian date in days. Any other word is malformed.
fn next_date(alloc: Global, fields: &mut Fields<'_>) -> Result<Decimal, RowError> {
    let word = fields.next_bytes(alloc)?;
    match read_decimal(&word) {
        Ok(date) => Ok(date),
        Err(_) => Err(RowError::Malformed),
    }
}

/// Compares a Julian date: the row has a word that is a decimal, and the seconds of the date, or why it has none.
pub(crate) fn date_agrees(alloc: Global, fields: &mut Fields<'_>) -> Result<bool, RowError> {
    let date = next_date(alloc, fields)?;
    Ok(seconds_of_julian_date(date) == expected_seconds(fields)?)
}

// Reads a word as a time of a command line, in ticks of a second, and returns the time, or why the word is none.
fn next_time(alloc: Global, fields: &mut Fields<'_>) -> Result<Result<i64, TimeFault>, RowError> {
    let word = fields.next_bytes(alloc)?;
    Ok(read_time(&word, 1))
}

// Tells whether a time, in seconds, is written on the calendar as this text. A time outside of what the calendar text
// covers is malformed.
fn has_calendar_text(alloc: Global, time: i64, text: &[u8]) -> Result<bool, RowError> {
    if time < FIRST_TIME || LAST_TIME < time {
        return Err(RowError::Malformed);
    }
    match time_text(alloc, time, 1) {
        Ok(found) => Ok(found.as_bytes() == text),
        Err(_) => Err(RowError::Memory),
    }
}

// Reads a text, and tells whether a time, in seconds, is written on the calendar as this text.
fn has_next_calendar_text(
    alloc: Global,
    time: i64,
    fields: &mut Fields<'_>,
) -> Result<bool, RowError> {
    let text = fields.next_bytes(alloc)?;
    has_calendar_text(alloc, time, &text)
}

/// Compares a time: the row has a word, and then `ok`, the time that the word is and the calendar text of that time,
/// or the reason why the word is no time.
pub(crate) fn time_agrees(alloc: Global, fields: &mut Fields<'_>) -> Result<bool, RowError> {
    let time = next_time(alloc, fields)?;
    match fields.next_word() {
        "NotTime" => Ok(time == Err(TimeFault::NotTime)),
        "OutOfRange" => Ok(time == Err(TimeFault::OutOfRange)),
        "ok" => {
            let expected = fields.next_number::<i64>();
            Ok(has_next_calendar_text(alloc, expected, fields)? && time == Ok(expected))
        }
        _ => Err(RowError::Malformed),
    }
}
