// Readers of a time in seconds or as a calendar text. None of them allocates.
ghost use Rattle.std.specs.Prelude.{◌≡◌, ◌≤◌, ◌<◌, ◌+◌, ◌*◌, ◌*ℤ◌, ◌+ℤ◌, ◌^◌, IfOk, IfSome, length, pos};
ghost use Rattle.std.specs.Char.{is_ascii_digit};
ghost use Rattle.std.specs.List.{list_all};
ghost use Rattle.spec_text.specs.Decimals.{value};
ghost use Rattle.spec_times.specs.Calendar.{is_between};
ghost use Rattle.spec_ephemeris.specs.Ticks.{IsTick};
ghost use Rattle.jiff_core.specs.Calendar.{IsWithin};
ghost use Rattle.spec_times.specs.TimeWords.{IsTime, are_time_digits, fits, has_form, negated_of, whole_of, whole_time, within_limits};
ghost use Rattle.spec_times.specs.Ticks.{has_fraction, shown_tick, tick_from, tick_of, within_tick_limits};

use crate::showing::read_calendar_time;
use spec_ephemeris::{FIRST_TIME, LAST_TIME};
use spec_times::{MAX_TIME_DIGITS, TimeFault};

/// Reads a time, as a whole number of seconds or a calendar text, and returns it in ticks since J2000 in TDB. The fault
/// is `NotTime` for a word of neither form, and for a date or a time of day that there is not. It is `OutOfRange` for a
/// time outside Julian date 0 to 5,000,000.
pub fn read_time(word: &[u8], tick: u32) -> Result<i64, TimeFault>
    requires { IsTick tick }
    ensures { result ≡ tick_of tick word.now }
{
    match read_whole_time(word) {
        Some(second) => check_ticks_in_range(tick, seconds_in_ticks(second, tick)),
        None => read_calendar_tick(tick, word),
    }
}

// Returns a time in ticks since J2000 in TDB if it lies from Julian date 0 to Julian date 5,000,000, else `OutOfRange`.
fn check_ticks_in_range(tick: u32, time: i64) -> Result<i64, TimeFault>
    requires { IsTick tick }
    ensures { result ≡ within_tick_limits tick time }
{
    let tick = i64::from(tick);
    if FIRST_TIME * tick <= time && time <= LAST_TIME * tick {
        Ok(time)
    } else {
        Err(TimeFault::OutOfRange)
    }
}

// Reads a calendar text and returns its time in ticks since J2000 in TDB. If a second has 1,000 ticks, a point and
// three digits may end the text. The fault is `NotTime` for another word, else `OutOfRange`.
fn read_calendar_tick(tick: u32, word: &[u8]) -> Result<i64, TimeFault>
    requires { IsTick tick }
    ensures { result ≡ shown_tick tick word.now }
{
    if tick == 1_000 && has_fraction(word) {
        let (front, fraction) = word.split_at(word.len() - 4);
        ticks_after_second(
            tick,
            digits_value(&fraction[1..]),
            read_calendar_time(front),
        )
    } else {
        ticks_after_second(tick, 0, read_calendar_time(word))
    }
}

// Returns the time in ticks that comes `past` ticks after a second that was read, since J2000 in TDB. The error is the
// fault of that second, or `OutOfRange`.
fn ticks_after_second(
    tick: u32,
    past: u64,
    second: Result<i64, TimeFault>,
) -> Result<i64, TimeFault>
    requires tick { IsTick tick }
    requires second { IfOk second IsTime }
    requires past { past < 10 ^ 14 }
    ensures { result ≡ tick_from tick past second }
{
    let second = second?;
    check_ticks_in_range(tick, total_ticks(second, tick, past))
}

// Converts a number of seconds to ticks, of which a second has 1 or 1,000.
fn seconds_in_ticks(second: i64, tick: u32) -> i64
    requires tick { IsTick tick }
    requires second { IsWithin (10 ^ 14) second }
    ensures { result ≡ second *ℤ pos tick }
{
    second * i64::from(tick)
}

// Converts seconds since J2000 to ticks, of which a second has `tick`, and adds `past` ticks to them.
fn total_ticks(second: i64, tick: u32, past: u64) -> i64
    requires tick { IsTick tick }
    requires second { IsTime second }
    requires past { past < 10 ^ 14 }
    ensures { result ≡ second *ℤ pos tick +ℤ pos past }
{
    second * i64::from(tick) + past as i64
}

// Tells whether a word ends in a point and three digits, as a calendar text in milliseconds does.
fn has_fraction(word: &[u8]) -> bool
    ensures { result ≡ has_fraction word.now }
{
    has_form(b".000", &word[word.len().saturating_sub(4)..])
}

/// Returns a time in seconds since J2000 in TDB if it lies from Julian date 0 to Julian date 5,000,000, else
/// `OutOfRange`.
pub(crate) fn check_seconds_in_range(time: i64) -> Result<i64, TimeFault>
    ensures { result ≡ within_limits time }
{
    if FIRST_TIME <= time && time <= LAST_TIME {
        Ok(time)
    } else {
        Err(TimeFault::OutOfRange)
    }
}

// Reads a whole number of 1 to 12 digits, perhaps after a minus sign. Returns none for any other word.
fn read_whole_time(word: &[u8]) -> Option<i64>
    ensures value { result ≡ whole_time word.now }
    ensures bound { IfSome result (IsWithin (10 ^ 14)) }
{
    match word {
        [] => None,
        [b'-', digits @ ..] => read_negated_number(digits),
        [_, ..] => read_unsigned_number(word),
    }
}

// Reads a whole number of 1 to 12 digits. Returns none for any other word.
fn read_unsigned_number(digits: &[u8]) -> Option<i64>
    ensures value { result ≡ whole_of digits.now }
    ensures bound { IfSome result (IsWithin (10 ^ 14)) }
{
    if are_time_digits(digits) {
        Some(digits_value(digits) as i64)
    } else {
        None
    }
}

// Reads 1 to 12 digits and returns the negative of their number. Returns none for any other word.
fn read_negated_number(digits: &[u8]) -> Option<i64>
    ensures value { result ≡ negated_of digits.now }
    ensures bound { IfSome result (IsWithin (10 ^ 14)) }
{
    if are_time_digits(digits) {
        Some(-(digits_value(digits) as i64))
    } else {
        None
    }
}

// Tells whether a word consists of 1 to 12 digits and nothing else.
fn are_time_digits(word: &[u8]) -> bool
    ensures { result ≡ are_time_digits word.now }
{
    are_digits(word) && is_between(1, MAX_TIME_DIGITS as u64, word.len() as u64)
}

// Tells whether all bytes of a word are ASCII digits. A word without bytes passes, so callers test the length too.
fn are_digits(word: &[u8]) -> bool
    ensures { result ≡ list_all is_ascii_digit word.now }
{
    word.iter().all(|byte| byte.is_ascii_digit())
}

/// Tells whether a number lies from `low` to `high`, both included.
pub(crate) fn is_between(low: u64, high: u64, n: u64) -> bool
    ensures { result ≡ is_between low high n }
{
    low <= n && n <= high
}

/// Returns the number that at most 12 decimal digits write. A byte below `0` counts as 0 and one above `9` as more than
/// 9, so callers test the bytes.
pub(crate) fn digits_value(digits: &[u8]) -> u64
    requires { length digits.now ≤ 12 }
    ensures value { result ≡ value digits.now }
    ensures bound { result < 10 ^ 14 }
{
    let mut value: u64 = 0;
    for digit in digits {
        value = 10 * value + digit.saturating_sub(b'0') as u64;
    }
    value
}

/// Tells whether a word has the form of a picture, byte by byte. A `0` in the picture stands for any digit, and every
/// other byte for itself.
pub(crate) fn has_form(picture: &[u8], word: &[u8]) -> bool
    ensures { result ≡ has_form picture.now word.now }
{
    if picture.len() != word.len() {
        return false;
    }
    for i in 0..picture.len() {
        if !fits_picture_byte(picture[i], word[i]) {
            return false;
        }
    }
    true
}

// Tells whether a byte is what one byte of a picture stands for: any digit for `0`, else that byte itself.
fn fits_picture_byte(mark: u8, byte: u8) -> bool
    ensures { result ≡ fits mark byte }
{
    if mark == b'0' {
        byte.is_ascii_digit()
    } else {
        mark == byte
    }
}
