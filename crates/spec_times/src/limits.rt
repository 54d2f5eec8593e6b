// Numbers of the calendar, and of words for times.

/// The seconds from midnight to noon. J2000 is noon of its day.
pub const HALF_DAY: i64 = 43_200;

/// The number of the day of J2000, 2000-01-01: the days from 1970-01-01 to it.
pub const J2000_DAY: i64 = 10_957;

/// The first year whose days have numbers. Years before it end before the first time.
pub const FIRST_YEAR: i64 = -9_999;

/// The last year whose days have numbers. Years after it start after the last time.
pub const LAST_YEAR: i64 = 9_999;

/// The most digits of a time that is written as a whole number.
pub const MAX_TIME_DIGITS: usize = 12;
