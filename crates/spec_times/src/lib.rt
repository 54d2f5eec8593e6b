//! What times are on the calendar: the types and definitions that contracts cite, worked values of them, and their
//! laws. Times are seconds of TDB since J2000, 2000-01-01T12:00:00, or ticks, so many to a second. A time comes in and
//! its calendar text goes out; a word comes in, and the time that it stands for goes out.
//!
//! The calendar is the proleptic Gregorian one, as ISO 8601 extends it, with a year 0; the number of a date's day is
//! `jiff_core`'s.
#![tactic(auto)]

mod calendar;
mod examples;
mod faults;
mod laws;
mod limits;

pub use calendar::CalendarTime;
pub use examples::{
    milliseconds_have_texts, times_have_texts, whole_numbers_are_times,
    words_are_read_in_milliseconds, words_with_impossible_dates_are_refused,
};
pub use faults::TimeFault;
pub use laws::{
    calendar_texts_are_read, days_have_one_date, milliseconds_are_read_back, seconds_are_ticks,
    times_are_read_back, times_are_read_from_two_forms,
};
pub use limits::{FIRST_YEAR, HALF_DAY, J2000_DAY, LAST_YEAR, MAX_TIME_DIGITS};
