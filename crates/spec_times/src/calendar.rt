// What calendar and clock show.

/// A date and a time of day.
#[derive(Clone, Copy, PartialEq, Eq)]
pub struct CalendarTime {
    /// The year; the one before 1 is 0, and the one before that is -1.
    pub year: i64,
    /// The month: 1 to 12.
    pub month: u64,
    /// The day of the month, from 1.
    pub day: u64,
    /// The hour: 0 to 23.
    pub hour: u64,
    /// The minute: 0 to 59.
    pub minute: u64,
    /// The second: 0 to 59.
    pub second: u64,
}
