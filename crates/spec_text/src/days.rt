// Numbers of days.

/// Why a number of days is not taken: the first fault, in this order, that it has.
#[derive(Clone, Copy, PartialEq, Eq)]
pub enum DaysFault {
    /// The days are no whole number of seconds.
    NotWholeSecond,
    /// The days are below 0, or more than the most.
    OutOfRange,
}
