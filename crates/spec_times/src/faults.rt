// Words that stand for no time.

/// Why a word stands for no time.
#[derive(Clone, Copy, PartialEq, Eq)]
pub enum TimeFault {
    /// The word has neither form of a time, or shows a date that the calendar does not have.
    NotTime,
    /// Its time comes before Julian date 0, which is -4713-11-24T12:00:00, or after Julian date 5,000,000, which is
    /// 8977-06-07T12:00:00.
    OutOfRange,
}
