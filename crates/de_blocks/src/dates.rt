// The dates of a block that was begun, and a number that is read into it.
use eph_model::Rounded;
use spec_text::Decimal;

/// The times at which a block begins and ends, in seconds of TDB since J2000, as far as its dates were read.
#[derive(Clone, Copy)]
pub(crate) struct Dates {
    /// The time of the first number.
    pub start: i64,
    /// The time of the second number.
    pub end: i64,
}

/// A number that meets its rule.
#[derive(Clone, Copy)]
pub(crate) struct RuledNumber {
    /// The number.
    pub number: Decimal,
    /// The number rounded, if it is below 2^36 in magnitude.
    pub rounded: Option<Rounded>,
    /// The dates of the block with the number.
    pub dates: Dates,
}
