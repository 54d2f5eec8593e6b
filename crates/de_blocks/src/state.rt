// Where a reader stands among the blocks, and when it rounds their numbers.
use spec_text::Fault;

/// What a reader waits for.
#[derive(Clone, Copy, PartialEq, Eq)]
pub enum Place {
    /// The record line of a block, or the end.
    Between,
    /// Numbers of a block.
    Inside,
    /// Nothing: the first fault was met.
    Refused(Fault),
}

/// When each number gets its rounded pair.
#[derive(Clone, Copy, PartialEq, Eq)]
pub enum Rounding {
    /// As it is read, for an ephemeris that is searched.
    AtOnce,
    /// Once all are read, if ever, for blocks that are only checked.
    AtEnd,
}
