// The answer to a question of sign.

/// Whether all numbers of an interval are at least 0 (`Yes`), all are below 0 (`No`), or neither is known (`Open`).
#[derive(Clone, Copy, PartialEq, Eq)]
pub enum Sign {
    Yes,
    No,
    Open,
}
