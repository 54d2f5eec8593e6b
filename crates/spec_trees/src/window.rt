// Windows of time.
use crate::tree::Turn;

/// What a window holds: exactly one event, in this direction, or nothing that is known.
#[derive(Clone, Copy, PartialEq, Eq)]
pub enum Holds {
    Certain(Turn),
    Undecided,
}

/// The times from `first` to `last`, both within, in ticks of TDB since J2000.
#[derive(Clone, Copy, PartialEq, Eq)]
pub struct Window {
    pub first: i64,
    pub last: i64,
    pub holds: Holds,
}
