// Spans of times in which narrow nodes are clear.
use spec_intervals::Sign;

/// The times from `from` to `upto`, in ticks of TDB since J2000; how wide a node within them may be, in ticks, that is known
/// to be clear; how often a node may have to be halved until it is as narrow; and the answer whether the function of the
/// search is at least 0, which is the same at each of the times.
#[derive(Clone, Copy, PartialEq, Eq)]
pub struct StillSpan {
    pub from: i64,
    pub upto: i64,
    pub widest: u64,
    pub halvings: u32,
    pub sign: Sign,
}
