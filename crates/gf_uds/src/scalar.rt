// A law over a span of times.
ghost use Rattle.std.specs.Prelude.{◌≡◌, ◌^◌, ◌≤ℤ◌, pos, neg_ℤ};

use crate::law::Law;
use spec_scalars::Reach;

/// A law, and a span of its times, at most 2^50 in magnitude.
#[derive(Drop)]
pub struct Scalar<L: Law + Drop> {
    /// The law of the scalar.
    pub law: L,
    /// The first time at which the scalar may be asked.
    pub first: i64,
    /// The last time at which the scalar may be asked.
    pub last: i64,
    ghost from: { (L.scalar law).first ≤ℤ first },
    ghost to: { last ≤ℤ (L.scalar law).last },
    ghost low: { neg_ℤ (pos (2 ^ 50)) ≤ℤ first },
    ghost high: { last ≤ℤ pos (2 ^ 50) },
}

impl<L: Law + Drop> Scalar<L> {
    /// Makes the scalar that has a law's values at the times from `first` to `last`, both at most 2^50 in magnitude.
    /// The law has to know these times.
    pub fn new(law: L, first: i64, last: i64) -> Scalar<L>
        requires from { (L.scalar law).first ≤ℤ first }
        requires to { last ≤ℤ (L.scalar law).last }
        requires low { neg_ℤ (pos (2 ^ 50)) ≤ℤ first }
        requires high { last ≤ℤ pos (2 ^ 50) }
        ensures law { result.law ≡ law }
        ensures first { result.first ≡ first }
        ensures last { result.last ≡ last }
    {
        Scalar { law, first, last }
    }

    /// Returns the bounds that the scalar's law knows over the times from `a` to `b`: of its values, and of its changes
    /// from each of these times to the next.
    pub fn reach(&self, a: i64, b: i64) -> Reach
        requires from { self.now.first ≤ℤ a }
        requires ordered { a ≤ℤ b }
        requires to { b ≤ℤ self.now.last }
        ensures { result ≡ (L.scalar self.now.law).reach a b }
    {
        self.law.reach(a, b)
    }
}
