// A set of sure times and a set of possible ones.
ghost use Rattle.std.specs.Prelude.{◌≡◌, ◌&&◌, ◌||◌, not, true, ℤ, ◌≤ℤ◌, IfOk, OnOk};
ghost use Rattle.spec_intervals.specs.declared.signs.Sign.{Sign};
ghost use Rattle.spec_sets.specs.Pairs.{AreOf};
ghost use Rattle.spec_sets.specs.Signs.{both, either, opposite};
ghost use Rattle.spec_sets.specs.Spans.{IsAfterAll, earliest, has, is_between, latest};
ghost use Rattle.gf_sets.specs.Adding.{AreAdded};

use crate::spans::Spans;
use spec_intervals::Sign;
use std::alloc::{AllocError, Global};

/// The times of a span that are sure to meet a condition, and those that may meet it.
#[derive(Drop)]
pub struct Pair {
    /// The times that are sure to meet the condition.
    pub sure: Spans,
    /// The times that may meet the condition, the sure ones among them.
    pub maybe: Spans,
}

impl Pair {
    /// Returns the times that are sure to meet at least one of two conditions, and those that may, over the same
    /// times. The only error is out of memory.
    pub fn union(&self, alloc: Global, other: &Pair) -> Result<Pair, AllocError>
        ensures sure { IfOk result (λ pair. (t : ℤ)
            → has pair.sure t ≡ (has self.now.sure t || has other.now.sure t)) }
        ensures maybe { IfOk result (λ pair. (t : ℤ)
            → has pair.maybe t ≡ (has self.now.maybe t || has other.now.maybe t)) }
        ensures signs { IfOk result (λ pair. (x y : ℤ → Sign) (from upto : ℤ)
            → AreOf x from upto self.now.sure self.now.maybe
            → AreOf y from upto other.now.sure other.now.maybe
            → AreOf (λ t. either (x t) (y t)) from upto pair.sure pair.maybe) }
    {
        let sure = self.sure.union(alloc, &other.sure)?;
        let maybe = self.maybe.union(alloc, &other.maybe)?;
        Ok(Pair { sure, maybe })
    }

    /// Returns the times that are sure to meet both of two conditions, and those that may, over the same times. The
    /// only error is out of memory.
    pub fn intersect(&self, alloc: Global, other: &Pair) -> Result<Pair, AllocError>
        ensures sure { IfOk result (λ pair. (t : ℤ)
            → has pair.sure t ≡ (has self.now.sure t && has other.now.sure t)) }
        ensures maybe { IfOk result (λ pair. (t : ℤ)
            → has pair.maybe t ≡ (has self.now.maybe t && has other.now.maybe t)) }
        ensures signs { IfOk result (λ pair. (x y : ℤ → Sign) (from upto : ℤ)
            → AreOf x from upto self.now.sure self.now.maybe
            → AreOf y from upto other.now.sure other.now.maybe
            → AreOf (λ t. both (x t) (y t)) from upto pair.sure pair.maybe) }
    {
        let sure = self.sure.intersect(alloc, &other.sure)?;
        let maybe = self.maybe.intersect(alloc, &other.maybe)?;
        Ok(Pair { sure, maybe })
    }

    /// Returns the times from `from` to `to` that do not meet the condition. Those are sure that were not possible,
    /// and those possible that were not sure. The only error is out of memory.
    pub fn complement(&self, alloc: Global, from: i64, to: i64) -> Result<Pair, AllocError>
        requires ordered { from ≤ℤ to }
        requires early { earliest ≤ℤ from }
        requires late { to ≤ℤ latest }
        requires sure { (t : ℤ) → has self.now.sure t ≡ true → is_between from to t ≡ true }
        requires maybe { (t : ℤ) → has self.now.maybe t ≡ true → is_between from to t ≡ true }
        ensures sure { IfOk result (λ pair. (t : ℤ)
            → has pair.sure t ≡ (is_between from to t && not (has self.now.maybe t))) }
        ensures maybe { IfOk result (λ pair. (t : ℤ)
            → has pair.maybe t ≡ (is_between from to t && not (has self.now.sure t))) }
        ensures signs { IfOk result (λ pair. (x : ℤ → Sign)
            → AreOf x from to self.now.sure self.now.maybe
            → AreOf (λ t. opposite (x t)) from to pair.sure pair.maybe) }
    {
        let sure = self.maybe.complement(alloc, from, to)?;
        let maybe = self.sure.complement(alloc, from, to)?;
        Ok(Pair { sure, maybe })
    }

    // Adds the times from a first to a last, if there are any, which come after all others: to both sets for the sign
    // `Yes`, to the possible times for `Open`, and to none for `No`. The only error is out of memory.
    pub(crate) fn add_with_sign(
        &mut self,
        first: i64,
        last: i64,
        sign: Sign,
    ) -> Result<(), AllocError>
        requires early { earliest ≤ℤ first }
        requires late { last ≤ℤ latest }
        requires after_sure { IsAfterAll self.old.sure first }
        requires after_maybe { IsAfterAll self.old.maybe first }
        ensures { OnOk result (AreAdded (λ t. sign) first last self.old.sure self.old.maybe
            self.new.sure self.new.maybe) }
    {
        match sign {
            Sign::Yes => {
                self.sure.push_if_any(first, last)?;
                self.maybe.push_if_any(first, last)
            }
            Sign::Open => self.maybe.push_if_any(first, last),
            Sign::No => Ok(()),
        }
    }
}
