// Union, intersection and complement.
ghost use Rattle.std.specs.Prelude.{◌≡◌, ◌&&◌, ◌||◌, not, true, ℤ, ◌≤ℤ◌, IfOk};
ghost use Rattle.spec_sets.specs.Spans.{earliest, has, is_between, latest};

use crate::spans::Spans;
use std::alloc::{AllocError, Global};

/// The first time that a set of times can have: 2^50 units before J2000.
const EARLIEST: i64 = -1_125_899_906_842_624;

/// The last time that a set of times can have: 2^50 units after J2000.
const LATEST: i64 = 1_125_899_906_842_624;

impl Spans {
    /// Returns the times from `from` to `to` that this set does not have. The set has no time before `from` or after
    /// `to`. The only error is out of memory.
    pub fn complement(&self, alloc: Global, from: i64, to: i64) -> Result<Spans, AllocError>
        requires ordered { from ≤ℤ to }
        requires early { earliest ≤ℤ from }
        requires late { to ≤ℤ latest }
        requires inside { (t : ℤ) → has self.now t ≡ true → is_between from to t ≡ true }
        ensures { IfOk result (λ spans. (t : ℤ)
            → has spans t ≡ (is_between from to t && not (has self.now t))) }
    {
        let spans = self.list();
        let mut out = Spans::new(alloc);
        let mut next = from;
        for &(first, last) in spans {
            out.push_if_any(next, first - 1)?;
            next = last + 1;
        }
        out.push_if_any(next, to)?;
        Ok(out)
    }

    /// Returns the times that are in both of two sets. The only error is out of memory.
    pub fn intersect(&self, alloc: Global, other: &Spans) -> Result<Spans, AllocError>
        ensures { IfOk result (λ spans. (t : ℤ)
            → has spans t ≡ (has self.now t && has other.now t)) }
    {
        let (xs, ys) = (self.list(), other.list());
        let mut shared = Spans::new(alloc);
        let (mut i, mut j) = (0, 0);
        while i < xs.len() && j < ys.len() {
            let (x, y) = (xs[i], ys[j]);
            shared.push_if_any(x.0.max(y.0), x.1.min(y.1))?;
            if x.1 < y.1 {
                i += 1;
            } else {
                j += 1;
            }
        }
        Ok(shared)
    }

    /// Returns the times that are in at least one of two sets: the complement of the times that are in neither. The
    /// lists that are not used are taken for what their calls ensure: that the spans are in order. The only error is
    /// out of memory.
    pub fn union(&self, alloc: Global, other: &Spans) -> Result<Spans, AllocError>
        ensures { IfOk result (λ spans. (t : ℤ)
            → has spans t ≡ (has self.now t || has other.now t)) }
    {
        let _spans = self.list();
        let _others = other.list();
        let own = self.complement(alloc, EARLIEST, LATEST)?;
        let others = other.complement(alloc, EARLIEST, LATEST)?;
        let neither = own.intersect(alloc, &others)?;
        let _outside = neither.list();
        neither.complement(alloc, EARLIEST, LATEST)
    }
}
