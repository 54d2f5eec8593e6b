// Sets of times as spans.
ghost use Rattle.std.specs.Prelude.{◌≡◌, ◌||◌, [], ℤ, ◌≤ℤ◌, OnErr, OnOk};
ghost use Rattle.spec_sets.specs.Spans.{AreSpans, IsAfterAll, earliest, has, is_in, latest};

use std::alloc::{AllocError, Global};
use std::marker::Model;

/// A set of times: spans, each from a first to a last time, in order, of which no two touch. Times are whole numbers of
/// units, seconds of TDB since J2000 or ticks, of at most 2^50 in magnitude. Contracts see the list of spans.
#[derive(Drop)]
pub struct Spans {
    items: Vec<(i64, i64)>,
}

impl Model for Spans {
    ghost use Rattle.std.specs.Prelude.{List};
    ghost use Rattle.spec_sets.specs.Spans.{AreSpans, Span};

    ghost Value = { List Span };

    ghost view = { λ s. s.items.items };

    ghost invariant = { λ s. AreSpans s.items.items };
}

impl Spans {
    /// Makes the set that has no time. It does not allocate.
    pub fn new(alloc: Global) -> Spans
        ensures { result ≡ [] }
    {
        Spans {
            items: Vec::new(alloc),
        }
    }

    /// Returns the spans of a set of times in their order, each with its first and its last time. It does not
    /// allocate.
    pub fn list(&self) -> &[(i64, i64)]
        ensures same { result.now ≡ self.now }
        ensures spans { AreSpans self.now }
    {
        &self.items
    }

    /// Adds the times from a first to a last, which come after all others. They are joined to the last span if they
    /// touch it. If it is out of memory nothing has changed.
    pub fn push(&mut self, first: i64, last: i64) -> Result<(), AllocError>
        requires ordered { first ≤ℤ last }
        requires early { earliest ≤ℤ first }
        requires late { last ≤ℤ latest }
        requires after { IsAfterAll self.old first }
        ensures times { OnOk result ((t : ℤ)
            → has self.new t ≡ (has self.old t || is_in (first, last) t)) }
        ensures memory { OnErr result (self.new ≡ self.old) }
    {
        let count = self.items.len();
        if count > 0 && self.items[count - 1].1 + 1 == first {
            self.items[count - 1].1 = last;
            return Ok(());
        }
        match self.items.push((first, last)) {
            Ok(()) => Ok(()),
            Err(_) => Err(AllocError),
        }
    }

    // Adds the times from a first to a last, which come after all others. Nothing is added if the first is after the
    // last. The only error is out of memory.
    pub(crate) fn push_if_any(&mut self, first: i64, last: i64) -> Result<(), AllocError>
        requires early { first ≤ℤ last → earliest ≤ℤ first }
        requires late { last ≤ℤ latest }
        requires after { first ≤ℤ last → IsAfterAll self.old first }
        ensures { OnOk result ((t : ℤ)
            → has self.new t ≡ (has self.old t || is_in (first, last) t)) }
    {
        if first <= last {
            self.push(first, last)?;
        }
        Ok(())
    }
}
