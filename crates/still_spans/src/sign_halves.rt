// The still spans of one granule in which only the signs of the function are known: those of its halves, and so on.
ghost use Rattle.std.specs.Prelude.{ℤ, OnOk};
ghost use Rattle.still_spans.specs.Found.{AreFound};
ghost use Rattle.still_spans.specs.Knowledge.{AreSignsKnownOver, IsBoundedOver};

use crate::halves::{Walk, is_too_narrow_to_halve, middle_time};
use crate::known::Known;
use crate::span_bound::SpanBound;
use event_judge::EventSearch;
use std::alloc::AllocError;

/// The greatest number of spans of a granule that are looked at where only signs are known. Each may need a bound.
pub(crate) const MAX_SIGN_TRIES: u32 = 512;

impl Walk {
    /// Adds the still spans from `a` to `b`: the whole span if the function has one sign there and is monotone, and else
    /// those of its two halves, down to `depth` more halvings. The signs `known` and the bound `over` hold over these times
    /// at least. Each call uses up one of the tries; with none left nothing is added. The only error is out of memory.
    pub(crate) fn add_spans_by_signs(
        &mut self,
        search: &EventSearch,
        known: &Known,
        over: &SpanBound,
        a: i64,
        b: i64,
        depth: u32,
    ) -> Result<(), AllocError>
        requires known { AreSignsKnownOver search.now known.now a b }
        requires bounded { IsBoundedOver search.now over.now a b }
        ensures { (from : ℤ) → AreFound search.now from self.old.found.items a
            → OnOk result (AreFound search.now from self.new.found.items b) }
    {
        if self.tries == 0 {
            return Ok(());
        }
        self.tries -= 1;
        let over = over.bound_for_signs(search, &mut self.rows, a, b);
        if let Some(still) = known.still_span_by_sign(search, &over, a, b) {
            return self.add_span(search, a, b, still);
        }
        if depth == 0 || is_too_narrow_to_halve(search, a, b) {
            return Ok(());
        }
        let middle = middle_time(a, b);
        self.add_spans_by_signs(search, known, &over, a, middle, depth - 1)?;
        self.add_spans_by_signs(search, known, &over, middle, b, depth - 1)
    }
}
