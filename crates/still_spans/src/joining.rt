// The still spans of all shares in one list.
ghost use Rattle.std.specs.Prelude.{ℤ, All, IfOk, OnOk};
ghost use Rattle.spec_searches.specs.Search.{Search};
ghost use Rattle.spec_stills.specs.Still.{IsStill};
ghost use Rattle.still_spans.specs.Found.{AreInOrder};
ghost use Rattle.still_spans.specs.Joined.{AreStill, IsJoined};

use spec_stills::StillSpan;
use std::alloc::{AllocError, Global};

/// The still spans that were found in a share, or the error out of memory.
pub(crate) type Found = Result<Vec<StillSpan>, AllocError>;

/// Spans in order of time, and the time at which the last ends.
#[derive(Drop)]
pub(crate) struct Joined {
    pub(crate) spans: Vec<StillSpan>,
    pub(crate) end: i64,
}

impl Joined {
    // Adds a span after the others, unless it begins before the last of them ends or has no time. The only error is
    // out of memory.
    fn add_span(&mut self, span: StillSpan) -> Result<(), AllocError>
        ensures still { (s : Search) → IsStill s span → All (IsStill s) self.old.spans.items
            → OnOk result (All (IsStill s) self.new.spans.items) }
        ensures joined { (from : ℤ) → IsJoined from self.old
            → OnOk result (IsJoined from self.new) }
    {
        if span.from < self.end || span.upto <= span.from {
            return Ok(());
        }
        self.spans.push(span)?;
        self.end = span.upto;
        Ok(())
    }

    // Adds the spans of a share after the others, in their order. A span that has no time, or that begins before the
    // last one in the list ends, is left out. The only error is out of memory.
    fn add_spans(&mut self, share: &[StillSpan]) -> Result<(), AllocError>
        ensures still { (s : Search) → All (IsStill s) share.now
            → All (IsStill s) self.old.spans.items
            → OnOk result (All (IsStill s) self.new.spans.items) }
        ensures joined { (from : ℤ) → IsJoined from self.old
            → OnOk result (IsJoined from self.new) }
    {
        for &span in share {
            self.add_span(span)?;
        }
        Ok(())
    }
}

/// Returns the spans of all shares in one list, in order of time. A span that begins before `from`, or before the
/// span in front of it ends, is left out. The error of the first share that has one is returned.
pub(crate) fn join_shares(alloc: Global, from: i64, shares: &[Found]) -> Found
    ensures still { (s : Search) → All (AreStill s) shares.now
        → IfOk result (λ found. All (IsStill s) found.items) }
    ensures follow { IfOk result (λ found. AreInOrder from found.items) }
{
    let mut all = Joined {
        spans: Vec::new(alloc),
        end: from,
    };
    for share in shares {
        match share {
            Ok(spans) => all.add_spans(spans)?,
            Err(AllocError) => return Err(AllocError),
        }
    }
    Ok(all.spans)
}
