// The two sets of a relation, made from the sets about one reference or two.
ghost use Rattle.std.specs.Prelude.{IfOk, unwrap_or};
ghost use Rattle.spec_sets.specs.Signs.{both, either, opposite};
ghost use Rattle.spec_outcomes.specs.Sets.{relation_sign};
ghost use Rattle.gf_search.specs.Reached.{AreJoined, AreWithin, HasSets};

use crate::references::ReferenceTimes;
use gf_sets::Pair;
use spec_outcomes::Span;
use spec_requests::Relation;
use std::alloc::{AllocError, Global};

// Returns the times of a span that are in the first sets and not in the second, as `Within` asks: at least the first
// reference, and below the second. The only error is out of memory.
fn times_inside(alloc: Global, first: &Pair, second: &Pair, span: Span) -> Result<Pair, AllocError>
    requires span { HasSets span }
    requires within { AreWithin span second.now.sure second.now.maybe }
    ensures { IfOk result (λ pair.
        AreJoined (λ s t. both s (opposite t)) span first.now second.now pair) }
{
    let below = second.complement(alloc, span.from, span.upto)?;
    first.intersect(alloc, &below)
}

// Returns the times of a span that are not in the first sets, or are in the second, as `Outside` asks: below the
// first reference, or at least the second. The only error is out of memory.
fn times_outside(alloc: Global, first: &Pair, second: &Pair, span: Span) -> Result<Pair, AllocError>
    requires span { HasSets span }
    requires within { AreWithin span first.now.sure first.now.maybe }
    ensures { IfOk result (λ pair.
        AreJoined (λ s t. either (opposite s) t) span first.now second.now pair) }
{
    let below = first.complement(alloc, span.from, span.upto)?;
    below.union(alloc, second)
}

/// Returns the times of a span at which a function has a relation to its references, from the times at which it is at
/// least each of them. The only error is out of memory.
pub(crate) fn times_in_relation(
    alloc: Global,
    relation: Relation,
    both: ReferenceTimes,
    span: Span,
) -> Result<Pair, AllocError>
    requires span { HasSets span }
    requires first { AreWithin span both.first.sure both.first.maybe }
    requires second { AreWithin span (unwrap_or both.second both.first).sure
        (unwrap_or both.second both.first).maybe }
    ensures { IfOk result (λ pair. AreJoined (relation_sign relation) span
        both.first (unwrap_or both.second both.first) pair) }
{
    match relation {
        Relation::AtLeast => Ok(both.first),
        Relation::Less => both.first.complement(alloc, span.from, span.upto),
        Relation::Within => times_inside(alloc, &both.first, both.second(), span),
        Relation::Outside => times_outside(alloc, &both.first, both.second(), span),
    }
}
