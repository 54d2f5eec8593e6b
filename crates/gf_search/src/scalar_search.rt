// The search of a polynomial for the times at which it passes 0.
ghost use Rattle.std.specs.Prelude.{◌≡◌, ◌⊎◌, ◌<ℤ◌, Err, IfErr, IfOk};
ghost use Rattle.spec_requests.specs.Limits.{IsScalarWithinLimits};
ghost use Rattle.spec_outcomes.specs.Scalars.{AreScalarLeaves, found_scalar, quadratic_of, scalar_root, scalar_span, whole_scalar_span};

use crate::alone::leaves_by_one;
use gf_edges::Gate;
use gf_uds::{Quad, Scalar, ScalarJudge, find_scalar, law_holds};
use ordered_join::leaves;
use spec_outcomes::{Refusal, Span};
use spec_output::MAX_LEAVES;
use spec_requests::{MAX_SCALAR_TIME, ScalarAsk};
use spec_trees::{Leaf, Node};
use std::alloc::Global;
use std::sync::Wait;
use std::thread::Threads;
use steal_pool::PoolError;

// The latest time of a scalar. The earliest is as far before 0.
const LATEST: i64 = MAX_SCALAR_TIME as i64;

// Makes the judge of the search of the polynomial that is asked for. Its coefficients are within the limits, so they
// make one.
fn scalar_judge(ask: &ScalarAsk) -> ScalarJudge<Quad>
    requires { IsScalarWithinLimits ask.now }
    ensures law { result.scalar.law ≡ quadratic_of ask.now }
    ensures first { result.scalar.first ≡ ask.now.from }
    ensures last { result.scalar.last ≡ ask.now.to }
    ensures plan { result.plan ≡ ask.now.plan }
{
    let quad = Quad::new(ask.p, ask.q, ask.r).unwrap();
    let scalar = Scalar::new(quad, ask.from, ask.to);
    law_holds(&scalar.law);
    ScalarJudge {
        scalar,
        plan: ask.plan,
    }
}

// Returns the root of the search's tree: all times of the span that is asked for, at the depth 0.
fn scalar_root(ask: &ScalarAsk) -> Node
    ensures { result ≡ scalar_root ask.now }
{
    Node {
        a: ask.from,
        b: ask.to,
        depth: 0,
    }
}

// Returns the refusal `Outside` of a span that holds no time, with that span and the whole one that may be asked for.
fn outside_refusal(ask: &ScalarAsk) -> Refusal
    ensures { result ≡ Refusal.Outside (scalar_span ask.now) whole_scalar_span }
{
    Refusal::Outside {
        span: Span {
            from: ask.from,
            upto: ask.to,
        },
        whole: Span {
            from: -LATEST,
            upto: LATEST,
        },
    }
}

/// Searches for the times at which the polynomial that is asked for passes 0 in a wanted direction, by workers at
/// once, and returns the leaves of the search. They follow one another over the span in order of time, and their
/// windows are those of the times sought. Times are whole numbers. Errors: `Outside` if the span holds no time;
/// `TooManyLeaves` if there are more than a report may have; `Memory`.
pub fn search_scalar<R: Threads + Wait + Sync, G: Gate>(
    rt: &R,
    alloc: Global,
    ask: &ScalarAsk,
    gate: &G,
) -> Result<Vec<Leaf>, Refusal>
    requires { IsScalarWithinLimits ask.now }
    ensures found { IfOk result (λ found. AreScalarLeaves ask.now found.items) }
    ensures stopped { IfErr result (λ refusal. (refusal ≡ Refusal.Memory)
        ⊎ (found_scalar ask.now ≡ Err refusal)) }
{
    if ask.from >= ask.to {
        return Err(outside_refusal(ask));
    }
    let judge = scalar_judge(ask);
    let root = scalar_root(ask);
    match find_scalar(rt, alloc, &judge, root, ask.workers, MAX_LEAVES, gate) {
        Ok(book) => Ok(leaves(alloc, &book)?),
        Err(PoolError::TooMany) => Err(Refusal::TooManyLeaves { most: MAX_LEAVES }),
        Err(PoolError::Memory) => Err(Refusal::Memory),
    }
}

// Returns the leaves of the search of a polynomial over a span that holds a time, in order of time, found in the
// calling thread. Errors: `TooManyLeaves` or `Memory`.
fn search_span_alone(alloc: Global, ask: &ScalarAsk) -> Result<Vec<Leaf>, Refusal>
    requires limits { IsScalarWithinLimits ask.now }
    requires ordered { ask.now.from <ℤ ask.now.to }
    ensures found { IfOk result (λ found. AreScalarLeaves ask.now found.items) }
    ensures stopped { IfErr result (λ refusal. (refusal ≡ Refusal.Memory)
        ⊎ (found_scalar ask.now ≡ Err refusal)) }
{
    let judge = scalar_judge(ask);
    let root = scalar_root(ask);
    law_holds(&judge.scalar.law);
    leaves_by_one(alloc, MAX_LEAVES, &judge, root)
}

/// Searches as `search_scalar` does, in the calling thread: nothing waits, and no gate is passed. Errors are those of
/// `search_scalar`.
pub fn search_scalar_alone(alloc: Global, ask: &ScalarAsk) -> Result<Vec<Leaf>, Refusal>
    requires { IsScalarWithinLimits ask.now }
    ensures found { IfOk result (λ found. AreScalarLeaves ask.now found.items) }
    ensures stopped { IfErr result (λ refusal. (refusal ≡ Refusal.Memory)
        ⊎ (found_scalar ask.now ≡ Err refusal)) }
{
    if ask.from < ask.to {
        search_span_alone(alloc, ask)
    } else {
        Err(outside_refusal(ask))
    }
}
