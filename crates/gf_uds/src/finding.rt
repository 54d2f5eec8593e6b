// The search of a scalar, by one walk or by workers.
ghost use Rattle.std.specs.Prelude.{◌≡◌, ◌<◌, ◌≤◌, ◌≤ℤ◌, ◌<ℤ◌, Err, IfOk, length};
ghost use Rattle.spec_trees.specs.Order.{CoverRoot, book_windows, ordered_leaves};
ghost use Rattle.spec_trees.specs.Tree.{Covers, leaf_count, leaves};
ghost use Rattle.spec_trees.specs.Windows.{windows};
ghost use Rattle.spec_events.specs.Events.{AreWindows};
ghost use Rattle.spec_scalars.specs.Searches.{IsLeftUndecided, events, rules, search_over};
ghost use Rattle.halving.specs.declared.run.RunError.TheVariants as R;
ghost use Rattle.steal_pool.specs.declared.seat.PoolError.TheVariants as P;

use crate::judge::ScalarJudge;
use crate::law::{Law, law_holds};
use gf_edges::Gate;
use halving::{RunError, run_one};
use spec_trees::{Book, Leaf, Node};
use std::alloc::Global;
use std::sync::Wait;
use std::thread::Threads;
use steal_pool::{PoolError, run};

/// Searches the times after `root.a` and up to `root.b` for those at which a scalar passes 0 in a wanted direction. 1
/// to 64 workers find the leaves of the search's tree and enter each once into the book. The windows that these leaves
/// make hold all times searched for, and a certain window holds exactly one. The error is `TooMany` if there are more
/// than `limit` leaves, or `Memory`. The call passes the gate before each judging.
pub fn find_scalar<R: Threads + Wait + Sync, L: Law + Sync + Drop, G: Gate>(
    rt: &R,
    alloc: Global,
    judge: &ScalarJudge<L>,
    root: Node,
    workers: u32,
    limit: u32,
    gate: &G,
) -> Result<Book, PoolError>
    requires workers { (1 ≤ workers) × (workers ≤ 64) }
    requires from { judge.now.scalar.first ≤ℤ root.a }
    requires inside { root.a <ℤ root.b }
    requires to { root.b ≤ℤ judge.now.scalar.last }
    requires depth { root.depth ≤ judge.now.plan.depth }
    ensures root { IfOk result (λ book. book.root ≡ root) }
    ensures leaves { let s = search_over (L.scalar judge.now.scalar.law)
        judge.now.scalar.first judge.now.scalar.last judge.now.plan in
        IfOk result (λ book. ordered_leaves book.entries.items ≡ leaves (rules s) root) }
    ensures cover { IfOk result (λ book. CoverRoot root book.entries.items) }
    ensures windows { let s = search_over (L.scalar judge.now.scalar.law)
        judge.now.scalar.first judge.now.scalar.last judge.now.plan in
        IfOk result (λ book. AreWindows (events s) (IsLeftUndecided s root)
        root.a root.b (book_windows book.entries.items)) }
    ensures few { IfOk result (λ book. length book.entries.items ≤ limit) }
    ensures too_many { let s = search_over (L.scalar judge.now.scalar.law)
        judge.now.scalar.first judge.now.scalar.last judge.now.plan in
        result ≡ Err P.TooMany → limit < leaf_count (rules s) root }
{
    law_holds(&judge.scalar.law);
    run(rt, alloc, judge, root, workers, limit, gate)
}

/// Returns the leaves of the tree of a scalar's search over a root span, in order of time, found by one walk in this
/// thread. Their windows hold all times at which the scalar passes 0 in a wanted direction. The error is `TooMany` if
/// there are more than `limit` leaves, or `Memory`.
pub fn scalar_leaves<L: Law + Sync + Drop>(
    alloc: Global,
    judge: &ScalarJudge<L>,
    root: Node,
    limit: u32,
) -> Result<Vec<Leaf>, RunError>
    requires from { judge.now.scalar.first ≤ℤ root.a }
    requires inside { root.a <ℤ root.b }
    requires to { root.b ≤ℤ judge.now.scalar.last }
    requires depth { root.depth ≤ judge.now.plan.depth }
    ensures leaves { let s = search_over (L.scalar judge.now.scalar.law)
        judge.now.scalar.first judge.now.scalar.last judge.now.plan in
        IfOk result (λ found. found.items ≡ leaves (rules s) root) }
    ensures cover { IfOk result (λ found. Covers root.a found.items root.b) }
    ensures windows { let s = search_over (L.scalar judge.now.scalar.law)
        judge.now.scalar.first judge.now.scalar.last judge.now.plan in
        IfOk result (λ found. AreWindows (events s) (IsLeftUndecided s root)
        root.a root.b (windows found.items)) }
    ensures few { IfOk result (λ found. length found.items ≤ limit) }
    ensures too_many { let s = search_over (L.scalar judge.now.scalar.law)
        judge.now.scalar.first judge.now.scalar.last judge.now.plan in
        result ≡ Err R.TooMany → limit < leaf_count (rules s) root }
{
    law_holds(&judge.scalar.law);
    run_one(alloc, judge, root, limit)
}
