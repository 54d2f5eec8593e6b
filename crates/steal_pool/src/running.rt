// Whole runs: all leaves of a root are entered by workers that run at once.
ghost use Rattle.std.specs.Prelude.{◌≡◌, ◌<◌, ◌≤◌, Some, None, Ok, Err, IfOk, IfErr, IsOk, length, slice_get};
ghost use Rattle.std.specs.List.{AllByRecursion, AllZip};
ghost use Rattle.spec_trees.specs.Tree.{IsSound, IsValid, leaf_count, leaves};
ghost use Rattle.spec_trees.specs.Order.{CoverRoot, ordered_leaves};
ghost use Rattle.spec_pool.specs.History.{Sound};
ghost use Rattle.span_ledger.specs.Seats.{AllFit, terms};
ghost use Rattle.steal_pool.specs.Seats.{IsLeft, IsNamed, Seat, rules_within};
ghost use Rattle.steal_pool.specs.Histories.{HasFilled, HasFinished, HaveComeTo, IsTooMany};
ghost use Rattle.steal_pool.specs.Pools.{AccountFor, AreCounted, AreLinked, CanMake, HasRoom, IfTooMany};
ghost use Rattle.steal_pool.specs.Runs.{AreAll, AreFree, AreSeatsOf, EnteredOnce, HasWorked, HaveEntered, IsLater, IsOverfull};
ghost use Rattle.steal_pool.specs.declared.seat.PoolError.TheVariants.{TooMany};

use crate::finishing::{FinishError, finish};
use crate::making::make;
use crate::seat::{PoolError, PoolSeat};
use crate::view::Naming;
use gf_edges::Gate;
use halving::{Judge, rules_are_sound};
use span_ledger::{Book, LedgerSeat, SpanLedger};
use spec_pool::Memory;
use spec_trees::Node;
use std::alloc::Global;
use std::marker::Brand;
use std::sync::Wait;
use std::thread;
use std::thread::Threads;

/// The most threads of a run, which is also the most workers.
const MAX_THREADS: usize = 64;

impl<'p, N: Naming, J: Judge, G: Gate> PoolSeat<'p, N, J, G> {
    // Starts the work on the root, which is in the seat's hand, before other threads start: passes the gate, and
    // judges the root. If the pool is `shared` with other workers, a root that is to be split is split, so that they
    // find a node at once. Out of memory is ignored here, since the seat's `work` splits the root again and meets it
    // then.
    fn start_with_root(&mut self, root: Node, shared: bool)
        requires hand { self.old.worker.hand ≡ Some root }
        requires valid { IsValid N.rules root }
        ensures later { IsLater N.rules self.old self.new }
        ensures refusal { self.new.refusal ≡ self.old.refusal }
    {
        let None = self.judge_node(root) else {
            return;
        };
        if !shared {
            return;
        }
        let _ = self.split_node(root);
    }

    // Works until the seat finds no more nodes or stops before its work is done. The result is dropped, since the seat
    // itself keeps why it stopped.
    fn work_to_end<R: Wait>(&mut self, rt: &R)
        requires free { self.old.refusal ≡ None }
        ensures { HasWorked N.rules self.old self.new }
    {
        let _ = self.work(rt);
    }
}

// Lets all seats work to their end at the same time: the last of the list in this thread, each other in a thread of its
// own. All threads have ended when the call returns.
fn work_with_last_here<R: Threads + Wait + Sync, N: Naming + Send + Sync, J: Judge, G: Gate>(
    rt: &R,
    seats: &mut [PoolSeat<N, J, G>],
)
    requires free { AreFree seats.old }
    ensures worked { AllZip (HasWorked N.rules) seats.old seats.new }
{
    thread::for_each_mut(
        rt,
        seats,
        MAX_THREADS,
        &|_, seat: &mut PoolSeat<N, J, G>|
            requires { seat.now.refusal ≡ None }
            ensures { HasWorked N.rules seat.entry.now seat.exit.now }
        { seat.work_to_end(rt) },
    );
}

// Lets all seats work to their end at the same time: the first of the list in this thread, since it has the root or its
// left part in its hand and so need not wait until threads are made. The list is reversed for the time of the call,
// since `for_each_mut` works on the last of a list in the calling thread.
fn work_with_first_here<R: Threads + Wait + Sync, N: Naming + Send + Sync, J: Judge, G: Gate>(
    rt: &R,
    seats: &mut [PoolSeat<N, J, G>],
)
    requires free { AreFree seats.old }
    ensures worked { AllZip (HasWorked N.rules) seats.old seats.new }
{
    seats.reverse();
    work_with_last_here(rt, seats);
    seats.reverse();
}

// Lets the first seat, which has the root in its hand, judge the root and split it for the others, and then lets all
// seats work to their end at the same time.
fn begin_and_work<R: Threads + Wait + Sync, N: Naming + Send + Sync, J: Judge, G: Gate>(
    rt: &R,
    seats: &mut [PoolSeat<N, J, G>],
    root: Node,
)
    requires some { 0 < length seats.old }
    requires hand { (s : Seat) → slice_get seats.old 0 ≡ Some s → s.worker.hand ≡ Some root }
    requires valid { IsValid N.rules root }
    requires free { AreFree seats.old }
    ensures later { AllZip (IsLater N.rules) seats.old seats.new }
    ensures left { AllByRecursion (IsLeft N.rules) seats.new }
{
    let shared = seats.len() > 1;
    seats[0].start_with_root(root, shared);
    work_with_first_here(rt, seats);
}

// Makes the seats of a pool for the seats of a ledger, lets them all work at the same time, and returns them once each
// has found no more nodes or has stopped early. The only error is out of memory while the seats are made.
fn make_and_work<'p, R: Threads + Wait + Sync, N: Naming + Send + Sync, J: Judge, G: Gate>(
    rt: &R,
    alloc: Global,
    judge: &'p J,
    ledger: &'p SpanLedger,
    entries: Vec<LedgerSeat>,
    root: Node,
    gate: &'p G,
) -> Result<Vec<PoolSeat<'p, N, J, G>>, Memory>
    requires { CanMake N.rules (J.rules judge.now) ledger.now entries.items root }
    ensures count { IfOk result (λ v. length v.items ≡ length entries.items) }
    ensures linked { IfOk result (λ v. AreLinked v.items) }
    ensures left { IfOk result (λ v. AllByRecursion (IsLeft N.rules) v.items) }
    ensures account { IfOk result (λ v. AccountFor N.rules root v.items) }
    ensures come { IfOk result (λ v. HaveComeTo N.rules ledger.now root
        (length entries.items) v.items) }
    ensures counted { IfOk result (λ v. AreCounted v.items) }
    ensures room { IfOk result (λ v. HasRoom v.items) }
    ensures seats { IfOk result (λ v. AreSeatsOf ledger.now v.items) }
{
    rules_are_sound(judge);
    let mut seats = make::<N, J, G>(alloc, judge, ledger, entries, root, gate)?;
    begin_and_work(rt, seats.as_mut_slice(), root);
    Ok(seats)
}

// Closes a ledger, of which all seats are given back, and returns the book of its entries. It cannot fail then.
fn close_ledger(ledger: SpanLedger, seats: Vec<LedgerSeat>) -> Book
    requires all { AreAll ledger seats.items }
    ensures root { result.root ≡ (terms ledger).root }
    ensures sound { Sound (terms ledger) result.entries.items }
    ensures fit { AllFit result.entries.items seats.items }
{
    let Ok(book) = ledger.close(seats) else {
        unreachable!()
    };
    book
}

// Closes the ledger of a pool that `ended` with its seats or an error, and returns its book: each leaf of the root
// once. The error is `TooMany` if the ledger was full for a leaf, or `Memory`.
fn book_or_error<N: Naming>(
    ledger: SpanLedger,
    root: Node,
    ended: Result<Vec<LedgerSeat>, FinishError>,
) -> Result<Book, PoolError>
    requires sound { IsSound N.rules }
    requires valid { IsValid N.rules root }
    requires root { (terms ledger).root ≡ root }
    requires ok { IfOk ended (λ v. AreAll ledger v.items × HaveEntered N.rules root v.items) }
    requires full { IfErr ended (λ e. IfTooMany e
        (λ es leaf. AreAll ledger es × IsOverfull N.rules root (terms ledger).limit es leaf)) }
    ensures root { IfOk result (λ book. book.root ≡ root) }
    ensures leaves { IfOk result
        (λ book. ordered_leaves book.entries.items ≡ leaves N.rules root) }
    ensures once { IfOk ended (λ v. EnteredOnce v.items) }
    ensures ended { IfOk result (λ book. IsOk ended) }
    ensures full { result ≡ Err TooMany → IsTooMany ended }
    ensures few { IfOk result (λ book. length book.entries.items ≤ (terms ledger).limit) }
    ensures too_many { result ≡ Err TooMany → (terms ledger).limit < leaf_count N.rules root }
{
    match ended {
        Ok(seats) => {
            let book = close_ledger(ledger, seats);
            Ok(book)
        }
        Err(FinishError::TooMany { seats, leaf: _ }) => {
            let _book = close_ledger(ledger, seats);
            Err(PoolError::TooMany)
        }
        Err(FinishError::Memory) => Err(PoolError::Memory),
    }
}

// Returns the book of the leaves of a root, each entered once by 1 to 64 workers. `N` is the name of the rules by which
// the nodes under the root are valid; `run` picks it. The error is `TooMany` if there are more than `limit` leaves, or
// `Memory`.
fn run_by_naming<R: Threads + Wait + Sync, N: Naming + Send + Sync, J: Judge, G: Gate>(
    rt: &R,
    alloc: Global,
    judge: &J,
    root: Node,
    workers: u32,
    limit: u32,
    gate: &G,
) -> Result<Book, PoolError>
    requires workers { (1 ≤ workers) × (workers ≤ 64) }
    requires rules { IsNamed N.rules (J.rules judge.now) root }
    ensures root { IfOk result (λ book. book.root ≡ root) }
    ensures leaves { IfOk result (λ book.
        ordered_leaves book.entries.items ≡ leaves (J.rules judge.now) root) }
    ensures few { IfOk result (λ book. length book.entries.items ≤ limit) }
    ensures too_many { result ≡ Err TooMany → limit < leaf_count (J.rules judge.now) root }
    ensures finished { IfOk result (λ book. HasFinished N.rules root workers limit) }
    ensures filled { result ≡ Err TooMany → HasFilled N.rules root workers limit }
{
    rules_are_sound(judge);
    let Ok((ledger, entries)) = SpanLedger::new(alloc, root, limit, workers) else {
        return Err(PoolError::Memory);
    };
    let Ok(seats) = make_and_work::<R, N, J, G>(rt, alloc, judge, &ledger, entries, root, gate)
    else {
        return Err(PoolError::Memory);
    };
    let ended = finish(rt, alloc, seats);
    book_or_error::<N>(ledger, root, ended)
}

/// Returns the book of the leaves of a valid root's tree, each entered once by 1 to 64 workers that work at the same
/// time. In order of time they are the tree's leaves from left to right. The error is `TooMany` if there are more than
/// `limit` leaves, or `Memory`, which goes before it if workers met both. Each worker passes the gate before each node
/// that it judges. The first judges the root before the others start, and once more in its work if the root is not split
/// then.
pub fn run<R: Threads + Wait + Sync, J: Judge, G: Gate>(
    rt: &R,
    alloc: Global,
    judge: &J,
    root: Node,
    workers: u32,
    limit: u32,
    gate: &G,
) -> Result<Book, PoolError>
    requires workers { (1 ≤ workers) × (workers ≤ 64) }
    requires valid { IsValid (J.rules judge.now) root }
    ensures root { IfOk result (λ book. book.root ≡ root) }
    ensures leaves { IfOk result (λ book.
        ordered_leaves book.entries.items ≡ leaves (J.rules judge.now) root) }
    ensures cover { IfOk result (λ book. CoverRoot root book.entries.items) }
    ensures few { IfOk result (λ book. length book.entries.items ≤ limit) }
    ensures too_many { result ≡ Err TooMany → limit < leaf_count (J.rules judge.now) root }
    ensures finished { IfOk result
        (λ book. HasFinished (rules_within (J.rules judge.now) root) root workers limit) }
    ensures filled { result ≡ Err TooMany
        → HasFilled (rules_within (J.rules judge.now) root) root workers limit }
{
    rules_are_sound(judge);
    run_by_naming::<R, Brand, J, G>(rt, alloc, judge, root, workers, limit, gate)
}
