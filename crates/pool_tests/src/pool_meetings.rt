// Tests of pools whose seats work at once, each in a thread: the leaves that they find, and workers that meet.
ghost use Rattle.std.specs.Prelude.{◌≡◌, ◌<◌, ◌≤◌, ℕ, None, pos, neg_ℤ, length, slice_index_or};
ghost use Rattle.std.specs.List.{AllByRecursion};
ghost use Rattle.steal_pool.specs.Pools.{AreLinked, CanMake};
ghost use Rattle.steal_pool.specs.Runs.{AreFree, HasWorked};
ghost use Rattle.steal_pool.specs.Seats.{IsLeft, Seat};
ghost use Rattle.pool_tests.specs.Judges.{long_crossing, span, stairs};
ghost use Rattle.pool_tests.specs.Named.{AreNamed};

use crate::judges::{Crossing, Stairs, root_node};
use crate::pool_seats::push_right_parts;
use gf_edges::{Gate, OpenGate};
use halving::Judge;
use span_ledger::{LedgerSeat, SpanLedger};
use std::alloc::Global;
use std::marker::Brand;
use std::sync::Wait;
use std::sync::atomic::{AtomicU64, Ordering};
use std::test::*;
use std::thread;
use std::thread::Threads;
use steal_pool::{Naming, PoolError, PoolSeat, finish, make, run};

// Returns how many leaves of a tree of five this many workers enter at a limit, or the error of the run.
fn leaf_count_by_workers<R: Threads + Wait + Sync>(
    rt: &R,
    alloc: Global,
    workers: u32,
    limit: u32,
) -> Result<usize, PoolError>
    requires { (1 ≤ workers) × (workers ≤ 64) }
{
    let book = run(
        rt,
        alloc,
        &Stairs,
        root_node(0, 5),
        workers,
        limit,
        &OpenGate,
    )?;
    Ok(book.entries.len())
}

// Tells whether this many workers find the five leaves of a tree at a limit of five, and are refused at a limit of
// four.
fn workers_find_five_leaves<R: Threads + Wait + Sync>(rt: &R, alloc: Global, workers: u32) -> bool {
    if workers < 1 || workers > 64 {
        return false;
    }
    leaf_count_by_workers(rt, alloc, workers, 5) == Ok(5)
        && leaf_count_by_workers(rt, alloc, workers, 4) == Err(PoolError::TooMany)
}

// Shows that one, two, four and 64 workers find the same five leaves at a limit of five, and are refused at a limit of
// four.
#[test]
fn any_number_of_workers_finds_the_leaves(rt: HostRuntime) {
    for workers in [1, 2, 4, 64] {
        assert!(rt; workers_find_five_leaves(&rt, rt.alloc(), workers));
    }
}

// The most looks of a worker that is held whether enough have come. After them it gives up, so that a test ends.
const TURNS: u64 = 20_000_000;

// A gate at which workers meet. It lets the first `unheld` passes go, and holds each later one until `needed` passes
// are counted. A worker that is held makes no other pass, so those that meet are different workers.
#[derive(Drop)]
struct Meeting {
    unheld: u64,
    needed: u64,
    passes: AtomicU64,
    given_up: AtomicU64,
}

impl Meeting {
    // Holds the calling worker until the gate has counted the needed passes. After `TURNS` looks it gives up, and sets
    // `given_up` to 1, so that a test ends.
    fn wait_for_others(&self) {
        for _ in 0..TURNS {
            if self.passes.load(Ordering::SeqCst) >= self.needed {
                return;
            }
            thread::yield_now();
        }
        self.given_up.store(1, Ordering::SeqCst);
    }
}

impl Gate for Meeting {
    // Counts the pass of a worker, and holds the worker until enough have come, unless its pass is one of the first.
    fn pass(&self, _worker: u32) {
        if self.passes.fetch_add(1, Ordering::SeqCst) >= self.unheld {
            self.wait_for_others();
        }
    }
}

// Makes a gate at which no worker has passed. It lets the first `unheld` passes go, and holds each later one until
// `needed` passes are counted.
fn new_meeting(unheld: u64, needed: u64) -> Meeting {
    Meeting {
        unheld,
        needed,
        passes: AtomicU64::new(0),
        given_up: AtomicU64::new(0),
    }
}

// Shows that two workers of a run are at work at the same time: each is held at the gate until both have passed. The
// first pass, which is let go, is that for the root, which the first worker makes before the other starts.
#[test]
fn two_workers_meet(rt: HostRuntime) -> Result<(), Fail> {
    let gate = new_meeting(1, 3);
    let root = root_node(-43_200, 2_721_600);
    let Ok(book) = run(&rt, rt.alloc(), &Crossing, root, 2, 1000, &gate) else {
        assert!(rt; false);
        return Ok(());
    };
    assert!(rt; book.entries.len() > 2);
    assert!(rt; has_nobody_given_up(&gate));
    Ok(())
}

// Works until the seat finds no more nodes or stops before its work is done. The result is dropped, since the seat
// itself keeps why it stopped.
fn work_to_end<R: Wait, N: Naming, J: Judge, G: Gate>(rt: &R, seat: &mut PoolSeat<N, J, G>)
    requires free { seat.old.refusal ≡ None }
    ensures { HasWorked N.rules seat.old seat.new }
{
    let _ = seat.work(rt);
}

// Lets all seats work to their end at the same time, each in a thread. All threads have ended when the call returns.
fn work_all_seats<R: Threads + Wait + Sync, N: Naming + Send + Sync, J: Judge, G: Gate>(
    rt: &R,
    seats: &mut [PoolSeat<N, J, G>],
)
    requires free { AreFree seats.old }
    ensures worked { (k : ℕ) (d : Seat) → k < length seats.old
        → HasWorked N.rules (slice_index_or seats.old k d) (slice_index_or seats.new k d) }
{
    thread::for_each_mut(
        rt,
        seats,
        64,
        &|_, seat: &mut PoolSeat<N, J, G>|
            requires { seat.now.refusal ≡ None }
            ensures { HasWorked N.rules seat.entry.now seat.exit.now }
        { work_to_end(rt, seat) },
    );
}

// Lets the first seat split the node in its hand `count` times and put the right parts on its deque, and then lets all
// seats work to their end at the same time. Returns whether all these parts went on the deque.
fn push_parts_and_work<R: Threads + Wait + Sync, N: Naming + Send + Sync, J: Judge, G: Gate>(
    rt: &R,
    judge: &J,
    seats: &mut [PoolSeat<N, J, G>],
    count: u32,
) -> bool
    requires named { AreNamed N.rules (J.rules judge.now) }
    requires some { 0 < length seats.old }
    requires free { AreFree seats.old }
    ensures linked { AreLinked seats.old → AreLinked seats.new }
    ensures left { AllByRecursion (IsLeft N.rules) seats.new }
{
    let pushed = push_right_parts(judge, &mut seats[0], count);
    work_all_seats(rt, seats);
    pushed
}

// Tells whether four seats meet at a gate that holds each until all four have come. Three nodes lie on the deque of
// the first seat when all start, so each other seat takes one and comes to the gate with it.
fn four_seats_meet<N: Naming + Send + Sync, R: Threads + Wait + Sync>(
    rt: &R,
    alloc: Global,
    ledger: &SpanLedger,
    entries: Vec<LedgerSeat>,
) -> bool
    requires pool { CanMake N.rules stairs ledger.now entries.items (span (pos 0) (pos 100)) }
{
    let gate = new_meeting(0, 4);
    let root = root_node(0, 100);
    let Ok(mut seats) = make::<N, Stairs, Meeting>(alloc, &Stairs, ledger, entries, root, &gate)
    else {
        return false;
    };
    let pushed = push_parts_and_work(rt, &Stairs, seats.as_mut_slice(), 3);
    pushed && has_nobody_given_up(&gate)
}

// Shows that four workers of a pool are at work at the same time: each is held at a gate until all four have come.
#[test]
fn four_workers_meet(rt: HostRuntime) -> Result<(), Fail> {
    let (ledger, entries) = SpanLedger::new(rt.alloc(), root_node(0, 100), 100, 4)?;
    assert!(rt; four_seats_meet::<Brand, _>(&rt, rt.alloc(), &ledger, entries));
    Ok(())
}

// Returns how many passes of workers the gate has counted.
fn pass_count(gate: &Meeting) -> u64 {
    gate.passes.load(Ordering::SeqCst)
}

// Tells whether no worker gave up while it waited at the gate, so that all that waited there met.
fn has_nobody_given_up(gate: &Meeting) -> bool {
    gate.given_up.load(Ordering::SeqCst) == 0
}

// Tells whether four seats, two of which meet at the gate, leave nothing on their deques for `finish`: then `finish`
// judges no node, and so makes no pass of the gate.
fn seats_leave_nothing_to_finish<N: Naming + Send + Sync, R: Threads + Wait + Sync>(
    rt: &R,
    alloc: Global,
    ledger: &SpanLedger,
    entries: Vec<LedgerSeat>,
) -> bool
    requires pool { CanMake N.rules long_crossing ledger.now entries.items
        (span (neg_ℤ (pos 43200)) (pos 2721600)) }
{
    let gate = new_meeting(0, 2);
    let root = root_node(-43_200, 2_721_600);
    let Ok(mut seats) = make::<N, Crossing, Meeting>(alloc, &Crossing, ledger, entries, root, &gate)
    else {
        return false;
    };
    let pushed = push_parts_and_work(rt, &Crossing, seats.as_mut_slice(), 1);
    let met = has_nobody_given_up(&gate);
    let before = pass_count(&gate);
    let ended = finish(rt, alloc, seats).is_ok();
    pushed & met & ended & (pass_count(&gate) == before)
}

// Shows that four workers that work to their end leave no node on a deque, so that `finish` has nothing to judge.
#[test]
fn workers_leave_nothing_for_the_end(rt: HostRuntime) -> Result<(), Fail> {
    let root = root_node(-43_200, 2_721_600);
    let (ledger, entries) = SpanLedger::new(rt.alloc(), root, 1000, 4)?;
    assert!(rt; seats_leave_nothing_to_finish::<Brand, _>(&rt, rt.alloc(), &ledger, entries));
    Ok(())
}
