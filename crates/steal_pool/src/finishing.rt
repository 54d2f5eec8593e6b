// The end of a pool: all stealers are joined, what is left on the deques is done, and the ledger's seats come back.
ghost use Rattle.std.specs.Prelude.{◌≡◌, ◌≤◌, ◌+◌, ◌*◌, List, [], Some, None, Err, IfOk, IfErr, IsOk, IsTrue, IsFalse, IsPermutation, length, vec_capacity};
ghost use Rattle.std.specs.List.{AllByRecursion, AllZip};
ghost use Rattle.spec_trees.specs.declared.tree.Node.{Node};
ghost use Rattle.spec_trees.specs.Tree.{IsSound, IsValid, leaf_count, leaves};
ghost use Rattle.steal_pool.specs.Seats.{IsLeft, Seat, with_room};
ghost use Rattle.steal_pool.specs.Closing.{Drains, Ended, IsRoomless, Leaves, SomeIsFull, worse, worst_stop};
ghost use Rattle.steal_pool.specs.declared.seat.Stop.TheVariants.{Full, Memory as OutOfMemory};
ghost use Rattle.steal_pool.specs.declared.finishing.FinishError.TheVariants.{Memory as NoMemory};
ghost use Rattle.steal_pool.specs.Pools.{AccountFor, AreCounted, AreLinked, ComeBack, HasRoom, IfTooMany, IsLeftOver, IsRefused, KeepNone, LeavesOver, NoneIsOutOfMemory, SomeIsOutOfMemory, entered_in, rounds_of};

use crate::adding::add_item;
use crate::joining::join_all_stealers;
use crate::seat::{PoolSeat, Stop};
use crate::view::Naming;
use gf_edges::Gate;
use halving::Judge;
use span_ledger::LedgerSeat;
use spec_pool::Memory;
use spec_trees::Leaf;
use std::alloc::Global;
use std::mem;
use std::sync::Wait;

/// Why a pool was not ended: the ledger was full when `leaf`, a leaf of the root, was to be entered, and these are its
/// seats, in order; or memory ran out.
#[derive(Drop)]
pub enum FinishError {
    TooMany { seats: Vec<LedgerSeat>, leaf: Leaf },
    Memory,
}

impl<'p, N: Naming, J: Judge, G: Gate> PoolSeat<'p, N, J, G> {
    // Returns why the seat stopped before its work was done, or none if it did not stop.
    fn stop_reason(&self) -> Option<Stop>
        ensures { result ≡ self.now.refusal }
    {
        self.refusal
    }

    // Takes the room that the seat keeps for the ledger's seats: an empty list, whose memory is there already.
    fn take_room(&mut self, alloc: Global) -> Vec<LedgerSeat>
        ensures empty { result.items ≡ [] }
        ensures room { vec_capacity result ≡ self.old.room }
        ensures seat { self.new ≡ with_room self.old self.new.room }
    {
        mem::replace(&mut self.room, Vec::new(alloc))
    }

    // Ends the seat, and returns its seat of the ledger. Its deque is popped a last time before, for what that shows
    // of the nodes that were put on it.
    fn end_seat(self) -> LedgerSeat
        ensures { Leaves self.entry result }
    {
        self.worker.pop_last_and_drop();
        self.entries
    }
}

// Returns the worse of two seats' reasons to stop. Out of memory is worse than a full ledger, which is worse than
// none. Of two full ledgers the first is returned, with the leaf that was refused then.
fn worse_stop(first: Option<Stop>, second: Option<Stop>) -> Option<Stop>
    ensures { result ≡ worse first second }
{
    match first {
        None => second,
        Some(Stop::Memory) => first,
        Some(Stop::Full(_)) => match second {
            Some(Stop::Memory) => second,
            Some(Stop::Full(_)) => first,
            None => first,
        },
    }
}

// Returns the worst reason for which one of the seats stopped: out of memory, else the full ledger that the first such
// seat met. None means that no seat stopped before its work was done.
fn worst_stop<'p, N: Naming, J: Judge, G: Gate>(seats: &[PoolSeat<'p, N, J, G>]) -> Option<Stop>
    ensures { result ≡ worst_stop seats.now }
{
    let mut worst = None;
    for seat in seats {
        worst = worse_stop(worst, seat.stop_reason());
    }
    worst
}

// Tells whether no seat stopped before its work was done.
fn have_no_stop<'p, N: Naming, J: Judge, G: Gate>(seats: &[PoolSeat<'p, N, J, G>]) -> bool
    ensures all { IsTrue result → KeepNone seats.now }
    ensures some { IsFalse result → KeepNone seats.now → ⊥ }
{
    worst_stop(seats).is_none()
}

// Lets each worker in turn work on what is left on its own deque, in this thread. If a seat has stopped before its
// work was done, nothing is done, and the first seat that stops here ends the loop.
fn drain_deques<'p, R: Wait, N: Naming, J: Judge, G: Gate>(
    rt: &R,
    seats: &mut [PoolSeat<'p, N, J, G>],
)
    requires left { AllByRecursion (IsLeft N.rules) seats.old }
    ensures { Drains N.rules seats.old seats.new }
{
    if !have_no_stop(seats) {
        return;
    }
    for i in 0..seats.len() {
        if seats[i].work(rt).is_err() {
            return;
        }
    }
}

// Joins all stealers into the seats whose deques they took from, then lets each worker in turn work on what is left on
// its own deque, unless a seat has stopped before.
fn end_work<'p, R: Wait, N: Naming, J: Judge, G: Gate>(rt: &R, seats: &mut [PoolSeat<'p, N, J, G>])
    requires linked { AreLinked seats.old }
    requires left { AllByRecursion (IsLeft N.rules) seats.old }
    ensures { Ended N.rules seats.old seats.new }
{
    join_all_stealers(seats);
    drain_deques(rt, seats);
}

// Takes the room for the ledger's seats that the first of a pool's seats keeps. Without a seat it is an empty list.
fn take_first_room<'p, N: Naming, J: Judge, G: Gate>(
    alloc: Global,
    seats: &mut [PoolSeat<'p, N, J, G>],
) -> Vec<LedgerSeat>
    ensures empty { result.items ≡ [] }
    ensures room { HasRoom seats.old → length seats.old ≤ vec_capacity result }
    ensures seats { AllZip IsRoomless seats.old seats.new }
{
    if seats.is_empty() {
        return Vec::new(alloc);
    }
    seats[0].take_room(alloc)
}

// Ends each of these seats, and adds the ledger's seats that they held to an empty list, in the same order. The only error
// is out of memory, and it never comes if the list has room for them.
fn end_each_seat<'p, N: Naming, J: Judge, G: Gate>(
    mut entries: Vec<LedgerSeat>,
    seats: Vec<PoolSeat<'p, N, J, G>>,
) -> Result<Vec<LedgerSeat>, Memory>
    requires empty { entries.items ≡ [] }
    ensures left { IfOk result (λ v. AllZip Leaves seats.entry.items v.items) }
    ensures room { length seats.entry.items ≤ vec_capacity entries → IsOk result }
{
    for seat in seats {
        add_item(&mut entries, seat.end_seat())?;
    }
    Ok(entries)
}

// Ends every seat of a pool, and returns the ledger's seats that they held, in the same order. The only error is out of
// memory, and it never comes if the first seat keeps room for them, as `make` leaves it.
fn end_seats<'p, N: Naming, J: Judge, G: Gate>(
    alloc: Global,
    mut seats: Vec<PoolSeat<'p, N, J, G>>,
) -> Result<Vec<LedgerSeat>, Memory>
    ensures left { IfOk result (λ v. AllZip Leaves seats.entry.items v.items) }
    ensures room { HasRoom seats.entry.items → IsOk result }
{
    let entries = take_first_room(alloc, seats.as_mut_slice());
    end_each_seat(entries, seats)
}

// Returns the ledger's seats of an ended pool, if no seat stopped early, so `worst` is none. Else the error says why
// the pool stopped: `TooMany`, with the ledger's seats and the refused leaf, for a full ledger, or `Memory`.
fn seats_or_stop(
    worst: Option<Stop>,
    entries: Vec<LedgerSeat>,
) -> Result<Vec<LedgerSeat>, FinishError>
    ensures back { IfOk result (λ v. (v.items ≡ entries.items) × (worst ≡ None)) }
    ensures too_many { IfErr result (λ e. IfTooMany e
        (λ es leaf. (es ≡ entries.items) × (worst ≡ Some (Full leaf)))) }
    ensures memory { result ≡ Err NoMemory → worst ≡ Some OutOfMemory }
{
    match worst {
        Some(Stop::Full(leaf)) => Err(FinishError::TooMany {
            seats: entries,
            leaf,
        }),
        Some(Stop::Memory) => Err(FinishError::Memory),
        None => Ok(entries),
    }
}

/// Ends a pool whose seats have all worked, and returns the ledger's seats in order. All stealers are joined, and each
/// worker empties its own deque, unless a seat stopped early. Then the error is `Memory` if a seat ran out of it. Else
/// it is `TooMany`, with the leaf of the first seat that met a full ledger. The call waits for the ledger's lock. It needs
/// no memory for what it returns, since the first seat keeps room for that from `make` on.
pub fn finish<'p, R: Wait, N: Naming, J: Judge, G: Gate>(
    rt: &R,
    alloc: Global,
    mut seats: Vec<PoolSeat<'p, N, J, G>>,
) -> Result<Vec<LedgerSeat>, FinishError>
    requires linked { AreLinked seats.items }
    requires left { AllByRecursion (IsLeft N.rules) seats.items }
    ensures back { IfOk result (λ v. ComeBack seats.entry.items v.items) }
    ensures free { IfOk result (λ v. KeepNone seats.entry.items) }
    ensures leaves { (root : Node) → AccountFor N.rules root seats.entry.items → IfOk result
        (λ v. IsPermutation (entered_in v.items) (leaves N.rules root)) }
    ensures rounds { (root : Node) → IsSound N.rules → IsValid N.rules root
        → AccountFor N.rules root seats.entry.items → AreCounted seats.entry.items → IfOk result
        (λ v. (ended : List Seat) × Ended N.rules seats.entry.items ended
        × KeepNone ended × (rounds_of ended + 1 ≡ 2 * leaf_count N.rules root)) }
    ensures too_many { IfErr result (λ e. IfTooMany e (λ es leaf. ComeBack seats.entry.items es)) }
    ensures memory { IfErr result
        (λ e. IfTooMany e (λ es leaf. NoneIsOutOfMemory seats.entry.items)) }
    ensures worst { IfErr result (λ e. IfTooMany e (λ es leaf. (ended : List Seat)
        × Ended N.rules seats.entry.items ended
        × NoneIsOutOfMemory ended × SomeIsFull N.rules leaf ended)) }
    ensures out_of_memory { HasRoom seats.entry.items → result ≡ Err NoMemory → (ended : List Seat)
        × Ended N.rules seats.entry.items ended × SomeIsOutOfMemory ended
        × ((root : Node) → AccountFor N.rules root seats.entry.items → LeavesOver N.rules root ended) }
    ensures refused { IfErr result (λ e. IfTooMany e (IsRefused seats.entry.items)) }
    ensures left_over { (root : Node) → AccountFor N.rules root seats.entry.items → IfErr result
        (λ e. IfTooMany e (IsLeftOver N.rules root)) }
{
    end_work(rt, seats.as_mut_slice());
    let worst = worst_stop(seats.as_slice());
    let Ok(entries) = end_seats(alloc, seats) else {
        return Err(FinishError::Memory);
    };
    seats_or_stop(worst, entries)
}
