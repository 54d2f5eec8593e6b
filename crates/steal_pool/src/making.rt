// The making of a pool's seats: each has a stealer on the deque of each other.
ghost use Rattle.std.specs.Prelude.{◌≡◌, ◌<◌, ◌+◌, Some, IfOk, OnOk, length};
ghost use Rattle.std.specs.List.{AllByRecursion, AllZip};
ghost use Rattle.spec_trees.specs.declared.tree.Node.{Node};
ghost use Rattle.spec_trees.specs.Tree.{IsValid};
ghost use Rattle.span_ledger.specs.Seats.{IsSeatOf, part, table_of, terms};
ghost use Rattle.steal_pool.specs.Seats.{IsNamed, NewSeat, first_room};
ghost use Rattle.steal_pool.specs.Pools.{AccountFor, AllBegin, AreCounted, AreLinked, CanMake, HasRoom, HaveAllStealers, first_hand};
ghost use Rattle.steal_pool.specs.Workers.{new_stealer};
ghost use Rattle.steal_pool.specs.Stealers.{Linking, Links, LinksOther, Opens, gained, lent};

use crate::adding::add_item;
use crate::seat::PoolSeat;
use crate::stealer::{Attempts, Stealer};
use crate::view::Naming;
use crate::worker::Worker;
use gf_edges::Gate;
use halving::Judge;
use span_ledger::{LedgerSeat, SpanLedger};
use spec_pool::Memory;
use spec_trees::Node;
use std::alloc::Global;

impl<'p, N: Naming, J: Judge, G: Gate> PoolSeat<'p, N, J, G> {
    /// Makes a seat with an empty deque of its own and no stealer, and with a valid node or nothing in its hand. The
    /// only error is out of memory.
    pub fn new(
        alloc: Global,
        judge: &'p J,
        ledger: &'p SpanLedger,
        entries: LedgerSeat,
        hand: Option<Node>,
        gate: &'p G,
    ) -> Result<PoolSeat<'p, N, J, G>, Memory>
        requires rules { IsNamed N.rules (J.rules judge.now) (terms ledger.now).root }
        requires ours { IsSeatOf ledger.now entries }
        requires hand { (n : Node) → hand ≡ Some n → IsValid N.rules n }
        ensures made { IfOk result
            (λ s. NewSeat (part entries) (table_of ledger.now) (terms ledger.now) hand s) }
    {
        let worker = Worker::<N>::new(alloc, entries.number(), hand)?;
        let room = Vec::with_capacity(alloc, seat_room(entries.number()))?;
        Ok(PoolSeat {
            worker,
            entries,
            refusal: None,
            attempts: Attempts::new(),
            rounds: 0,
            room,
            judge,
            ledger,
            gate,
        })
    }

    // Makes a stealer on the seat's deque, for another seat. The only error is out of memory. It only forwards to the
    // worker: a proof about an element of a list needs a call on the whole element, not on a field of it.
    fn lend_stealer(&mut self) -> Result<Stealer<N>, Memory>
        ensures made { OnOk result (self.new ≡ lent self.old) }
        ensures stealer { IfOk result (λ e. e ≡ new_stealer self.old.worker) }
    {
        self.worker.lend_stealer()
    }

    // Adds a stealer on another seat's deque to the end of this seat's list of stealers. The only error is out of
    // memory.
    fn keep_stealer(&mut self, stealer: Stealer<N>) -> Result<(), Memory>
        ensures { OnOk result (self.new ≡ gained self.old stealer) }
    {
        self.worker.keep_stealer(stealer)
    }
}

// Returns the node that a new seat has in its hand: the root for seat number 0, and none for any other.
fn first_node(root: Node, number: u32) -> Option<Node>
    ensures { result ≡ first_hand root number }
{
    if number == 0 { Some(root) } else { None }
}

// Returns for how many seats of the ledger a new seat keeps room: the seat with number 0 keeps it for all that a ledger
// may have, 64, so that the end of the pool needs no memory, and any other keeps none.
fn seat_room(number: u32) -> usize
    ensures { result ≡ first_room number }
{
    if number == 0 { 64 } else { 0 }
}

// Makes a seat of the pool, without stealers, for each seat of the ledger, in the same order. Seat 0 has the root in
// its hand, and the others hold nothing. The only error is out of memory.
fn open_seats<'p, N: Naming, J: Judge, G: Gate>(
    alloc: Global,
    judge: &'p J,
    ledger: &'p SpanLedger,
    entries: Vec<LedgerSeat>,
    root: Node,
    gate: &'p G,
) -> Result<Vec<PoolSeat<'p, N, J, G>>, Memory>
    requires rules { IsNamed N.rules (J.rules judge.now) root }
    requires root { (terms ledger.now).root ≡ root }
    requires ours { AllByRecursion (IsSeatOf ledger.now) entries.items }
    ensures { IfOk result (λ v. AllZip (Opens ledger.now root) entries.items v.items) }
{
    let mut seats = Vec::new(alloc);
    for entry in entries {
        let hand = first_node(root, entry.number());
        let seat = PoolSeat::new(alloc, judge, ledger, entry, hand, gate)?;
        add_item(&mut seats, seat)?;
    }
    Ok(seats)
}

// Makes a stealer on the deque of seat `j`, and gives it to seat `i`. The only error is out of memory.
fn link_pair<'p, N: Naming, J: Judge, G: Gate>(
    seats: &mut [PoolSeat<'p, N, J, G>],
    i: usize,
    j: usize,
) -> Result<(), Memory>
    requires inside { (i < length seats.old) × (j < length seats.old) }
    ensures links { OnOk result (Links i j seats.old seats.new) }
{
    let stealer = seats[j].lend_stealer()?;
    seats[i].keep_stealer(stealer)
}

// Gives seat `i` a stealer on the deque of seat `j`, or does nothing if `i` and `j` are the same seat. The only error
// is out of memory.
fn link_unless_same<'p, N: Naming, J: Judge, G: Gate>(
    seats: &mut [PoolSeat<'p, N, J, G>],
    i: usize,
    j: usize,
) -> Result<(), Memory>
    requires inside { (i < length seats.old) × (j < length seats.old) }
    ensures links { OnOk result (LinksOther i j seats.old seats.new) }
{
    if i == j {
        return Ok(());
    }
    link_pair(seats, i, j)
}

// Gives seat `i` a stealer on the deque of each other seat, in order. The seats before `i` have theirs already. The
// ledger and the root are passed for the contract alone. The only error is out of memory.
fn link_seat<'p, N: Naming, J: Judge, G: Gate>(
    ledger: &SpanLedger,
    root: Node,
    seats: &mut [PoolSeat<'p, N, J, G>],
    i: usize,
) -> Result<(), Memory>
    requires inside { i < length seats.old }
    requires linking { Linking ledger.now root (length seats.old) i 0 seats.old }
    ensures linking { OnOk result (Linking ledger.now root (length seats.old) (i + 1) 0 seats.new) }
{
    for j in 0..seats.len() {
        link_unless_same(seats, i, j)?;
    }
    Ok(())
}

// Gives each seat a stealer on the deque of each other seat, in order. The ledger and the root are passed for the
// contract alone, which says how the seats begin. The only error is out of memory.
fn link_all_seats<'p, N: Naming, J: Judge, G: Gate>(
    ledger: &SpanLedger,
    root: Node,
    seats: &mut [PoolSeat<'p, N, J, G>],
) -> Result<(), Memory>
    requires linking { Linking ledger.now root (length seats.old) 0 0 seats.old }
    ensures linking { OnOk result
        (Linking ledger.now root (length seats.old) (length seats.old) 0 seats.new) }
{
    for i in 0..seats.len() {
        link_seat(ledger, root, seats, i)?;
    }
    Ok(())
}

/// Makes the seats of a pool, one for each seat of the ledger, in the same order. The first has the root in its hand,
/// and the others hold nothing. Each has a deque of its own, which takes 64 nodes without allocating, and a stealer on
/// each other deque. The only error is out of memory.
pub fn make<'p, N: Naming, J: Judge, G: Gate>(
    alloc: Global,
    judge: &'p J,
    ledger: &'p SpanLedger,
    entries: Vec<LedgerSeat>,
    root: Node,
    gate: &'p G,
) -> Result<Vec<PoolSeat<'p, N, J, G>>, Memory>
    requires { CanMake N.rules (J.rules judge.now) ledger.now entries.items root }
    ensures count { IfOk result (λ v. length v.items ≡ length entries.items) }
    ensures begin { IfOk result (λ v. AllBegin ledger.now root v.items) }
    ensures stealers { IfOk result (λ v. HaveAllStealers v.items) }
    ensures linked { IfOk result (λ v. AreLinked v.items) }
    ensures account { IfOk result (λ v. AccountFor N.rules root v.items) }
    ensures counted { IfOk result (λ v. AreCounted v.items) }
    ensures room { IfOk result (λ v. HasRoom v.items) }
{
    let mut seats = open_seats(alloc, judge, ledger, entries, root, gate)?;
    link_all_seats(ledger, root, seats.as_mut_slice())?;
    Ok(seats)
}
