// Tests of a pool's seats in one thread: what they push and take, and the books that they leave.
ghost use Rattle.std.specs.Prelude.{◌≡◌, ◌<◌, IsTrue, None, pos, neg_ℤ, length};
ghost use Rattle.steal_pool.specs.Pools.{CanMake};
ghost use Rattle.steal_pool.specs.Runs.{AreFree};
ghost use Rattle.steal_pool.specs.Seats.{IsLeft, IsNamed, SameSeat};
ghost use Rattle.pool_tests.specs.Judges.{long_crossing, span, stairs};
ghost use Rattle.pool_tests.specs.Named.{AreNamed};

use crate::judges::{Crossing, Stairs, root_node};
use gf_edges::{Gate, OpenGate};
use halving::{Judge, Node, Verdict};
use span_ledger::{Book, LedgerSeat, SpanLedger};
use std::alloc::Global;
use std::marker::Brand;
use std::sync::Wait;
use std::test::*;
use steal_pool::{Naming, PoolSeat, Pushed, finish, make};

// Splits the node in the seat's hand, puts its right part away, and returns where that went. None if the hand is empty
// or its node is not to be split.
fn push_right_part<N: Naming, J: Judge, G: Gate>(
    judge: &J,
    seat: &mut PoolSeat<N, J, G>,
) -> Option<Pushed>
    requires named { AreNamed N.rules (J.rules judge.now) }
    ensures same { SameSeat seat.old seat.new }
    ensures refusal { seat.new.refusal ≡ seat.old.refusal }
{
    let node = seat.node()?;
    let Verdict::Split = judge.judge(node) else {
        return None;
    };
    let (_, right) = judge.cut(node);
    Some(seat.push(right))
}

/// Splits the node in the seat's hand `count` times, and puts the right parts away one after the other. Returns
/// whether all of them went on the deque.
pub fn push_right_parts<N: Naming, J: Judge, G: Gate>(
    judge: &J,
    seat: &mut PoolSeat<N, J, G>,
    count: u32,
) -> bool
    requires named { AreNamed N.rules (J.rules judge.now) }
    ensures same { SameSeat seat.old seat.new }
    ensures refusal { seat.new.refusal ≡ seat.old.refusal }
{
    for _ in 0..count {
        let Some(Pushed::OnDeque) = push_right_part(judge, seat) else {
            return false;
        };
    }
    true
}

// Takes the next node into the seat's hand, and returns it. None if the hand is not empty, or no node is found.
fn take_next_node<N: Naming, J: Judge, G: Gate>(seat: &mut PoolSeat<N, J, G>) -> Option<Node>
    ensures same { SameSeat seat.old seat.new }
    ensures refusal { seat.new.refusal ≡ seat.old.refusal }
{
    match seat.node() {
        Some(_) => None,
        None => seat.take(),
    }
}

// Splits the node in the seat's hand 65 times, and then lets the seat work to its end. Returns whether the first 64
// right parts went on the deque and the next one on the local stack.
fn fill_deque_and_work<N: Naming, R: Wait>(rt: &R, seat: &mut PoolSeat<N, Stairs, OpenGate>) -> bool
    requires named { AreNamed N.rules stairs }
    requires free { seat.old.refusal ≡ None }
    ensures same { SameSeat seat.old seat.new }
    ensures left { IsLeft N.rules seat.new }
{
    let on_deque = push_right_parts(&Stairs, seat, 64);
    let kept = push_right_part(&Stairs, seat) == Some(Pushed::Kept);
    let ended = seat.work(rt).is_ok();
    on_deque & kept & ended
}

// Makes a pool of one seat over a hundred seconds, fills the seat's deque with 64 nodes, lets the seat work, and
// returns the book of the pool. None if the 65th node did not go on the local stack, or the pool does not end well.
fn book_of_one_seat<N: Naming, R: Wait>(
    rt: &R,
    alloc: Global,
    ledger: SpanLedger,
    entries: Vec<LedgerSeat>,
) -> Option<Book>
    requires pool { CanMake N.rules stairs ledger entries.items (span (pos 0) (pos 100)) }
    requires one { length entries.items ≡ 1 }
{
    let root = root_node(0, 100);
    let Ok(mut seats) = make::<N, Stairs, OpenGate>(
        alloc, &Stairs, &ledger, entries, root, &OpenGate,
    ) else {
        return None;
    };
    let Some(mut seat) = seats.pop() else {
        return None;
    };
    let pushed = fill_deque_and_work(rt, &mut seat);
    let Ok(_) = seats.push(seat) else {
        return None;
    };
    let Ok(entries) = finish(rt, alloc, seats) else {
        return None;
    };
    if !pushed {
        return None;
    }
    ledger.close(entries).ok()
}

// Shows that a deque takes 64 nodes in a row, that the local stack takes the 65th, and that the book has all hundred
// leaves.
#[test]
fn a_deque_takes_64_nodes_in_a_row(rt: HostRuntime) -> Result<(), Fail> {
    let (ledger, entries) = SpanLedger::new(rt.alloc(), root_node(0, 100), 100, 1)?;
    let Some(book) = book_of_one_seat::<Brand, _>(&rt, rt.alloc(), ledger, entries) else {
        assert!(rt; false);
        return Ok(());
    };
    assert!(rt; book.entries.len() == 100);
    Ok(())
}

// Tells whether the second seat takes the node from 1339200 to 1339400, which the first puts on its deque, and both
// then work to their end.
fn take_from_other<N: Naming, R: Wait>(
    rt: &R,
    first: &mut PoolSeat<N, Crossing, OpenGate>,
    second: &mut PoolSeat<N, Crossing, OpenGate>,
) -> bool
    requires named { AreNamed N.rules long_crossing }
    requires free { (first.old.refusal ≡ None) × (second.old.refusal ≡ None) }
    ensures first { SameSeat first.old first.new × IsLeft N.rules first.new }
    ensures second { SameSeat second.old second.new × IsLeft N.rules second.new }
{
    let right = Node {
        a: 1_339_200,
        b: 1_339_400,
        depth: 1,
    };
    let pushed = push_right_part(&Crossing, first) == Some(Pushed::OnDeque);
    let taken = take_next_node(second) == Some(right);
    let first_ended = first.work(rt).is_ok();
    let second_ended = second.work(rt).is_ok();
    pushed & taken & first_ended & second_ended
}

// Makes a pool of two seats over 400 seconds, lets the second take a node of the first in this thread, lets both work,
// and returns the book of the pool. None if the second did not take it, or the pool does not end well.
fn book_of_two_seats<N: Naming, R: Wait>(
    rt: &R,
    alloc: Global,
    ledger: SpanLedger,
    entries: Vec<LedgerSeat>,
) -> Option<Book>
    requires pool { CanMake N.rules long_crossing ledger entries.items
        (span (pos 1339000) (pos 1339400)) }
    requires two { length entries.items ≡ 2 }
{
    let root = root_node(1_339_000, 1_339_400);
    let Ok(mut seats) = make::<N, Crossing, OpenGate>(
        alloc, &Crossing, &ledger, entries, root, &OpenGate,
    ) else {
        return None;
    };
    let Some(mut second) = seats.pop() else {
        return None;
    };
    let Some(mut first) = seats.pop() else {
        return None;
    };
    let taken = take_from_other(rt, &mut first, &mut second);
    let Ok(_) = seats.push(first) else {
        return None;
    };
    let Ok(_) = seats.push(second) else {
        return None;
    };
    let Ok(entries) = finish(rt, alloc, seats) else {
        return None;
    };
    if !taken {
        return None;
    }
    ledger.close(entries).ok()
}

// Returns the number of the seat that entered the leaf from time `a` to `b` into the book, or none if no such leaf is
// there.
fn seat_of_leaf(book: &Book, a: i64, b: i64) -> Option<u32> {
    for booked in book.entries.iter() {
        if booked.leaf.node.a == a && booked.leaf.node.b == b {
            return Some(booked.seat);
        }
    }
    None
}

// Shows that seat 1 takes the node from 1339200 to 1339400 from the deque of seat 0 and enters its leaf, while seat 0
// enters the three leaves before.
#[test]
fn a_seat_takes_what_another_put_on_its_deque(rt: HostRuntime) -> Result<(), Fail> {
    let root = root_node(1_339_000, 1_339_400);
    let (ledger, entries) = SpanLedger::new(rt.alloc(), root, 100, 2)?;
    let Some(book) = book_of_two_seats::<Brand, _>(&rt, rt.alloc(), ledger, entries) else {
        assert!(rt; false);
        return Ok(());
    };
    assert!(rt; book.entries.len() == 4);
    for (a, b, seat) in [
        (1_339_000, 1_339_100, 0),
        (1_339_100, 1_339_150, 0),
        (1_339_150, 1_339_200, 0),
        (1_339_200, 1_339_400, 1),
    ] {
        assert!(rt; seat_of_leaf(&book, a, b) == Some(seat));
    }
    Ok(())
}

// Tells whether the seat `owner` puts the right part of its node on its deque and the seat `taker` steals it, and the
// owner then works to its end. No other deque holds a node meanwhile, so the taker can have it from this one alone.
fn hand_node_over<N: Naming, R: Wait>(
    rt: &R,
    seats: &mut [PoolSeat<N, Crossing, OpenGate>],
    owner: usize,
    taker: usize,
) -> bool
    requires named { AreNamed N.rules long_crossing }
    requires inside { (owner < length seats.old) × (taker < length seats.old) }
    requires free { AreFree seats.old }
    ensures free { IsTrue result → AreFree seats.new }
{
    let Some(Pushed::OnDeque) = push_right_part(&Crossing, &mut seats[owner]) else {
        return false;
    };
    let Some(_) = take_next_node(&mut seats[taker]) else {
        return false;
    };
    match seats[owner].work(rt) {
        Ok(()) => true,
        Err(_) => false,
    }
}

// Pairs of seats, of four, of which the first hands a node over to the second. Each seat does so to each other once.
const WAY: [(usize, usize); 12] = [
    (0, 1),
    (1, 0),
    (0, 2),
    (2, 0),
    (0, 3),
    (3, 1),
    (1, 2),
    (2, 1),
    (1, 3),
    (3, 2),
    (2, 3),
    (3, 0),
];

// Tells whether a node goes from the first seat to the second for all pairs of `WAY`, one after the other. A pair that
// names a seat that is not there fails.
fn hand_over_between_all_pairs<N: Naming, R: Wait>(
    rt: &R,
    seats: &mut [PoolSeat<N, Crossing, OpenGate>],
) -> bool
    requires named { AreNamed N.rules long_crossing }
    requires free { AreFree seats.old }
{
    for (owner, taker) in WAY {
        if owner >= seats.len() || taker >= seats.len() {
            return false;
        }
        if !hand_node_over(rt, seats, owner, taker) {
            return false;
        }
    }
    true
}

// Makes a pool of four seats over 16 days, and tells whether a node goes from the first seat to the second for all
// pairs of `WAY`.
fn make_and_hand_over_between_all_pairs<N: Naming, R: Wait>(
    rt: &R,
    alloc: Global,
) -> Result<bool, Fail>
    requires named { IsNamed N.rules long_crossing (span (neg_ℤ (pos 43200)) (pos 1339200)) }
{
    let root = root_node(-43_200, 1_339_200);
    let (ledger, entries) = SpanLedger::new(alloc, root, 1000, 4)?;
    let mut seats = make::<N, Crossing, OpenGate>(
        alloc, &Crossing, &ledger, entries, root, &OpenGate,
    )?;
    Ok(hand_over_between_all_pairs(rt, seats.as_mut_slice()))
}

// Shows that each of four seats steals a node from the deque of each other one, in this thread.
#[test]
fn each_of_four_seats_steals_from_each_other_one(rt: HostRuntime) -> Result<(), Fail> {
    assert!(rt; make_and_hand_over_between_all_pairs::<Brand, _>(&rt, rt.alloc())?);
    Ok(())
}
