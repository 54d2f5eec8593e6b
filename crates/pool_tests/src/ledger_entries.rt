// Tests of ledgers: one of two leaves, one that is closed with a seat missing, and one that two threads fill.
ghost use Rattle.std.specs.Prelude.{All, pos, ◌≡◌, ◌<◌, ◌+◌};
ghost use Rattle.span_ledger.specs.Seats.{IsSeatOf};
ghost use Rattle.pool_tests.specs.Ledgers.{IsHundred, IsThousands};

use span_ledger::{CloseError, Entry, LedgerSeat, SpanLedger};
use spec_trees::{Booked, Leaf, Mark, Node};
use std::sync::Wait;
use std::test::*;
use std::thread;
use std::thread::Threads;

// A root of a hundred seconds.
const HUNDRED: Node = Node {
    a: 0,
    b: 100,
    depth: 0,
};

// A root of 64,000 seconds: a thousand for each seat that a ledger may have.
const THOUSANDS: Node = Node {
    a: 0,
    b: 64_000,
    depth: 0,
};

// Returns a clear leaf of one second, from `time` to the second after it.
fn leaf_at(time: u32) -> Leaf
    requires { time < 64000 }
    ensures begins { result.node.a ≡ pos time }
    ensures ends { result.node.b ≡ pos (time + 1) }
{
    let a = time as i64;
    Leaf {
        node: Node {
            a,
            b: a + 1,
            depth: 3,
        },
        mark: Mark::Clear,
    }
}

// Enters the leaf of one second from `time` on into the ledger, and tells whether the ledger gives this answer.
fn enters_with_answer<R: Wait>(
    rt: &R,
    ledger: &SpanLedger,
    seat: &mut LedgerSeat,
    time: u32,
    answer: Entry,
) -> bool
    requires ours { IsSeatOf ledger.now seat.old }
    requires root { IsHundred ledger.now }
    requires time { time < 100 }
    ensures { IsSeatOf ledger.now seat.new }
{
    ledger.enter(rt, seat, leaf_at(time)) == answer
}

// Shows what a ledger with a limit of two leaves answers: the first two leaves get places 0 and 1, an equal leaf is
// told the place of the one that is there, also when the ledger is full, and a third leaf is refused.
#[test]
fn a_limit_of_two_refuses_a_third_leaf(rt: HostRuntime) -> Result<(), Fail> {
    let Ok((ledger, mut seats)) = SpanLedger::new(rt.alloc(), HUNDRED, 2, 2) else {
        assert!(rt; false);
        return Ok(());
    };
    let Some(mut second) = seats.pop() else {
        return Ok(());
    };
    let Some(mut first) = seats.pop() else {
        return Ok(());
    };
    let zeroth = Entry::Entered { place: 0 };
    assert!(rt; enters_with_answer(&rt, &ledger, &mut first, 5, zeroth));
    let again = Entry::Again { place: 0 };
    assert!(rt; enters_with_answer(&rt, &ledger, &mut second, 5, again));
    let next = Entry::Entered { place: 1 };
    assert!(rt; enters_with_answer(&rt, &ledger, &mut second, 4, next));
    assert!(rt; enters_with_answer(&rt, &ledger, &mut first, 6, Entry::Full));
    let again = Entry::Again { place: 1 };
    assert!(rt; enters_with_answer(&rt, &ledger, &mut first, 4, again));
    Ok(())
}

// Shows that a ledger of two seats, of which one is given back, is not closed, and that the error says so.
#[test]
fn a_missing_seat_is_reported(rt: HostRuntime) -> Result<(), Fail> {
    let Ok((ledger, mut seats)) = SpanLedger::new(rt.alloc(), HUNDRED, 2, 2) else {
        assert!(rt; false);
        return Ok(());
    };
    let _last = seats.pop();
    let Err(error) = ledger.close(seats) else {
        assert!(rt; false);
        return Ok(());
    };
    assert!(rt; error == CloseError::Missing { given: 1, made: 2 });
    Ok(())
}

// Enters a thousand leaves of one second each, the first of which starts at a thousand times the seat's number.
fn enter_thousand_leaves<R: Wait>(rt: &R, ledger: &SpanLedger, seat: &mut LedgerSeat)
    requires ours { IsSeatOf ledger.now seat.old }
    requires root { IsThousands ledger.now }
    ensures { IsSeatOf ledger.now seat.new }
{
    let first = seat.number() * 1000;
    for k in 0..1000 {
        ledger.enter(rt, seat, leaf_at(first + k));
    }
}

// Lets each seat enter its own thousand leaves of one second, all seats at the same time, each in a thread.
fn enter_all_leaves<R: Threads + Wait + Sync>(rt: &R, ledger: &SpanLedger, seats: &mut [LedgerSeat])
    requires ours { All (IsSeatOf ledger.now) seats.old }
    requires root { IsThousands ledger.now }
    ensures { All (IsSeatOf ledger.now) seats.new }
{
    thread::for_each_mut(
        rt,
        seats,
        64,
        &|_, seat: &mut LedgerSeat|
            requires { IsSeatOf ledger.now seat.now × IsThousands ledger.now }
            ensures { IsSeatOf ledger.entry.now seat.exit.now }
        { enter_thousand_leaves(rt, ledger, seat) },
    );
}

// Returns how many of the entries of a book the seat with number 0 made.
fn entry_count_of_first_seat(entries: &[Booked]) -> u32 {
    let mut count = 0u32;
    for entry in entries {
        if entry.seat == 0 {
            count = count.saturating_add(1);
        }
    }
    count
}

// Shows that two threads, each with a seat, enter two thousand different leaves, a thousand each, and that the closed
// book has all of them.
#[test]
fn two_threads_enter_each_leaf_once(rt: HostRuntime) -> Result<(), Fail> {
    let Ok((ledger, mut seats)) = SpanLedger::new(rt.alloc(), THOUSANDS, 5000, 2) else {
        assert!(rt; false);
        return Ok(());
    };
    enter_all_leaves(&rt, &ledger, seats.as_mut_slice());
    let Ok(book) = ledger.close(seats) else {
        assert!(rt; false);
        return Ok(());
    };
    assert!(rt; book.entries.len() == 2000);
    assert!(rt; entry_count_of_first_seat(&book.entries) == 1000);
    Ok(())
}
