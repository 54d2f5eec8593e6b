// The making of a ledger with its seats, and its closing.
ghost use Rattle.std.specs.Prelude.{◌≡◌, ◌≢◌, ◌<◌, ◌≤◌, length, min, IfOk, IfErr, All};
ghost use Rattle.spec_pool.specs.History.{Sound, terms_of};
ghost use Rattle.span_ledger.specs.Seats.{AllFit, AreNew, IsMissing, IsSeatOf, part, terms};

use crate::desk::{LedgerSeat, SpanLedger};
use crate::ledger::{Ledger, SeatSplits};
use crate::register::Register;
use spec_pool::{CloseError, LedgerTerms, Memory};
use spec_trees::{Book, Node};
use std::alloc::Global;

// The slot of the table that holds the book.
const BOOK: usize = 0;

impl SpanLedger {
    /// Makes an empty ledger for at most `limit` leaves of a root, and `seats` seats, 1 to 64, in order of their
    /// numbers from 0 on. A seat is the right to enter leaves. The only error is out of memory.
    pub fn new(
        alloc: Global,
        root: Node,
        limit: u32,
        seats: u32,
    ) -> Result<(SpanLedger, Vec<LedgerSeat>), Memory>
        requires seats { (1 ≤ seats) × (seats ≤ 64) }
        ensures terms { IfOk result (λ r. terms r.0 ≡ terms_of root limit seats) }
        ensures count { IfOk result (λ r. length r.1.items ≡ seats) }
        ensures made { IfOk result (λ r. AreNew r.0 r.1.items) }
    {
        let mut slots = Vec::new(alloc);
        let Ok(_) = slots.push(Some(Register::new(alloc))) else {
            return Err(Memory);
        };
        let terms = LedgerTerms { root, limit, seats };
        let Ok((table, first)) = Ledger::new(alloc, &[0, 0], slots, &terms) else {
            return Err(Memory);
        };
        let mut maker = first;
        let mut made = Vec::new(alloc);
        let mut number = 0;
        while number < seats - 1 {
            let raw = table.shared.split_seat::<SeatSplits>(&mut maker);
            let Ok(_) = made.push(LedgerSeat { raw, number }) else {
                return Err(Memory);
            };
            number += 1;
        }
        let Ok(_) = made.push(LedgerSeat { raw: maker, number }) else {
            return Err(Memory);
        };
        Ok((
            SpanLedger {
                table,
                root,
                limit,
                seats,
            },
            made,
        ))
    }

    /// Takes all seats of the ledger back, and returns the book of the entered leaves. If seats are missing, the error
    /// says how many were given and how many were made, and the ledger is lost. The call does not allocate.
    pub fn close(self, mut seats: Vec<LedgerSeat>) -> Result<Book, CloseError>
        requires { All (IsSeatOf self) seats.items }
        ensures root { IfOk result (λ book. book.root ≡ (terms self).root) }
        ensures sound { IfOk result (λ book. Sound (terms self) book.entries.items) }
        ensures seats { IfOk result (λ book. AllFit book.entries.items seats.items) }
        ensures all { IfOk result (λ book. length seats.items ≡ (terms self).seats) }
        ensures missing { IfErr result (λ e. length seats.items ≢ (terms self).seats) }
        ensures numbers { IfErr result (λ e. IsMissing (length seats.items) (terms self).seats e) }
    {
        if seats.len() != self.seats as usize {
            return Err(CloseError::Missing {
                given: capped_count(seats.len()),
                made: self.seats,
            });
        }
        let Some(last) = seats.pop() else {
            unreachable!()
        };
        let LedgerSeat {
            raw: mut all,
            number: _,
        } = last;
        while let Some(seat) = seats.pop() {
            let LedgerSeat { raw, number: _ } = seat;
            self.table.shared.join_seat::<SeatSplits>(&mut all, raw);
        }
        let mut closed = self.table.close_with(all);
        let Some(register) = closed.take(BOOK) else {
            unreachable!()
        };
        closed.free();
        Ok(Book {
            root: self.root,
            entries: register.into_entries(),
        })
    }
}

// Returns a count of seats as the 32-bit number that the error of `close` reports. A greater count becomes 4294967295;
// no ledger has so many seats.
fn capped_count(count: usize) -> u32
    ensures { result ≡ min count 4294967295 }
{
    count.min(4_294_967_295) as u32
}

impl LedgerSeat {
    /// Returns the seat's number, its place among the seats of its ledger, which is below 64.
    pub fn number(&self) -> u32
        ensures number { result ≡ (part self.now).number }
        ensures small { result < 64 }
    {
        self.number
    }
}
