// The entering of a leaf under the lock.
ghost use Rattle.std.specs.Prelude.{◌≡◌, ◌+◌, ◌<◌, Some, IsTrue, IsFalse};
ghost use Rattle.spec_trees.specs.declared.book.Booked.{Booked};
ghost use Rattle.spec_pool.specs.History.{Stands, LiesIn, Tells, Entering, repeated};
ghost use Rattle.span_ledger.specs.Rule.{HasBook, IsIdle, TakesBook, Writes, freed, own_part};
ghost use Rattle.span_ledger.specs.Seats.{IsSeatOf, MayEnter, part, terms};

use crate::desk::{LedgerSeat, SpanLedger};
use crate::ledger::{Add, Free, Lock, Raw};
use spec_pool::Entry;
use spec_trees::{Booked, Leaf};
use std::sync::Wait;
use std::thread;

// The word of the table that is the lock: 1 where it is taken, any other number where it is free.
const LOCK: usize = 0;

// The word of the table that counts the entries.
const COUNT: usize = 1;

// The slot of the table that holds the book.
const BOOK: usize = 0;

// Tries once to take the ledger's lock for the seat that `raw` belongs to, and the book with it. Returns false, and
// changes nothing, if another seat has the lock.
fn try_lock(ledger: &SpanLedger, raw: &mut Raw) -> bool
    requires ours { raw.old.table_id ≡ ledger.now.table.shared.table_id }
    requires idle { IsIdle raw.old.me }
    ensures same { raw.new.table_id ≡ raw.old.table_id }
    ensures taken { IsTrue result → TakesBook raw.old.me raw.new.me }
    ensures refused { IsFalse result → raw.new.me ≡ raw.old.me }
{
    ledger.table.shared.swap::<Lock>(raw, LOCK, 1) != 1
}

// Writes an entry into the book, which the seat has taken from the ledger with the lock. Returns the entry's place
// among all entries. Nothing is written if the leaf is in the book already (`Again`, with its place), if the book has
// as many entries as the limit (`Full`), or if memory is out (`Memory`). A book with room is asked for the leaf and gets
// the entry in one look-up; a full one is only asked.
fn write_entry(ledger: &SpanLedger, raw: &mut Raw, entry: Booked) -> Entry
    requires ours { raw.old.table_id ≡ ledger.now.table.shared.table_id }
    requires held { HasBook raw.old.me }
    requires own { (entry.seat ≡ (own_part raw.old.me).number) × (entry.seat < 64) }
    requires inside { LiesIn (terms ledger.now).root entry.leaf }
    ensures same { raw.new.table_id ≡ raw.old.table_id }
    ensures told { Writes ledger.now.limit raw.old.me entry result raw.new.me }
    ensures memory { result ≡ Entry.Memory
        → MayEnter ledger.now.limit entry.leaf (own_part raw.old.me).seen }
{
    let Some(mut register) = ledger.table.shared.exchange(raw, BOOK, None) else {
        unreachable!()
    };
    let place = register.len();
    if place >= ledger.limit as usize {
        let stands = register.find(entry.leaf);
        ledger.table.shared.exchange(raw, BOOK, Some(register));
        if let Some(place) = stands {
            return Entry::Again { place };
        }
        return Entry::Full;
    }
    let entered = register.enter(entry);
    ledger.table.shared.exchange(raw, BOOK, Some(register));
    let Ok(stands) = entered else {
        return Entry::Memory;
    };
    if let Some(place) = stands {
        return Entry::Again { place };
    }
    ledger.table.shared.fetch_add::<Add>(raw, COUNT, 1);
    Entry::Entered {
        place: place as u32,
    }
}

// Gives the ledger's lock back, and the book with it, after an entry was written or refused. For a leaf that was in the
// book already `release_after_repeat` does so.
fn release_lock(ledger: &SpanLedger, raw: &mut Raw)
    requires ours { raw.old.table_id ≡ ledger.now.table.shared.table_id }
    requires held { HasBook raw.old.me }
    ensures same { raw.new.table_id ≡ raw.old.table_id }
    ensures free { raw.new.me ≡ freed raw.old.me (own_part raw.old.me) }
{
    ledger.table.shared.store::<Free>(raw, LOCK, 0);
}

// Gives the lock and the book back after a leaf that was in the book already, at `place`. The lock's word becomes the
// place plus 2. This number is written for the proof alone, whose rule of the table learns from it which leaf was
// repeated: for the code, any number but 1 is a free lock.
fn release_after_repeat(ledger: &SpanLedger, raw: &mut Raw, place: u32, leaf: Leaf)
    requires ours { raw.old.table_id ≡ ledger.now.table.shared.table_id }
    requires held { HasBook raw.old.me }
    requires stands { Stands leaf (own_part raw.old.me).seen place }
    ensures same { raw.new.table_id ≡ raw.old.table_id }
    ensures free { raw.new.me ≡ freed raw.old.me (repeated (own_part raw.old.me) leaf) }
{
    ledger
        .table
        .shared
        .store::<Free>(raw, LOCK, place as u64 + 2);
}

// Waits until the ledger's lock is free, and takes it and the book for the seat. Between two tries other threads run.
fn wait_for_lock<R: Wait>(rt: &R, ledger: &SpanLedger, raw: &mut Raw)
    requires ours { raw.old.table_id ≡ ledger.now.table.shared.table_id }
    requires idle { IsIdle raw.old.me }
    ensures same { raw.new.table_id ≡ raw.old.table_id }
    ensures taken { TakesBook raw.old.me raw.new.me }
{
    for _ in rt.forever() {
        if try_lock(ledger, raw) {
            break;
        }
        thread::yield_now();
    }
}

// Writes an entry into the book, which the seat has taken with the lock, then gives the lock and the book back. Returns
// the entry's place, or why nothing was written: the leaf is there already, the limit is reached, or memory is out.
fn write_and_release(ledger: &SpanLedger, raw: &mut Raw, entry: Booked) -> Entry
    requires ours { raw.old.table_id ≡ ledger.now.table.shared.table_id }
    requires held { HasBook raw.old.me }
    requires own { (entry.seat ≡ (own_part raw.old.me).number) × (entry.seat < 64) }
    requires inside { LiesIn (terms ledger.now).root entry.leaf }
    ensures same { raw.new.table_id ≡ raw.old.table_id }
    ensures idle { IsIdle raw.new.me }
    ensures told { Tells ledger.now.limit (own_part raw.old.me).seen entry
        (own_part raw.old.me) (own_part raw.new.me) result }
    ensures memory { result ≡ Entry.Memory
        → MayEnter ledger.now.limit entry.leaf (own_part raw.new.me).seen }
{
    let entered = write_entry(ledger, raw, entry);
    if let Entry::Again { place } = entered {
        release_after_repeat(ledger, raw, place, entry.leaf);
        return entered;
    }
    release_lock(ledger, raw);
    entered
}

impl SpanLedger {
    /// Enters a leaf of the root under the seat's number, and returns its place in order of arrival. Nothing is
    /// entered if an equal leaf, with the same node and mark, is there already (`Again`, with that leaf's place), or
    /// if the limit is reached (`Full`). `Memory` comes only for a new leaf for which the limit leaves room. The call
    /// waits for the lock.
    pub fn enter<R: Wait>(&self, rt: &R, seat: &mut LedgerSeat, leaf: Leaf) -> Entry
        requires ours { IsSeatOf self.now seat.old }
        requires inside { LiesIn (terms self.now).root leaf }
        ensures ours { IsSeatOf self.now seat.new }
        ensures entering { Entering (terms self.now).limit leaf
            (part seat.old) (part seat.new) result }
        ensures memory { result ≡ Entry.Memory
            → MayEnter (terms self.now).limit leaf (part seat.new).seen }
    {
        wait_for_lock(rt, self, &mut seat.raw);
        let entry = Booked {
            leaf,
            seat: seat.number,
        };
        write_and_release(self, &mut seat.raw, entry)
    }
}
