// What is fixed of a ledger, what a seat of it knows, and what it returns.
use spec_trees::{Booked, Leaf, Node};
use std::collections::LinkedList;

/// What is fixed when a ledger is made: leaves lie in `root`, at most `limit` of them are entered, and the numbers of
/// its seats are below `seats`.
#[derive(Clone, Copy)]
pub struct LedgerTerms {
    pub root: Node,
    pub limit: u32,
    pub seats: u32,
}

/// What a seat knows: its number, the entries that it made, the leaves that stood already when it entered them, and the
/// history as it last saw it. Contracts alone speak of it; no value of it is made.
pub struct SeatHistory {
    pub number: u64,
    pub mine: LinkedList<Booked>,
    pub again: LinkedList<Leaf>,
    pub seen: LinkedList<Booked>,
}

/// What entering a leaf returns: it stands at `place` now; it stood there already; as many leaves as the limit stood,
/// and this one was not among them; or memory ran out.
#[derive(Drop, PartialEq, Eq)]
pub enum Entry {
    Entered { place: u32 },
    Again { place: u32 },
    Full,
    Memory,
}

/// Why a ledger was not closed: `given` seats came back of the `made` ones.
#[derive(Drop, PartialEq, Eq)]
pub enum CloseError {
    Missing { given: u32, made: u32 },
}
