// The seats of a pool: a worker with the right to enter leaves into the ledger.
ghost use Rattle.std.specs.Prelude.{◌≡◌};
ghost use Rattle.steal_pool.specs.Seats.{error_of};

use crate::stealer::Attempts;
use crate::view::Naming;
use crate::worker::Worker;
use gf_edges::Gate;
use halving::Judge;
use span_ledger::{LedgerSeat, SpanLedger};
use spec_trees::Leaf;
use std::marker::Model;

/// Why a worker stops before its work is done: the root has more leaves than the limit, or memory ran out.
#[derive(Clone, Copy, PartialEq, Eq)]
pub enum PoolError {
    TooMany,
    Memory,
}

/// Why a seat stopped before its work was done: the ledger was full when the leaf of the node in its hand was to be
/// entered, or memory ran out.
#[derive(Clone, Copy)]
pub enum Stop {
    Full(Leaf),
    Memory,
}

impl Stop {
    /// Returns the error with which a seat's work ends that stopped for this reason: `TooMany` for a full ledger,
    /// `Memory` for out of memory.
    pub fn error(self) -> PoolError
        ensures { result ≡ error_of self }
    {
        match self {
            Stop::Full(_) => PoolError::TooMany,
            Stop::Memory => PoolError::Memory,
        }
    }
}

/// A worker of a pool, with its judge, its ledger and its gate. Contracts see what it holds, its part of the ledger's
/// history, the ledger's table and terms, and why it stopped.
#[derive(Drop)]
pub struct PoolSeat<'p, N: Naming, J: Judge, G: Gate> {
    pub(crate) worker: Worker<N>,
    pub(crate) entries: LedgerSeat,
    pub(crate) refusal: Option<Stop>,
    pub(crate) attempts: Attempts,
    pub(crate) rounds: u64,
    pub(crate) room: Vec<LedgerSeat>,
    pub(crate) judge: &'p J,
    pub(crate) ledger: &'p SpanLedger,
    pub(crate) gate: &'p G,
}

impl<'p, N: Naming, J: Judge, G: Gate> Model for PoolSeat<'p, N, J, G> {
    ghost use Rattle.std.specs.Prelude.{◌≡◌, [], vec_capacity};
    ghost use Rattle.spec_trees.specs.Tree.{IsValid};
    ghost use Rattle.span_ledger.specs.Seats.{IsSeatOf, part, table_of, terms};
    ghost use Rattle.steal_pool.specs.Seats.{Seat, rules_within, seat_of};

    ghost Value = { Seat };

    ghost view = { λ s. seat_of s.worker (part s.entries) (table_of s.ledger.now)
        (terms s.ledger.now) s.refusal s.attempts.made s.rounds (vec_capacity s.room) };

    ghost invariant = { λ s.
        (N.rules ≡ rules_within (J.rules s.judge.now) (terms s.ledger.now).root)
        × IsValid (J.rules s.judge.now) (terms s.ledger.now).root
        × IsSeatOf s.ledger.now s.entries
        × (s.room.items ≡ []) };
}
