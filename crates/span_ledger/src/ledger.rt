// The table under the ledger, with its rule: the lock, the count of entries, and the slot of the register.
use crate::register::Register;
use atomic_table::{Join, Play, Seat, Split, Table, TableRule};
use spec_pool::{LedgerTerms, SeatHistory};
use std::alloc::Global;
use std::collections::LinkedList;

/// What a seat of the table knows: whether it has the lock, from which to which it may still make numbers of seats, and
/// its parts of the history, one for each number. Contracts alone speak of it; no value of it is made.
pub struct SeatView {
    pub holds: u64,
    pub low: u64,
    pub high: u64,
    pub parts: LinkedList<SeatHistory>,
}

/// The rule of the ledger.
pub struct Law;

impl TableRule<Option<Register>, SeatView, LedgerTerms> for Law {
    ghost use Rattle.span_ledger.specs.Rule.{Kept, newcomer};

    ghost holds = { Kept };

    ghost first = { newcomer };
}

/// The step that takes the lock, and the register with it, or finds it taken.
pub struct Lock;

impl Play<Option<Register>, SeatView> for Lock {
    ghost use Rattle.span_ledger.specs.Rule.{Locks};

    ghost then = { Locks };
}

/// The step that enters what the register has gained.
pub struct Add;

impl Play<Option<Register>, SeatView> for Add {
    ghost use Rattle.span_ledger.specs.Rule.{Adds};

    ghost then = { Adds };
}

/// The step that gives back the register and the lock. The number that is stored, 0 or 2 and the place of a leaf that
/// was to be entered again, is there for the proof alone.
pub struct Free;

impl Play<Option<Register>, SeatView> for Free {
    ghost use Rattle.span_ledger.specs.Rule.{Frees};

    ghost then = { Frees };
}

/// The steps that make seats and join them.
pub struct SeatSplits;

impl Split<SeatView> for SeatSplits {
    ghost use Rattle.span_ledger.specs.Rule.{maker_after, made};

    ghost left = { maker_after };

    ghost right = { made };
}

impl Join<SeatView> for SeatSplits {
    ghost use Rattle.span_ledger.specs.Rule.{joined, spent as nothing};

    ghost both = { joined };

    ghost spent = { nothing };
}

/// A seat of the table under the ledger.
pub type Raw = Seat<Option<Register>, SeatView>;

/// The table under the ledger, with the rule `Law`.
pub type Ledger = Table<Option<Register>, SeatView, LedgerTerms, Law, Global>;
