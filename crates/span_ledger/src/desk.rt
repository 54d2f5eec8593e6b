// A ledger and a seat of it.
ghost use Rattle.std.specs.Prelude.{◌≡◌, ◌<◌, ◌≤◌, length};
ghost use Rattle.span_ledger.specs.Rule.{the_part};

use crate::ledger::{Ledger, Raw};
use spec_trees::Node;

/// A locked book of leaves. Contracts see its `terms`: the root, the limit and the number of seats.
#[derive(Drop)]
pub struct SpanLedger {
    pub(crate) table: Ledger,
    pub(crate) root: Node,
    pub(crate) limit: u32,
    pub(crate) seats: u32,
    ghost words: { table.shared.table_id.words ≡ 2 },
    ghost slots: { table.shared.table_id.slots ≡ 1 },
    ghost root_is: { table.shared.key.root ≡ root },
    ghost limit_is: { table.shared.key.limit ≡ limit },
    ghost seats_are: { table.shared.key.seats ≡ seats },
    ghost some: { 0 < seats },
    ghost most: { seats ≤ 64 },
}

/// The right to enter leaves under a number. Contracts see its `part`: the number, the entries that it made, the leaves
/// that stood already, and the history as it last saw it.
#[derive(Drop)]
pub struct LedgerSeat {
    pub(crate) raw: Raw,
    pub(crate) number: u32,
    ghost idle: { raw.me.0.holds ≡ 0 },
    ghost empty: { length raw.me.1 ≡ 0 },
    ghost one: { length raw.me.0.parts ≡ 1 },
    ghost is: { (the_part raw.me.0.parts).number ≡ number },
    ghost small: { number < 64 },
}
