// The rows that are kept from one span of times to the next.
ghost use Rattle.std.specs.Prelude.{◌≡◌, ◌≤◌, ◌<◌};
ghost use Rattle.spec_chebyshev.specs.Rows.{IsArguments};
ghost use Rattle.granule_values.specs.Bases.{AreAll};

use crate::bases::Rows;
use crate::made_rows::MadeRows;
use spec_bodies::Quantity;
use spec_chebyshev::Ival62;

/// How many rows are kept. The arguments over whole granules and their parts come again in turn, and most searches have
/// fewer than these.
const KEPT_ROWS: usize = 16;

/// Rows that ranges are made of. Those that are needed and not there are made in the place of others, in turn.
#[derive(Drop)]
pub struct RangeRows {
    kept: [MadeRows; KEPT_ROWS],
    /// The place of the rows that were made last.
    last: usize,
}

impl RangeRows {
    /// Makes room for sixteen rows, without a row.
    #[inline(always)]
    pub fn new() -> RangeRows {
        RangeRows {
            kept: [MadeRows::none(); KEPT_ROWS],
            last: 0,
        }
    }

    // Returns the place of the rows of a quantity over some arguments with at least `n` entries, or the next place in
    // turn if there are none.
    fn place_for(&mut self, quantity: Quantity, arguments: Ival62, n: usize) -> usize
        ensures { result < 16 }
    {
        for place in 0..KEPT_ROWS {
            if self.kept[place].serve(quantity, arguments, n) {
                return place;
            }
        }
        self.last = self.last.wrapping_add(1) % KEPT_ROWS;
        self.last
    }

    /// Returns the rows of a quantity over some arguments with at least `n` entries, which are made unless they are there.
    pub(crate) fn rows_over(&mut self, quantity: Quantity, arguments: Ival62, n: usize) -> &Rows
        requires arguments { IsArguments arguments }
        requires few { n ≤ 32 }
        ensures arguments { result.now.plain.arguments ≡ arguments }
        ensures rows { AreAll quantity n result.now }
    {
        let place = self.place_for(quantity, arguments, n);
        let made = &mut self.kept[place];
        made.turn_to(quantity, arguments, n);
        &made.rows
    }
}
