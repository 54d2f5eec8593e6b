// Rows of a quantity over some arguments, which serve each granule that has these arguments over some times.
ghost use Rattle.std.specs.Prelude.{◌≡◌, ◌≤◌, IsTrue};
ghost use Rattle.spec_chebyshev.specs.Rows.{IsArguments};
ghost use Rattle.granule_values.specs.Bases.{AreAll};

use crate::bases::Rows;
use spec_bodies::Quantity;
use spec_chebyshev::Ival62;

/// The rows of a quantity over some arguments, and how many of their entries are made: the others are not read.
#[derive(Clone, Copy)]
pub(crate) struct MadeRows {
    pub quantity: Quantity,
    pub entries: usize,
    pub rows: Rows,
    ghost made: { AreAll quantity entries rows },
}

impl MadeRows {
    /// Returns rows of which no entry is made, so that they serve no granule with coefficients.
    #[inline(always)]
    pub fn none() -> MadeRows {
        MadeRows {
            quantity: Quantity::Position,
            entries: 0,
            rows: Rows::none(),
        }
    }

    /// Tells whether these are the rows of a quantity over some arguments, with at least `n` entries.
    pub fn serve(&self, quantity: Quantity, arguments: Ival62, n: usize) -> bool
        ensures arguments { IsTrue result → self.now.rows.plain.arguments ≡ arguments }
        ensures rows { IsTrue result → AreAll quantity n self.now.rows }
    {
        let own = self.rows.plain.arguments;
        self.quantity == quantity
            && own.lo == arguments.lo
            && own.hi == arguments.hi
            && n <= self.entries
    }

    /// Makes these the rows of a quantity over some arguments, with `n` entries, unless they serve for that already.
    pub fn turn_to(&mut self, quantity: Quantity, arguments: Ival62, n: usize)
        requires arguments { IsArguments arguments }
        requires few { n ≤ 32 }
        ensures arguments { self.new.rows.plain.arguments ≡ arguments }
        ensures rows { AreAll quantity n self.new.rows }
    {
        if !self.serve(quantity, arguments, n) {
            self.quantity = quantity;
            self.entries = n;
            self.rows.make_entries(quantity, arguments, n);
        }
    }
}
