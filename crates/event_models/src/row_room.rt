// Room for the row of a quantity over a line of arguments, which serves every granule with that line.
ghost use Rattle.std.specs.Prelude.{◌≡◌, ◌≤◌, IsTrue};
ghost use Rattle.event_models.specs.Rows.{IsLine};
ghost use Rattle.event_models.specs.Made.{AreMade};

use crate::filling::write_entries;
use crate::filling_slopes::write_slope_entries;
use crate::rows::{ENTRIES, Kind, Line, RowModel};
use body_states::Quantity;
use span_models::TERMS;

/// The row of a quantity over a line of arguments, and how many of its entries are made: the others are not read.
#[derive(Clone, Copy)]
pub(crate) struct RowRoom {
    pub quantity: Quantity,
    pub line: Line,
    pub entries: usize,
    pub rows: [RowModel; ENTRIES],
    ghost made: { AreMade quantity line entries rows },
}

impl RowRoom {
    ghost use Rattle.event_models.specs.Granules.{IsRowOf};

    /// Returns room in which no entry is made, so that it serves no granule.
    pub fn new() -> RowRoom {
        let none = RowModel {
            coefficients: [0; TERMS],
            size: 0,
            error: 0,
        };
        RowRoom {
            quantity: Quantity::Position,
            line: Line {
                middle: 0,
                slope: 0,
            },
            entries: 0,
            rows: [none; ENTRIES],
        }
    }

    /// Tells whether the row is over a line, whatever its quantity and however many entries it has.
    pub fn is_over(&self, line: &Line) -> bool
        ensures { IsTrue result → self.now.line ≡ line.now }
    {
        self.line.middle == line.middle && self.line.slope == line.slope
    }

    /// Tells whether the row is that of a quantity over a line, with at least `n` entries.
    pub fn serves(&self, quantity: Quantity, line: &Line, n: usize) -> bool
        ensures { IsTrue result → IsRowOf quantity line.now n self.now }
    {
        self.quantity == quantity && self.is_over(line) && n <= self.entries
    }

    /// Replaces the row by that of a quantity over a line: for each `k` below `n` a model of T_k for positions, of
    /// k U_(k-1) for velocities.
    pub fn write_row(&mut self, quantity: Quantity, line: &Line, n: usize)
        requires line { IsLine line.now }
        requires some { 1 ≤ n }
        requires few { n ≤ 32 }
    {
        self.quantity = quantity;
        self.line = *line;
        self.entries = n;
        match quantity {
            Quantity::Position => write_entries(Kind::First, line, n, &mut self.rows),
            Quantity::Velocity => write_slope_entries(line, n, &mut self.rows),
        }
    }
}
