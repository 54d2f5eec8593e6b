// Rows of the bases of one quantity, made once for all axes of all columns whose granules begin and end together.
ghost use Rattle.std.specs.Prelude.{◌≡◌, ◌≤◌, IsTrue};
ghost use Rattle.spec_chebyshev.specs.Rows.{IsArguments};
ghost use Rattle.granule_values.specs.Bases.{ArePlain, AreAll, IsServed};

use cheby_difference::{fill_slopes, fill_slopes_and_changes};
use cheby_enclose::empty_row;
use cheby_laws::{Row, fill_t, fill_tq};
use eph_model::Granule;
use spec_bodies::Quantity;
use spec_chebyshev::Ival62;

/// The row of a quantity's basis over some arguments: T_0, T_1, .. for positions, slopes of T_1, .. for velocities.
#[derive(Clone, Copy)]
pub struct PlainRow {
    pub arguments: Ival62,
    pub values: Row,
}

/// The rows of a quantity's basis and of its changes: these are Q for positions, and changes of slopes for velocities.
#[derive(Clone, Copy)]
pub struct Rows {
    pub plain: PlainRow,
    pub steps: Row,
}

impl PlainRow {
    /// Returns a row whose entries have not been made yet, with the single argument 0.
    #[inline(always)]
    pub(crate) fn none() -> PlainRow
        ensures { IsArguments result.arguments }
    {
        PlainRow {
            arguments: Ival62 { lo: 0, hi: 0 },
            values: empty_row(),
        }
    }

    /// Notes these arguments, and writes the row of a quantity's basis over them as far as sums over `n` terms read it.
    #[inline(always)]
    pub(crate) fn make_entries(&mut self, quantity: Quantity, arguments: Ival62, n: usize)
        requires arguments { IsArguments arguments }
        requires few { n ≤ 32 }
        ensures arguments { self.new.arguments ≡ arguments }
        ensures row { ArePlain quantity n self.new }
    {
        self.arguments = arguments;
        match quantity {
            Quantity::Position => fill_t(arguments, n, &mut self.values),
            Quantity::Velocity => fill_slopes(arguments, n, &mut self.values),
        }
    }
}

impl Rows {
    /// Returns two rows whose entries have not been made yet, with the single argument 0.
    #[inline(always)]
    pub(crate) fn none() -> Rows
        ensures { IsArguments result.plain.arguments }
    {
        Rows {
            plain: PlainRow::none(),
            steps: empty_row(),
        }
    }

    /// Notes these arguments, and writes the rows of the basis and its changes as far as sums over `n` terms read them.
    #[inline(always)]
    pub(crate) fn make_entries(&mut self, quantity: Quantity, arguments: Ival62, n: usize)
        requires arguments { IsArguments arguments }
        requires few { n ≤ 32 }
        ensures arguments { self.new.plain.arguments ≡ arguments }
        ensures rows { AreAll quantity n self.new }
    {
        self.plain.arguments = arguments;
        match quantity {
            Quantity::Position => fill_tq(arguments, n, &mut self.plain.values, &mut self.steps),
            Quantity::Velocity => {
                fill_slopes_and_changes(arguments, n, &mut self.plain.values, &mut self.steps)
            }
        }
    }
}

/// The row in the middle of some times and, if several, the rows over all, for granules with one `start` and `seconds`.
#[derive(Drop)]
pub struct RowRoom {
    pub start: i64,
    pub seconds: i64,
    pub entries: usize,
    pub centre: PlainRow,
    pub whole: Rows,
}

impl RowRoom {
    /// Returns room for rows, of which no entry has been made yet, so that they fit no granule with coefficients.
    #[inline(always)]
    pub fn new() -> RowRoom
        ensures { result.entries ≡ 0 }
    {
        RowRoom {
            start: 0,
            seconds: 0,
            entries: 0,
            centre: PlainRow::none(),
            whole: Rows::none(),
        }
    }

    /// Tells whether the rows serve a granule: one with their start and length and no more coefficients than entries.
    #[inline(always)]
    pub(crate) fn has_rows_for(&self, granule: &Granule) -> bool
        ensures { IsTrue result → IsServed granule.now self.now }
    {
        granule.start == self.start && granule.seconds == self.seconds && granule.n <= self.entries
    }

    /// Notes a granule's start and length and a number of entries for rows that the caller has still to write.
    #[inline(always)]
    pub(crate) fn turn_to(&mut self, granule: &Granule, entries: usize)
        requires { granule.now.n ≤ entries }
        ensures served { IsServed granule.now self.new }
        ensures entries { self.new.entries ≡ entries }
    {
        self.start = granule.start;
        self.seconds = granule.seconds;
        self.entries = entries;
    }
}
