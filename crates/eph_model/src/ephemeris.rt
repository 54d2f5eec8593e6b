// The checked ephemeris.
ghost use Rattle.std.specs.Prelude.{◌≡◌, ◌+◌, ◌-◌, ◌*◌, ◌^◌, ◌<◌, ◌≤◌, ◌≤ℤ◌, ◌<ℤ◌, ◌*ℤ◌, pos, neg_ℤ, OnOk, OnErr, All, IsTrue, length};
ghost use Rattle.spec_ephemeris.specs.declared.limits.TheConstants.{BODY_COLUMNS, LONGEST_BLOCK, MAX_BLOCKS, MAX_COEFFICIENTS};
ghost use Rattle.spec_ephemeris.specs.Header.{IsHeader, IsColumn, components, granule_size, has_column};
ghost use Rattle.spec_ephemeris.specs.Ephemeris.{IsStart, IsBlock, IsBodyNumber, IsEphemeris, empty_ephemeris, with_block, end_of, block_numbers, granule_numbers};
ghost use Rattle.spec_ephemeris.specs.Granules.{column_of, granule_of, granule_at};
ghost use Rattle.spec_ephemeris.specs.Borders.{nearest_border};
ghost use Rattle.spec_ephemeris.specs.Rounding.{pairs_of};
ghost use Rattle.spec_ephemeris.specs.Ticks.{IsInSeconds, IsTick, header_in_ticks, in_ticks};
ghost use Rattle.eph_model.specs.Grids.{IsGridOf};

use crate::borders::nearer_border;
use crate::columns::{component_count, is_present};
use crate::granules::{block_values_at, column_of, granule_place, granule_seconds, present_column};
use crate::grid::Grid;
use crate::rounding::push_pairs;
use spec_ephemeris::{BODY_COLUMNS, Column, Granule, Header, Rounded};
use spec_text::Decimal;
use std::alloc::{AllocError, Global};
use std::marker::Model;

/// The one error of a call that stores numbers: out of memory.
pub type Memory = AllocError;

/// A checked ephemeris: a header that meets the rules, the time at which the first block starts, and the numbers of
/// the blocks. Each block starts where the one before it ends, as JPL's ASCII files of development ephemerides have
/// them. Times are seconds of TDB since J2000, and after `in_ticks` ticks.
#[derive(Drop)]
pub struct Ephemeris {
    pub(crate) header: Header,
    pub(crate) start: i64,
    pub(crate) blocks: u32,
    pub(crate) numbers: Vec<Decimal>,
    pub(crate) pairs: Vec<Rounded>,
}

impl Model for Ephemeris {
    ghost use Rattle.spec_ephemeris.specs.Ephemeris.{Ephemeris, IsEphemeris};
    ghost use Rattle.eph_model.specs.Pairs.{ArePairs};

    ghost Value = { Ephemeris };

    ghost view = { λ e. record {
      header = e.header;
      start = e.start;
      blocks = e.blocks;
      numbers = e.numbers.items;
    } };

    ghost invariant = { λ e. IsEphemeris (record {
      header = e.header;
      start = e.start;
      blocks = e.blocks;
      numbers = e.numbers.items;
    }) × ArePairs e.numbers.items e.pairs.items };
}

// Returns a header whose block length counts ticks in place of seconds, `tick` of them in a second. All else stays.
fn header_in_ticks(header: Header, tick: u32) -> Header
    requires tick { IsTick tick }
    requires long { header.block_seconds ≤ℤ LONGEST_BLOCK }
    requires some { pos 1 ≤ℤ header.block_seconds }
    ensures { result ≡ header_in_ticks tick header }
{
    let Header {
        ncoeff,
        block_seconds,
        emrat,
        columns,
    } = header;
    Header {
        ncoeff,
        block_seconds: block_seconds * i64::from(tick),
        emrat,
        columns,
    }
}

impl Ephemeris {
    /// Makes an ephemeris without a block, whose first block will start at `start`. It does not allocate.
    pub fn empty(alloc: Global, header: Header, start: i64) -> Self
        requires header { IsHeader header }
        requires start { IsStart start }
        ensures { result ≡ empty_ephemeris header start }
    {
        Ephemeris {
            header,
            start,
            blocks: 0,
            numbers: Vec::new(alloc),
            pairs: Vec::new(alloc),
        }
    }

    /// Adds one block of as many numbers as the header says, after the last: its two Julian dates, and the
    /// coefficients of its columns in km, each of which is rounded once, here. The only error is out of memory, after
    /// which nothing has changed.
    pub fn push_block(&mut self, numbers: &[Decimal]) -> Result<(), Memory>
        requires block { IsBlock self.old.header numbers.now }
        requires room { self.old.blocks < MAX_BLOCKS }
        ensures added { OnOk result (self.new ≡ with_block self.old numbers.now) }
        ensures memory { OnErr result (self.new ≡ self.old) }
    {
        self.pairs.reserve(numbers.len())?;
        self.numbers.extend_from_slice(numbers)?;
        push_pairs(&mut self.pairs, numbers)?;
        self.blocks += 1;
        Ok(())
    }

    /// Returns the ephemeris with times that count ticks since J2000 in TDB, `tick` of them in a second, from 1 to
    /// 1,000. Each time of its calls, and the length of a granule in `seconds`, counts ticks too. It does not
    /// allocate.
    pub fn in_ticks(self, tick: u32) -> Ephemeris
        requires tick { IsTick tick }
        requires seconds { IsInSeconds self }
        ensures { result ≡ in_ticks tick self }
    {
        let start = self.start_in_ticks(tick);
        let Ephemeris {
            header,
            start: _,
            blocks,
            numbers,
            pairs,
        } = self;
        Ephemeris {
            header: header_in_ticks(header, tick),
            start,
            blocks,
            numbers,
            pairs,
        }
    }

    // Returns the time at which the first block starts, in ticks since J2000 in TDB, `tick` of them in a second.
    fn start_in_ticks(&self, tick: u32) -> i64
        requires tick { IsTick tick }
        requires seconds { IsInSeconds self.now }
        ensures { result ≡ self.now.start *ℤ pos tick }
    {
        self.start() * i64::from(tick)
    }

    /// Returns the time at which the first block starts, in seconds of TDB since J2000, or in ticks after `in_ticks`.
    pub fn start(&self) -> i64
        ensures { result ≡ self.now.start }
    {
        self.start
    }

    /// Returns the time at which the last block ends, in seconds of TDB since J2000, or in ticks after `in_ticks`.
    /// Without a block it is the start.
    pub fn end(&self) -> i64
        ensures { result ≡ end_of self.now }
    {
        self.start + i64::from(self.blocks) * self.header.block_seconds
    }

    /// Returns the number of blocks.
    pub fn blocks(&self) -> u32
        ensures { result ≡ self.now.blocks }
    {
        self.blocks
    }

    /// Returns the header, which meets the rules. The clause `checked` gives callers what holds for every ephemeris.
    pub fn header(&self) -> &Header
        ensures same { result.now ≡ self.now.header }
        ensures checked { IsEphemeris self.now }
    {
        &self.header
    }

    /// Tells whether the ephemeris has a column with numbers, counted from 1 in the order of the header. Columns past
    /// the 13th are not read, so it has none of them.
    pub fn has(&self, column: usize) -> bool
        ensures { result ≡ has_column self.now.header column }
    {
        match column_of(self.header.columns.as_slice(), column) {
            Some(column) => is_present(column),
            None => false,
        }
    }

    // Returns the granules of a column, counted from 1, over all blocks: the start of the first, the length of each,
    // and their count.
    fn grid(&self, column: usize) -> Grid
        requires { IsTrue (has_column self.now.header column) }
        ensures grid { IsGridOf self.now column result }
        ensures coefficients { (1 ≤ result.column.coefs)
            × (result.column.coefs ≤ MAX_COEFFICIENTS) }
    {
        let column = present_column(self.header.columns.as_slice(), column);
        let seconds = granule_seconds(self.header.block_seconds, column.granules);
        let count = u64::from(self.blocks) * u64::from(column.granules);
        Grid {
            column,
            start: self.start,
            seconds,
            count,
        }
    }

    /// Returns the granule of a column, counted from 1, at a time, with its coefficients: the granule that starts at
    /// the time or is the last to start before it. The time at which the last block ends belongs to the last granule.
    pub fn granule(&self, column: usize, t: i64) -> Granule<'_>
        requires present { IsTrue (has_column self.now.header column) }
        requires block { 0 < self.now.blocks }
        requires from { self.now.start ≤ℤ t }
        requires upto { t ≤ℤ end_of self.now }
        ensures granule { granule_of result ≡ granule_at self.now column t }
        ensures coefficients { result.n ≡ (column_of self.now column).coefs }
        ensures components { result.comps ≡ components column }
        ensures count { length result.coefs.now ≡ result.comps * result.n }
        ensures few { (1 ≤ result.n) × (result.n ≤ 32) }
        ensures duration { (pos 1 ≤ℤ result.seconds) × (result.seconds ≤ℤ pos (2 ^ 40)) }
        ensures start { (neg_ℤ (pos (2 ^ 50)) ≤ℤ result.start) × (result.start ≤ℤ pos (2 ^ 50)) }
        ensures bodies { column ≤ BODY_COLUMNS → All IsBodyNumber result.coefs.now }
        ensures rounded { result.rounded.now ≡ pairs_of column result.coefs.now }
    {
        let grid = self.grid(column);
        let index = grid.index_at(t);
        let granules = u64::from(grid.column.granules);
        let (block, inner) = ((index / granules) as usize, (index % granules) as usize);
        Granule {
            start: grid.granule_start(index),
            seconds: grid.seconds as i64,
            n: grid.column.coefs as usize,
            comps: component_count(column),
            coefs: self.granule_numbers(column, grid.column, block, inner),
            rounded: self.granule_pairs(column, grid.column, block, inner),
        }
    }

    /// Returns the border of the given columns in (a, b] that is nearest to the middle, and the smaller of two as
    /// near. None if no border lies there. A border of a column is a time at which any of its granules but the first
    /// starts. Columns are counted from 1.
    ///
    /// `let _header` computes nothing: that call's contract brings in the rules of the ephemeris, on which the grids
    /// stand.
    pub fn border_near(&self, columns: &[usize], a: i64, b: i64) -> Option<i64>
        requires present { All (λ column. IsTrue (has_column self.now.header column)) columns.now }
        requires from { self.now.start ≤ℤ a }
        requires order { a <ℤ b }
        requires upto { b ≤ℤ end_of self.now }
        ensures { result ≡ nearest_border self.now columns.now a b }
    {
        let _header = self.header();
        let mut nearest = None;
        for &column in columns {
            let own = self.grid(column).border_near(a, b);
            nearest = nearer_border(nearest, own, a, b);
        }
        nearest
    }

    // Returns the coefficients of a granule, component after component. `number` is the column's, counted from 1;
    // blocks, and the granules of a block (`inner`), are counted from 0.
    fn granule_numbers(
        &self,
        number: usize,
        column: Column,
        block: usize,
        inner: usize,
    ) -> &[Decimal]
        requires present { IsColumn self.now.header number column }
        requires block { block < self.now.blocks }
        requires inner { inner < column.granules }
        ensures numbers { result.now
            ≡ granule_numbers number column inner (block_numbers self.now block) }
        ensures count { length result.now ≡ granule_size number column }
        ensures bodies { number ≤ BODY_COLUMNS → All IsBodyNumber result.now }
    {
        let (first, size) = granule_place(&self.header, number, column, inner);
        block_values_at(
            &self.numbers,
            self.header.ncoeff as usize,
            block,
            first,
            size,
        )
    }

    // Returns the rounded pairs beside the coefficients of a granule. A column of no body has none, and gives an
    // empty slice. `number` is the column's, counted from 1; blocks, and the granules of a block (`inner`), are
    // counted from 0.
    fn granule_pairs(&self, number: usize, column: Column, block: usize, inner: usize) -> &[Rounded]
        requires present { IsColumn self.now.header number column }
        requires block { block < self.now.blocks }
        requires inner { inner < column.granules }
        ensures { result.now
            ≡ pairs_of number (granule_numbers number column inner (block_numbers self.now block)) }
    {
        if BODY_COLUMNS < number {
            return &self.pairs[..0];
        }
        let (first, size) = granule_place(&self.header, number, column, inner);
        block_values_at(&self.pairs, self.header.ncoeff as usize, block, first, size)
    }
}
