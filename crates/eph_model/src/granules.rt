// The granule of a time: its place, its length, and where its numbers stand.
ghost use Rattle.std.specs.Prelude.{◌≡◌, ◌+◌, ◌-◌, ◌*◌, ◌/◌, ◌<◌, ◌≤◌, min, IsTrue, Some, length, take, drop, pos, ◌+ℤ◌, ◌-ℤ◌, ◌<ℤ◌, ◌≤ℤ◌};
ghost use Rattle.spec_ephemeris.specs.Series.{to_nat};
ghost use Rattle.spec_ephemeris.specs.Header.{IsColumn, IsHeader, IsShared, column_at, granule_size, is_present, is_present_at};

use crate::columns::component_count;
use crate::grid::Grid;
use spec_ephemeris::{Column, Header, READ_COLUMNS};

// Returns the column of this number, counted from 1. None if the number is 0 or past the 13 columns that are read, or
// if the list ends before it.
pub(crate) fn column_of(columns: &[Column], number: usize) -> Option<Column>
    ensures { result ≡ column_at columns.now number }
{
    if number == 0 || READ_COLUMNS < number {
        return None;
    }
    columns.get(number - 1).copied()
}

// Returns the column of this number, counted from 1, of which the caller knows that it is listed and has numbers.
pub(crate) fn present_column(columns: &[Column], number: usize) -> Column
    requires { IsTrue (is_present_at (column_at columns.now number)) }
    ensures listed { column_at columns.now number ≡ Some result }
    ensures present { IsTrue (is_present result) }
{
    columns[number - 1]
}

// Returns the length of each of the granules that share a block evenly, in the unit of the block's length: seconds or
// ticks.
pub(crate) fn granule_seconds(block: i64, granules: u32) -> u64
    requires length { pos 0 <ℤ block }
    requires some { 0 < granules }
    requires shared { IsShared block granules }
    ensures shares { block ≡ pos (result * granules) }
    ensures some { 0 < result }
{
    block as u64 / u64::from(granules)
}

// Returns the place of a granule's first number in its block, counted from 0, and how many numbers the granule has.
// `number` is the column's, counted from 1, and `inner` the granule's in its block, counted from 0.
pub(crate) fn granule_place(
    header: &Header,
    number: usize,
    column: Column,
    inner: usize,
) -> (usize, usize)
    requires header { IsHeader header.now }
    requires present { IsColumn header.now number column }
    requires inner { inner < column.granules }
    ensures first { result.0 ≡ column.start - 1 + inner * granule_size number column }
    ensures size { result.1 ≡ granule_size number column }
    ensures within { result.0 + result.1 ≤ header.now.ncoeff }
{
    let size = component_count(number) * column.coefs as usize;
    let first = column.start as usize - 1 + inner * size;
    (first, size)
}

// Returns `size` of the values of a block, from its place `first` on; blocks and places are counted from 0. Each
// block has `ncoeff` values, its numbers or the rounded pairs that are kept beside them.
pub(crate) fn block_values_at<T>(
    numbers: &[T],
    ncoeff: usize,
    block: usize,
    first: usize,
    size: usize,
) -> &[T]
    requires block { block * ncoeff + ncoeff ≤ length numbers.now }
    requires within { first + size ≤ ncoeff }
    ensures { result.now
        ≡ take size (drop first (take ncoeff (drop (block * ncoeff) numbers.now))) }
{
    let from = block * ncoeff;
    let block = &numbers[from..from + ncoeff];
    &block[first..first + size]
}

impl Grid {
    // Returns the time at which a granule, counted from 0, starts. For the count of granules it is the time at which
    // the last one ends.
    pub fn granule_start(self, index: u64) -> i64
        requires { index ≤ self.count }
        ensures { result ≡ self.start +ℤ pos (index * self.seconds) }
    {
        self.start + (index * self.seconds) as i64
    }

    // Returns the granule, counted from 0, in which a time lies. A granule's start belongs to it, and the end of the
    // last granule to that one.
    pub fn index_at(self, t: i64) -> u64
        requires some { 0 < self.count }
        requires from { self.start ≤ℤ t }
        requires upto { t ≤ℤ (self.start +ℤ pos (self.count * self.seconds)) }
        ensures in_range { result < self.count }
        ensures index { result ≡ min (to_nat (t -ℤ self.start) / self.seconds) (self.count - 1) }
    {
        index_at_offset((t - self.start) as u64, self.seconds, self.count)
    }
}

// Returns the granule, counted from 0, in which a time lies that is `offset` after the start of the first. From the
// end of the last granule on, it is the last one.
fn index_at_offset(offset: u64, seconds: u64, count: u64) -> u64
    requires length { 0 < seconds }
    requires some { 0 < count }
    ensures { result ≡ min (offset / seconds) (count - 1) }
{
    (offset / seconds).min(count - 1)
}
