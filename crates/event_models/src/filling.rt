// The rows of Chebyshev polynomials of both kinds.
ghost use Rattle.std.specs.Prelude.{◌≡◌, ◌≤◌, ◌<◌};
ghost use Rattle.event_models.specs.Rows.{AreEntriesBefore, AreRows, IsEntry, IsLine, IsRow, greatest};

use crate::rows::{ENTRIES, Kind, Line, RowModel, recurrence_row};
use crate::starts::{first_row, magnitude_row, second_row};

/// The number 1 in units of 2^-42.
const ONE: u64 = 1 << 42;

/// Writes models of the first `n` Chebyshev polynomials, at most 32, of one kind, T or U, over a line of arguments.
pub(crate) fn write_entries(kind: Kind, line: &Line, n: usize, rows: &mut [RowModel; ENTRIES])
    requires line { IsLine line.now }
    requires few { n ≤ 32 }
    ensures rows { AreRows n rows.new }
    ensures entries { AreEntriesBefore kind line.now n rows.new }
{
    for k in 0..n {
        rows[k] = next_entry(kind, line, rows, k);
    }
}

// Returns a model of the Chebyshev polynomial with number `k` over a line of arguments, from the entries before it.
fn next_entry(kind: Kind, line: &Line, rows: &[RowModel; ENTRIES], k: usize) -> RowModel
    requires line { IsLine line.now }
    requires few { k < 32 }
    requires rows { AreRows k rows.now }
    requires entries { AreEntriesBefore kind line.now k rows.now }
    ensures row { IsRow result }
    ensures entry { IsEntry kind line.now k result }
{
    if k == 0 {
        first_row()
    } else if k == 1 {
        second_row(kind, line)
    } else {
        later_entry(kind, line, rows, k)
    }
}

// Returns a model of Chebyshev polynomial `k` from the two before it, or by its greatest magnitude if that fails.
fn later_entry(kind: Kind, line: &Line, rows: &[RowModel; ENTRIES], k: usize) -> RowModel
    requires line { IsLine line.now }
    requires many { 2 ≤ k }
    requires few { k < 32 }
    requires rows { AreRows k rows.now }
    requires entries { AreEntriesBefore kind line.now k rows.now }
    ensures row { IsRow result }
    ensures entry { IsEntry kind line.now k result }
{
    match recurrence_row(line, &rows[k - 1], &rows[k - 2]) {
        Some(row) => bounded_entry(kind, row, line, k),
        None => entry_by_magnitude(kind, line, k),
    }
}

// Returns the model of Chebyshev polynomial `k` with the lesser error: the one given, or the one by magnitude alone.
fn bounded_entry(kind: Kind, row: RowModel, line: &Line, k: usize) -> RowModel
    requires few { k < 32 }
    requires row { IsRow row }
    requires entry { IsEntry kind line.now k row }
    ensures row { IsRow result }
    ensures entry { IsEntry kind line.now k result }
{
    if row.error <= greatest_magnitude(kind, k) * ONE {
        row
    } else {
        entry_by_magnitude(kind, line, k)
    }
}

// Returns a model of Chebyshev polynomial `k`: 0, with its greatest magnitude as error. Only the contract uses `line`.
fn entry_by_magnitude(kind: Kind, line: &Line, k: usize) -> RowModel
    requires few { k < 32 }
    ensures row { IsRow result }
    ensures entry { IsEntry kind line.now k result }
{
    let _line = line;
    magnitude_row(greatest_magnitude(kind, k))
}

// Returns the greatest magnitude of the Chebyshev polynomial with number `k` from -1 to 1: 1 for T, and k + 1 for U.
fn greatest_magnitude(kind: Kind, k: usize) -> u64
    requires few { k < 32 }
    ensures equals { result ≡ greatest kind k }
    ensures small { result ≤ 32 }
{
    match kind {
        Kind::First => 1,
        Kind::Second => k as u64 + 1,
    }
}
