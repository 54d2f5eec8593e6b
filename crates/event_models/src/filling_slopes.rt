// The row of the multiples k U_(k-1), over which velocities are summed.
ghost use Rattle.std.specs.Prelude.{◌≤◌, ◌<◌};
ghost use Rattle.event_models.specs.declared.rows.Kind.TheVariants.{Second};
ghost use Rattle.event_models.specs.Rows.{AreEntriesBefore, AreRows, AreSumRows, IsLine, IsSumRow};
ghost use Rattle.event_models.specs.Slopes.{AreEntriesSlope, IsEntrySlope};

use crate::filling::write_entries;
use crate::multiples::{entry_multiple, zero_entry};
use crate::rows::{ENTRIES, Kind, Line, RowModel};

/// Writes models of `k U_(k-1)`, the derivative of `T_k`, for `k` below `n`, at most 32, over a line of arguments: in
/// the place of those of U, from the last to the first, so that each is made of an entry that is not replaced yet.
pub(crate) fn write_slope_entries(line: &Line, n: usize, rows: &mut [RowModel; ENTRIES])
    requires line { IsLine line.now }
    requires some { 1 ≤ n }
    requires few { n ≤ 32 }
    ensures rows { AreSumRows n rows.new }
    ensures entries { AreEntriesSlope line.now n rows.new }
{
    write_entries(Kind::Second, line, n - 1, rows);
    for i in 0..n {
        let k = n - 1 - i;
        rows[k] = slope_entry(line, rows, k);
    }
}

// Returns the model of `k U_(k-1)` over a line of arguments, from the entries of U. It is 0 for a `k` of 0.
fn slope_entry(line: &Line, entries: &[RowModel; ENTRIES], k: usize) -> RowModel
    requires few { k < 32 }
    requires rows { AreRows k entries.now }
    requires entries { AreEntriesBefore Second line.now k entries.now }
    ensures row { IsSumRow result }
    ensures entry { IsEntrySlope line.now k result }
{
    if k == 0 {
        zero_entry()
    } else {
        entry_multiple(&entries[k - 1], k)
    }
}
