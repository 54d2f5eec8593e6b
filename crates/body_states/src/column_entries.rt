// What columns are along each axis, over a span of times, by their numbers.
ghost use Rattle.std.specs.Prelude.{◌≡◌, Any, Contains, IfSome, IsSome};
ghost use Rattle.body_states.specs.Ranges.{nothing_entered};

use granule_values::AxisEntries;

/// What a column is along the three axes, with its number, counted from 1. The number is 0 in an entry for no column.
#[derive(Clone, Copy)]
pub(crate) struct ColumnEntry {
    pub number: usize,
    pub along: AxisEntries,
}

impl ColumnEntry {
    /// Returns an entry for no column: its number is 0, which no column has, and it is none along all three axes.
    #[inline(always)]
    pub fn none() -> ColumnEntry
        ensures { result ≡ nothing_entered }
    {
        ColumnEntry {
            number: 0,
            along: AxisEntries::none(),
        }
    }
}

/// Returns the enclosures of the first entry with a column's number, counted from 1, or None if no entry has it.
pub(crate) fn find_axis_entries(columns: &[ColumnEntry], number: usize) -> Option<&AxisEntries>
    ensures found { IfSome result
        (λ along. Contains columns.now (record { number = number; along = along.now })) }
    ensures made { Any (λ column. column.number ≡ number) columns.now → IsSome result }
{
    for place in 0..columns.len() {
        let column = &columns[place];
        if column.number == number {
            return Some(&column.along);
        }
    }
    None
}
