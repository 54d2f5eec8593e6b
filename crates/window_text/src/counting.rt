// Counts of windows by their sort.
ghost use Rattle.std.specs.Prelude.{◌≡◌};
ghost use Rattle.spec_output.specs.Report.{certain_count, undecided_count};

use spec_trees::{Holds, Window};

/// Returns the number of windows of a list that hold exactly one event.
pub(crate) fn certain_count(windows: &[Window]) -> usize
    ensures { result ≡ certain_count windows.now }
{
    let mut count: usize = 0;
    for window in windows {
        if let Holds::Certain(_) = window.holds {
            count += 1;
        }
    }
    count
}

/// Returns the number of undecided windows of a list, each of which may hold any number of events or none.
pub(crate) fn undecided_count(windows: &[Window]) -> usize
    ensures { result ≡ undecided_count windows.now }
{
    let mut count: usize = 0;
    for window in windows {
        if let Holds::Undecided = window.holds {
            count += 1;
        }
    }
    count
}
