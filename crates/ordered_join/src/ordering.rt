// The leaves of a book in order of time, and their windows.
ghost use Rattle.std.specs.Prelude.{◌≡◌, IfOk};
ghost use Rattle.spec_trees.specs.Tree.{Covers};
ghost use Rattle.spec_trees.specs.Placement.{AreInOrder, AreWithin};
ghost use Rattle.spec_trees.specs.Order.{CoverRoot, book_windows, booked_leaves, ordered_leaves};

use crate::joining::leaf_windows;
use spec_trees::{Book, Booked, Leaf, Window};
use std::alloc::{AllocError, Global};

/// The one error of the calls: out of memory.
pub type Memory = AllocError;

/// Returns the windows that a book's leaves make, in order of time: one for each leaf with an event, and one for each
/// longest run of undecided leaves. The leaves cover the book's root without gap or overlap, in whatever order they
/// were entered. Times are ticks of TDB since J2000. The only error is out of memory.
pub fn windows(alloc: Global, book: &Book) -> Result<Vec<Window>, Memory>
    requires cover { CoverRoot book.now.root book.now.entries.items }
    ensures windows { IfOk result (λ found. found.items ≡ book_windows book.now.entries.items) }
    ensures within { IfOk result (λ found. AreWithin book.now.root.a book.now.root.b found.items) }
    ensures in_order { IfOk result (λ found. AreInOrder found.items) }
{
    let leaves = leaves(alloc, book)?;
    let found = leaf_windows(alloc, &leaves)?;
    Ok(found)
}

/// Returns the leaves of a book, sorted by their first times. They cover the book's root without gap or overlap, in
/// whatever order they were entered. Times are ticks of TDB since J2000. The only error is out of memory.
pub fn leaves(alloc: Global, book: &Book) -> Result<Vec<Leaf>, Memory>
    requires cover { CoverRoot book.now.root book.now.entries.items }
    ensures leaves { IfOk result (λ found. found.items ≡ ordered_leaves book.now.entries.items) }
    ensures cover { IfOk result (λ found. Covers book.now.root.a found.items book.now.root.b) }
{
    let mut leaves = leaves_of_entries(alloc, &book.entries)?;
    leaves.sort_by_key(|leaf| leaf.node.a)?;
    Ok(leaves)
}

// Returns the leaves of a book's entries, in the order in which they were entered. The only error is out of memory.
fn leaves_of_entries(alloc: Global, entries: &[Booked]) -> Result<Vec<Leaf>, AllocError>
    ensures { IfOk result (λ leaves. leaves.items ≡ booked_leaves entries.now) }
{
    let mut leaves = Vec::with_capacity(alloc, entries.len())?;
    for entry in entries {
        leaves.push(entry.leaf)?;
    }
    Ok(leaves)
}
