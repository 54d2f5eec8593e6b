// The windows of a book whose leaves came out of order.
ghost use Rattle.std.specs.Prelude.{◌≡◌};
ghost use Rattle.spec_trees.specs.Examples.{booked, leaf, node, window};

use ordered_join::{Holds, Window, windows};
use spec_trees::{Book, Booked, Leaf, Mark, Node, Turn};
use std::test::Fail;

// Returns the node from time `a` to `b`, at depth 0.
const fn node_of_times(a: i64, b: i64) -> Node
    ensures { result ≡ node a b }
{
    Node { a, b, depth: 0 }
}

// Returns the entry of a book that seat 0 made for the leaf from time `a` to `b` with a mark.
const fn entry_of_seat_0(a: i64, b: i64, mark: Mark) -> Booked
    ensures { result ≡ booked (leaf a b mark) }
{
    Booked {
        leaf: Leaf {
            node: node_of_times(a, b),
            mark,
        },
        seat: 0,
    }
}

// Returns the window from time `first` to `last` that holds the given thing: an event, or what is undecided.
const fn window_of_times(first: i64, last: i64, holds: Holds) -> Window
    ensures { result ≡ window first last holds }
{
    Window { first, last, holds }
}

// The mark of a leaf with one rise.
const RISE: Mark = Mark::One(Turn::Rise);

// The mark of a leaf with one fall.
const FALL: Mark = Mark::One(Turn::Fall);

// Shows the windows of a book over the times 0 to 6 whose four leaves came out of order. They are in order of time: a
// rise at 1 to 2, an undecided window at 3 to 5, which two undecided neighbours make together, and a fall at 6.
#[test]
fn a_book_out_of_order(rt: HostRuntime) -> Result<(), Fail> {
    let alloc = rt.alloc();
    let entries = [
        entry_of_seat_0(4, 5, Mark::Undecided),
        entry_of_seat_0(0, 2, RISE),
        entry_of_seat_0(2, 4, Mark::Undecided),
        entry_of_seat_0(5, 6, FALL),
    ];
    let book = Book {
        root: node_of_times(0, 6),
        entries: Vec::from_array(alloc, entries)?,
    };
    let found = windows(alloc, &book)?;
    let expected = [
        window_of_times(1, 2, Holds::Certain(Turn::Rise)),
        window_of_times(3, 5, Holds::Undecided),
        window_of_times(6, 6, Holds::Certain(Turn::Fall)),
    ];
    assert!(rt; found.as_slice() == expected.as_slice());
    Ok(())
}
