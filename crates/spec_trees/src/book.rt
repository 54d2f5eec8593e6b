// A book of leaves.
use crate::tree::{Leaf, Node};

/// A leaf, and the number of the seat that entered it.
#[derive(Clone, Copy, PartialEq, Eq)]
pub struct Booked {
    pub leaf: Leaf,
    pub seat: u32,
}

/// Leaves of a root, in the order in which they were entered.
#[derive(Drop)]
pub struct Book {
    pub root: Node,
    pub entries: Vec<Booked>,
}
