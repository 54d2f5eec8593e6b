// What the lines of a certificate say, and which rule a line breaks.

use spec_trees::Leaf;

/// What a line of a certificate says after the first two. The times of a leaf are those of the search, in ticks of TDB
/// since J2000.
#[derive(Clone, Copy, PartialEq, Eq)]
pub enum Entry {
    /// A leaf: its node and its mark.
    Leaf(Leaf),
    /// The end, with the number of leaves.
    End(u32),
}

/// The first line of a certificate that breaks a rule.
#[derive(Clone, Copy, PartialEq, Eq)]
pub struct CertFault {
    /// The number of the line, counted from 1 over all lines of the text.
    pub line: u32,
    /// The number of the rule, from 70 to 74.
    pub number: u8,
}
