// Nodes of a halved span, what a judge says of them, and leaves.

/// The times after `a` and up to `b`, in ticks of TDB since J2000, at a depth below the root.
#[derive(Clone, Copy, PartialEq, Eq)]
pub struct Node {
    pub a: i64,
    pub b: i64,
    pub depth: u32,
}

/// The direction in which a function passes 0: from below 0 to at least 0, or back.
#[derive(Clone, Copy, PartialEq, Eq)]
pub enum Turn {
    Rise,
    Fall,
}

/// What a judge says of a node: it holds no event, exactly one, it is to be split, or nothing is known and it is not
/// to be split.
#[derive(Clone, Copy, PartialEq, Eq)]
pub enum Verdict {
    Clear,
    One(Turn),
    Split,
    Undecided,
}

impl Verdict {
    ghost use Rattle.std.specs.Prelude.{◌≡◌};
    ghost use Rattle.spec_trees.specs.Tree.{mark_of};

    /// Returns the mark that a leaf with this verdict has, or `None` for the verdict `Split`, whose node is no leaf.
    pub fn mark(self) -> Option<Mark>
        ensures { result ≡ mark_of self }
    {
        match self {
            Verdict::Clear => Some(Mark::Clear),
            Verdict::One(turn) => Some(Mark::One(turn)),
            Verdict::Split => None,
            Verdict::Undecided => Some(Mark::Undecided),
        }
    }
}

/// What is known of a leaf.
#[derive(Clone, Copy, PartialEq, Eq)]
pub enum Mark {
    Clear,
    One(Turn),
    Undecided,
}

/// A node that is not split, with its mark.
#[derive(Clone, Copy, PartialEq, Eq)]
pub struct Leaf {
    pub node: Node,
    pub mark: Mark,
}
