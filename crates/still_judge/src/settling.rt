// The undecided leaves of an eager tree, which the tree of the search may show to be clear.
ghost use Rattle.std.specs.Prelude.{◌≡◌, ◌<◌, ◌<ℤ◌, All, map};
ghost use Rattle.spec_trees.specs.declared.tree.Verdict.TheVariants.{Split};
ghost use Rattle.spec_trees.specs.Tree.{HasTime, IsValid, width};
ghost use Rattle.spec_searches.specs.Found.{rules};
ghost use Rattle.spec_searches.specs.Search.{parts, verdict_of};
ghost use Rattle.spec_stills.specs.Settled.{holds, is_cleared, part_with, settled, settled_by};
ghost use Rattle.still_judge.specs.Below.{IsBelow};

use crate::span_judge::StillJudge;
use gf_hooks::{Judge, Node, Verdict};
use spec_trees::{Leaf, Mark};

// Tells whether `node` lies within `at`, ends included.
fn contains_node(at: Node, node: Node) -> bool
    ensures { result ≡ holds at node }
{
    at.a <= node.a && node.b <= at.b
}

// Returns that one of the two parts of a cut node in which `node` begins: the left one if `node` begins before that
// part ends, and else the right one.
fn part_that_holds_start(parts: (Node, Node), node: Node) -> Node
    ensures { result ≡ part_with parts node }
{
    if node.a < parts.0.b { parts.0 } else { parts.1 }
}

// Returns a leaf with the mark clear if it is undecided and `cleared` is true, and else as it is. `cleared` says
// whether the leaf lies in a clear leaf of the search's tree.
fn mark_clear_if(cleared: bool, leaf: Leaf) -> Leaf
    ensures { result ≡ settled_by cleared leaf }
{
    match leaf.mark {
        Mark::Clear => leaf,
        Mark::One(_) => leaf,
        Mark::Undecided => {
            if cleared {
                Leaf {
                    node: leaf.node,
                    mark: Mark::Clear,
                }
            } else {
                leaf
            }
        }
    }
}

impl<'j, 'e, J: Judge> StillJudge<'j, 'e, J> {
    /// Returns the part of `at`, which the search splits, in which `node` begins. It is narrower than `at`, so a
    /// descent by it ends.
    pub(crate) fn part_towards(&self, at: Node, node: Node) -> Node
        requires valid { IsValid (rules self.now.search.now) at }
        requires split { verdict_of self.now.search.now at ≡ Split }
        requires inside { node.a <ℤ node.b }
        ensures part { result ≡ part_with (parts self.now.search.now at) node }
        ensures valid { IsValid (rules self.now.search.now) result }
        ensures narrower { width result < width at }
    {
        self.search.is_search();
        let both = self.search.parts(at);
        part_that_holds_start(both, node)
    }

    // Tells whether a node lies within a clear leaf of the tree that the search has below `at`. It descends to the
    // leaf in which the node begins.
    fn lies_in_clear_leaf(&self, at: Node, node: Node) -> bool
        requires valid { IsValid (rules self.now.search.now) at }
        requires inside { node.a <ℤ node.b }
        ensures { result ≡ is_cleared self.now.search.now at node }
    {
        self.search.is_search();
        match self.verdict(at) {
            Verdict::Clear => contains_node(at, node),
            Verdict::One(_) => false,
            Verdict::Split => self.lies_in_clear_leaf(self.part_towards(at, node), node),
            Verdict::Undecided => false,
        }
    }

    // Returns a leaf, marked clear if it is undecided and lies in a clear leaf of the search's tree below `at`. The
    // caller has shown that the tree below `at` decides this as the tree below the root does.
    fn settle_leaf_below(&self, root: Node, at: Node, leaf: Leaf) -> Leaf
        requires valid { IsValid (rules self.now.search.now) at }
        requires time { HasTime leaf }
        requires same { is_cleared self.now.search.now root leaf.node
            ≡ is_cleared self.now.search.now at leaf.node }
        ensures { result ≡ settled self.now.search.now root leaf }
    {
        mark_clear_if(self.lies_in_clear_leaf(at, leaf.node), leaf)
    }

    // Returns a leaf, marked clear if it is undecided and lies in a clear leaf of the search's tree, and the node
    // from which the descent to the next leaf starts. A judge is asked only for an undecided leaf.
    fn settle_leaf(&self, root: Node, last: Node, leaf: Leaf) -> (Leaf, Node)
        requires root { IsValid (rules self.now.search.now) root }
        requires last { IsValid (rules self.now.search.now) last }
        requires below { IsBelow self.now.search.now root last }
        requires time { HasTime leaf }
        ensures leaf { result.0 ≡ settled self.now.search.now root leaf }
        ensures valid { IsValid (rules self.now.search.now) result.1 }
        ensures below { IsBelow self.now.search.now root result.1 }
    {
        match leaf.mark {
            Mark::Clear => (leaf, last),
            Mark::One(_) => (leaf, last),
            Mark::Undecided => {
                let near = self.near_ancestor(root, last, leaf.node);
                (self.settle_leaf_below(root, near, leaf), near)
            }
        }
    }

    /// Marks as clear those undecided leaves that lie within clear leaves of the search's tree. The leaves are those
    /// of the eager tree below a root, in order of time.
    pub fn settle(&self, root: Node, leaves: &mut [Leaf])
        requires valid { IsValid (rules self.now.search.now) root }
        requires time { All HasTime leaves.old }
        ensures { leaves.new ≡ map (settled self.now.search.now root) leaves.old }
    {
        let mut near = root;
        for leaf in leaves.iter_mut() {
            let (settled, next) = self.settle_leaf(root, near, *leaf);
            *leaf = settled;
            near = next;
        }
    }
}
