// Nodes on the way down the tree of a search to a leaf of its eager tree, from which the way to the next leaf is short.
ghost use Rattle.std.specs.Prelude.{◌≡◌, ◌<ℤ◌};
ghost use Rattle.spec_trees.specs.Tree.{IsValid};
ghost use Rattle.spec_searches.specs.Found.{rules};
ghost use Rattle.spec_stills.specs.Settled.{is_cleared};
ghost use Rattle.still_judge.specs.Below.{IsBelow, holds_begin};

use crate::span_judge::StillJudge;
use gf_hooks::{Judge, Node, Verdict};

/// The least ratio of the widths of a node and a leaf at which the descent to the leaf goes on below the node.
const WIDER: u64 = 64;

// Tells whether `node` begins within `at`: at the first time of `at` or later, and before its last.
fn holds_start(at: Node, node: Node) -> bool
    ensures { result ≡ holds_begin at node }
{
    at.a <= node.a && node.a < at.b
}

// Tells whether `at` is at least 64 times as wide as `node`. Then the descent to `node` goes on below `at`.
fn is_far_wider(at: Node, node: Node) -> bool {
    node.b.abs_diff(node.a) <= at.b.abs_diff(at.a) / WIDER
}

impl<'j, 'e, J: Judge> StillJudge<'j, 'e, J> {
    // Returns the first node, on the way down the tree from `at` to `node`, that is less than 64 times as wide as
    // `node`, or the leaf of the tree at which the way ends before.
    #[tactic(auto, using(crate::proofs::Descent::itself))]
    fn first_narrow_ancestor(&self, at: Node, node: Node) -> Node
        requires valid { IsValid (rules self.now.search.now) at }
        requires inside { node.a <ℤ node.b }
        ensures valid { IsValid (rules self.now.search.now) result }
        ensures below { IsBelow self.now.search.now at result }
    {
        self.search.is_search();
        if is_far_wider(at, node) {
            match self.verdict(at) {
                Verdict::Clear => at,
                Verdict::One(_) => at,
                Verdict::Split => self.first_narrow_ancestor(self.part_towards(at, node), node),
                Verdict::Undecided => at,
            }
        } else {
            at
        }
    }

    // Returns the node from which the way down to `node` starts: `last`, which the leaf before left, if `node` begins
    // within it, and else the root.
    #[tactic(auto, using(crate::proofs::Descent::itself))]
    fn descent_start(&self, root: Node, last: Node, node: Node) -> Node
        requires root { IsValid (rules self.now.search.now) root }
        requires last { IsValid (rules self.now.search.now) last }
        requires below { IsBelow self.now.search.now root last }
        ensures valid { IsValid (rules self.now.search.now) result }
        ensures below { IsBelow self.now.search.now root result }
    {
        if holds_start(last, node) { last } else { root }
    }

    /// Returns a node on the way down from the root to `node`, below which `node` lies in a clear leaf exactly if it
    /// does below the root. The way starts at `last`, found for an earlier leaf, if `node` begins within it: so that
    /// of leaves in order each costs a few steps, and not the whole depth.
    #[tactic(auto, using(crate::proofs::Descent::itself))]
    pub(crate) fn near_ancestor(&self, root: Node, last: Node, node: Node) -> Node
        requires root { IsValid (rules self.now.search.now) root }
        requires last { IsValid (rules self.now.search.now) last }
        requires below { IsBelow self.now.search.now root last }
        requires inside { node.a <ℤ node.b }
        ensures valid { IsValid (rules self.now.search.now) result }
        ensures below { IsBelow self.now.search.now root result }
        ensures same { is_cleared self.now.search.now root node ≡ is_cleared self.now.search.now result node }
    {
        let start = self.descent_start(root, last, node);
        let found = self.first_narrow_ancestor(start, node);
        if holds_start(found, node) {
            found
        } else {
            root
        }
    }
}
