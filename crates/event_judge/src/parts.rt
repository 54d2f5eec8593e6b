// The parts of a node that is cut.
ghost use Rattle.std.specs.Prelude.{◌≡◌, ◌≤◌, ◌^◌, ◌≤ℤ◌, pos, neg_ℤ, true};
ghost use Rattle.spec_trees.specs.Cuts.{cut_of};
ghost use Rattle.spec_trees.specs.Tree.{IsValid};
ghost use Rattle.spec_searches.specs.Found.{rules};
ghost use Rattle.spec_searches.specs.Search.{border_cut, may_be_cut, parts, parts_at};

use crate::event_search::EventSearch;
use crate::valid_node::ValidNode;
use gf_hooks::{Node, rule_cut};
use spec_searches::laws::searches_are_sound;

// Returns the two parts of a node that is cut at a time, both with the given depth.
fn parts_cut_at(time: i64, depth: u32, node: Node) -> (Node, Node)
    ensures { result ≡ parts_at time depth node }
{
    (
        Node {
            b: time,
            depth,
            ..node
        },
        Node {
            a: time,
            depth,
            ..node
        },
    )
}

// Returns the tick before a border, at which its node is cut, or the border itself if that tick is the node's first.
fn cut_time_at_border(node: Node, border: i64) -> i64
    requires { neg_ℤ (pos (2 ^ 60)) ≤ℤ border }
    ensures { result ≡ border_cut node border }
{
    if node.a < border - 1 {
        border - 1
    } else {
        border
    }
}

impl<'s, 'e> ValidNode<'s, 'e> {
    /// Returns the parts of a node that may be cut: at the border in it, at the node's depth; or, if there is none, at
    /// the time of the search's rule, one deeper. The values that are not used are read for what the calls ensure.
    pub(crate) fn parts_at_border_or(self, time: i64) -> (Node, Node)
        requires may { may_be_cut self.search.now self.node ≡ true }
        requires time { time ≡ cut_of self.search.now.cut self.node.a self.node.b }
        ensures { result ≡ parts self.entry.search.now self.entry.node }
    {
        let node = self.node;
        let _columns = self.search.states().columns();
        let _deepest = self.search.depth();
        match self.nearest_border() {
            Some(border) => parts_cut_at(cut_time_at_border(node, border), node.depth, node),
            None => parts_cut_at(time, node.depth + 1, node),
        }
    }
}

impl<'e> EventSearch<'e> {
    /// Returns the parts of a valid node that may be cut, by the rule of the search.
    pub fn parts(&self, node: Node) -> (Node, Node)
        requires valid { IsValid (rules self.now) node }
        requires may { may_be_cut self.now node ≡ true }
        ensures { result ≡ parts self.now node }
    {
        self.is_search();
        searches_are_sound();
        ValidNode { search: self, node }.parts_at_border_or(rule_cut(self.rule(), node.a, node.b))
    }
}
