// The judges of the tests: small rules by which trees are split.
ghost use Rattle.std.specs.Prelude.{◌≡◌, ◌<◌};
ghost use Rattle.spec_trees.specs.CutExamples.{parts_at};
ghost use Rattle.pool_tests.specs.Judges.{comb, comb_is_sound, long_crossing, long_crossing_is_sound, span, stairs, stairs_are_sound, thirds, thirds_are_sound};

use gf_hooks::{CutRule, rule_cut};
use halving::{Judge, Node, Turn, Verdict};

/// Returns the node from time `a` to `b` at depth 0, as the root of a tree.
pub fn root_node(a: i64, b: i64) -> Node
    ensures { result ≡ span a b }
{
    Node { a, b, depth: 0 }
}

// Returns the left and the right part of a node that is cut at a time, both one level deeper than the node.
fn parts_at(time: i64, node: Node) -> (Node, Node)
    requires { node.depth < 20000 }
    ensures { result ≡ parts_at time node }
{
    let depth = node.depth + 1;
    let left = Node {
        a: node.a,
        b: time,
        depth,
    };
    let right = Node {
        a: time,
        b: node.b,
        depth,
    };
    (left, right)
}

/// A judge that splits what is wider than one tick, just before its last tick. Its trees are as deep as they are
/// wide.
pub struct Comb;

impl Judge for Comb {
    ghost rules = { λ _. comb };

    // Splits a node that is wider than one tick, down to depth 20,000. Any other node is clear.
    fn judge(&self, node: Node) -> Verdict {
        if node.b - node.a > 1 && node.depth < 20_000 {
            Verdict::Split
        } else {
            Verdict::Clear
        }
    }

    // Cuts a node before its last tick.
    fn cut(&self, node: Node) -> (Node, Node) {
        parts_at(node.b - 1, node)
    }

    ghost sound = { λ _. comb_is_sound };
}

/// A judge that splits what is wider than two ticks, at its first third.
pub struct Thirds;

impl Judge for Thirds {
    ghost rules = { λ _. thirds };

    // Splits a node that is wider than two ticks, down to depth 100. Any other node is clear.
    fn judge(&self, node: Node) -> Verdict {
        if node.b - node.a > 2 && node.depth < 100 {
            Verdict::Split
        } else {
            Verdict::Clear
        }
    }

    // Cuts a node at its first third, rounded down.
    fn cut(&self, node: Node) -> (Node, Node) {
        parts_at(node.a + (node.b - node.a) / 3, node)
    }

    ghost sound = { λ _. thirds_are_sound };
}

/// A judge that halves what holds second 1339200, down to 50 seconds. The last leaf that holds it has a rise.
#[derive(Drop)]
pub struct Crossing;

impl Judge for Crossing {
    ghost rules = { λ _. long_crossing };

    // Splits a node that has second 1339200 and is wider than 50 seconds. A narrower one with that second has a rise,
    // and any other is clear.
    fn judge(&self, node: Node) -> Verdict {
        if node.a < 1_339_200 && 1_339_200 <= node.b {
            if node.b - node.a > 50 && node.depth < 100 {
                Verdict::Split
            } else {
                Verdict::One(Turn::Rise)
            }
        } else {
            Verdict::Clear
        }
    }

    // Cuts a node at its middle, rounded down.
    fn cut(&self, node: Node) -> (Node, Node) {
        parts_at(rule_cut(CutRule::Half, node.a, node.b), node)
    }

    ghost sound = { λ _. long_crossing_is_sound };
}

/// A judge that takes the last second off what starts at 0. All its nodes are at depth 0.
pub struct Stairs;

impl Judge for Stairs {
    ghost rules = { λ _. stairs };

    // Splits a node that has second 1 strictly inside. Any other node is clear.
    fn judge(&self, node: Node) -> Verdict {
        if node.a < 1 && 1 < node.b {
            Verdict::Split
        } else {
            Verdict::Clear
        }
    }

    // Cuts a node before its last second, at the same depth.
    fn cut(&self, node: Node) -> (Node, Node) {
        let left = root_node(node.a, node.b - 1);
        let right = root_node(node.b - 1, node.b);
        (left, right)
    }

    ghost sound = { λ _. stairs_are_sound };
}
