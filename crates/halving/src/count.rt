// How many leaves a root has, by a walk that keeps none.
ghost use Rattle.std.specs.Prelude.{◌≡◌, ◌+◌, ◌<◌, ◌≤◌, IfNone, IfSome};
ghost use Rattle.spec_trees.specs.Tree.{IsValid, leaf_count, width};
ghost use Rattle.spec_trees.specs.declared.tree.Verdict.TheVariants.{Split};

use gf_hooks::{Judge, rules_are_sound};
use spec_trees::{Node, Verdict};

// Returns the left and the right part of a valid node that the judge splits. Both are valid and narrower than the
// node, and together they have its leaves.
fn split_parts<J: Judge>(judge: &J, node: Node) -> (Node, Node)
    requires valid { IsValid (J.rules judge.now) node }
    requires split { (J.rules judge.now).verdict node ≡ Split }
    ensures left { IsValid (J.rules judge.now) result.0 }
    ensures right { IsValid (J.rules judge.now) result.1 }
    ensures left_narrower { width result.0 < width node }
    ensures right_narrower { width result.1 < width node }
    ensures leaves { let t = J.rules judge.now in
        leaf_count t node ≡ leaf_count t result.0 + leaf_count t result.1 }
{
    rules_are_sound(judge);
    judge.cut(node)
}

/// Returns how many leaves the tree of a valid root has, or none if it has more than `limit`. No leaf is kept, and at
/// most about twice `limit` nodes are judged, and as many more as the tree is deep.
pub fn count_one<J: Judge>(judge: &J, root: Node, limit: u64) -> Option<u64>
    requires { IsValid (J.rules judge.now) root }
    ensures count { IfSome result (λ count. count ≡ leaf_count (J.rules judge.now) root) }
    ensures few { IfSome result (λ count. count ≤ limit) }
    ensures none { IfNone result (limit < leaf_count (J.rules judge.now) root) }
{
    rules_are_sound(judge);
    match judge.judge(root) {
        Verdict::Split => {
            let (left, right) = split_parts(judge, root);
            match count_one(judge, left, limit) {
                Some(first) => match count_one(judge, right, limit - first) {
                    Some(second) => Some(first + second),
                    None => None,
                },
                None => None,
            }
        }
        Verdict::Clear => count_of_one_leaf(limit),
        Verdict::One(_) => count_of_one_leaf(limit),
        Verdict::Undecided => count_of_one_leaf(limit),
    }
}

// Returns 1, the count of a node that is itself a leaf, or none if the limit is 0.
fn count_of_one_leaf(limit: u64) -> Option<u64>
    ensures count { IfSome result (λ count. count ≡ 1) }
    ensures few { IfSome result (λ count. count ≤ limit) }
    ensures none { IfNone result (limit < 1) }
{
    if limit == 0 { None } else { Some(1) }
}
