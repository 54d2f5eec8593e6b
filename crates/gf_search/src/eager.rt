// Leaves that have the windows of a search: the leaves of its eager tree, settled, or the leaves of its tree.
ghost use Rattle.std.specs.Prelude.{◌≡◌, ◌≤◌, All, IfErr, IfOk, map};
ghost use Rattle.spec_trees.specs.Tree.{HasTime, IsValid, leaf_count, leaves};
ghost use Rattle.spec_searches.specs.Found.{rules};
ghost use Rattle.spec_stills.specs.Eager.{eager_rules};
ghost use Rattle.spec_stills.specs.Settled.{settled};
ghost use Rattle.still_judge.specs.declared.manner.Manner.{Manner};
ghost use Rattle.gf_search.specs.Wanted.{HaveWindows, StopsAt};
ghost use Rattle.gf_search.specs.Walks.{Walks};

use crate::coarse::coarse_leaves;
use crate::tree::Tree;
use crate::whole::tree_leaves;
use event_judge::Judge;
use spec_outcomes::Refusal;
use spec_stills::eager_laws::eager_trees_are_sound;
use spec_stills::settled_laws::settled_leaves_have_the_same_windows;
use spec_stills::weight_laws::{leaves_weigh_enough, the_tree_has_no_more_leaves_than_lie_below};
use spec_trees::{Leaf, Node, leaves_cover_the_node};
use still_judge::{Manner, StillJudge};

// Returns the leaves of the eager tree of a search, in order of time, if the tree of the search is known to have no
// more than `most` leaves. Else it returns an error: `Memory`, or another, which says nothing of the search.
fn eager_leaves<P: Judge, J: Judge, W: Fn(Manner) -> Result<Vec<Leaf>, Refusal>>(
    walk: &W,
    most: u32,
    tree: &Tree<'_, '_, P, J>,
) -> Result<Vec<Leaf>, Refusal>
    requires callable { (manner : Manner) → W.pre walk.now manner }
    requires walks { Walks (W.post walk.now) most tree.now.search.now tree.now.stills.now tree.now.root }
    ensures leaves { IfOk result (λ found. found.items
        ≡ leaves (eager_rules tree.now.search.now tree.now.stills.now) tree.now.root) }
    ensures few { IfOk result (λ found.
        leaf_count (rules tree.now.search.now) tree.now.root ≤ most) }
{
    tree.search.is_search();
    eager_trees_are_sound();
    leaves_cover_the_node();
    leaves_weigh_enough();
    the_tree_has_no_more_leaves_than_lie_below();
    coarse_leaves(walk, most, tree, Manner::Eager)
}

// Returns leaves of the eager tree of a search at a root, settled by a judge of the search: an undecided leaf becomes
// clear if it lies in a clear leaf of the search's tree.
fn settled_leaves<J: Judge>(
    judge: &StillJudge<'_, '_, J>,
    root: Node,
    found: Vec<Leaf>,
) -> Vec<Leaf>
    requires valid { IsValid (rules judge.now.search.now) root }
    requires time { All HasTime found.items }
    ensures { result.items ≡ map (settled judge.now.search.now root) found.items }
{
    let mut leaves = found;
    judge.settle(root, &mut leaves);
    leaves
}

/// Returns leaves that have the windows of the tree of a search, in order of time, by still spans: the leaves of the
/// eager tree, settled, if the tree is known to have no more than `most` leaves, and else the leaves of the tree.
/// Errors: `TooManyLeaves` if these are more than `most`, or `Memory`.
pub(crate) fn leaves_with_windows<P: Judge, J: Judge, W: Fn(Manner) -> Result<Vec<Leaf>, Refusal>>(
    walk: &W,
    most: u32,
    tree: &Tree<'_, '_, P, J>,
) -> Result<Vec<Leaf>, Refusal>
    requires callable { (manner : Manner) → W.pre walk.now manner }
    requires walks { Walks (W.post walk.now) most tree.now.search.now tree.now.stills.now tree.now.root }
    ensures windows { IfOk result (λ found.
        HaveWindows most tree.now.search.now tree.now.root found.items) }
    ensures stopped { IfErr result (λ refusal.
        StopsAt most (leaf_count (rules tree.now.search.now) tree.now.root) refusal) }
{
    tree.search.is_search();
    eager_trees_are_sound();
    settled_leaves_have_the_same_windows();
    leaves_cover_the_node();
    let eager = StillJudge::new(tree.judge, tree.search, tree.stills, Manner::Eager);
    match eager_leaves(walk, most, tree) {
        Ok(found) => Ok(settled_leaves(&eager, tree.root, found)),
        Err(Refusal::Memory) => Err(Refusal::Memory),
        Err(_) => tree_leaves(walk, most, tree),
    }
}
