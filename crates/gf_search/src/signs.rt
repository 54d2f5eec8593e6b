// Leaves that show the signs of a search: the leaves of its served tree, or the leaves of its tree.
ghost use Rattle.std.specs.Prelude.{◌≡◌, ◌≤◌, IfErr, IfOk};
ghost use Rattle.spec_trees.specs.Tree.{leaf_count, leaves};
ghost use Rattle.spec_searches.specs.Found.{rules};
ghost use Rattle.spec_stills.specs.ServedTree.{served_rules};
ghost use Rattle.still_judge.specs.declared.manner.Manner.{Manner};
ghost use Rattle.gf_search.specs.Wanted.{HaveSigns, StopsAt};
ghost use Rattle.gf_search.specs.Walks.{Walks};

use crate::coarse::coarse_leaves;
use crate::tree::Tree;
use crate::whole::tree_leaves;
use event_judge::Judge;
use spec_outcomes::Refusal;
use spec_stills::served_laws::{served_trees_are_sound, served_trees_tell_the_same};
use spec_stills::weight_laws::{leaves_weigh_enough, the_tree_has_no_more_leaves_than_lie_below};
use spec_trees::{Leaf, leaves_cover_the_node};
use still_judge::Manner;

// Returns the leaves of the served tree of a search, in order of time, if the tree of the search is known to have no
// more than `most` leaves. Else it returns an error: `Memory`, or another, which says nothing of the search.
fn served_leaves<P: Judge, J: Judge, W: Fn(Manner) -> Result<Vec<Leaf>, Refusal>>(
    walk: &W,
    most: u32,
    tree: &Tree<'_, '_, P, J>,
) -> Result<Vec<Leaf>, Refusal>
    requires callable { (manner : Manner) → W.pre walk.now manner }
    requires walks { Walks (W.post walk.now) most tree.now.search.now tree.now.stills.now tree.now.root }
    ensures leaves { IfOk result (λ found. found.items
        ≡ leaves (served_rules tree.now.search.now tree.now.stills.now) tree.now.root) }
    ensures few { IfOk result (λ found.
        leaf_count (rules tree.now.search.now) tree.now.root ≤ most) }
{
    tree.search.is_search();
    served_trees_are_sound();
    leaves_cover_the_node();
    leaves_weigh_enough();
    the_tree_has_no_more_leaves_than_lie_below();
    coarse_leaves(walk, most, tree, Manner::Served)
}

/// Returns leaves that show the signs of the tree of a search, in order of time, by still spans: the leaves of the
/// served tree, if the tree is known to have no more than `most` leaves, and else the leaves of the tree. Errors:
/// `TooManyLeaves` if these are more than `most`, or `Memory`.
pub(crate) fn leaves_with_signs<P: Judge, J: Judge, W: Fn(Manner) -> Result<Vec<Leaf>, Refusal>>(
    walk: &W,
    most: u32,
    tree: &Tree<'_, '_, P, J>,
) -> Result<Vec<Leaf>, Refusal>
    requires callable { (manner : Manner) → W.pre walk.now manner }
    requires walks { Walks (W.post walk.now) most tree.now.search.now tree.now.stills.now tree.now.root }
    ensures signs { IfOk result (λ found.
        HaveSigns most tree.now.search.now tree.now.root found.items) }
    ensures stopped { IfErr result (λ refusal.
        StopsAt most (leaf_count (rules tree.now.search.now) tree.now.root) refusal) }
{
    tree.search.is_search();
    served_trees_are_sound();
    served_trees_tell_the_same();
    leaves_cover_the_node();
    match served_leaves(walk, most, tree) {
        Ok(found) => Ok(found),
        Err(Refusal::Memory) => Err(Refusal::Memory),
        Err(_) => tree_leaves(walk, most, tree),
    }
}
