// The leaves that are wanted of the trees of a search, by its still spans.
ghost use Rattle.std.specs.Prelude.{IfErr, IfOk};
ghost use Rattle.spec_trees.specs.Tree.{leaf_count};
ghost use Rattle.spec_searches.specs.Found.{rules};
ghost use Rattle.still_judge.specs.declared.manner.Manner.{Manner};
ghost use Rattle.gf_search.specs.Wanted.{AreWanted, StopsAt};
ghost use Rattle.gf_search.specs.Walks.{Walks};

use crate::eager::leaves_with_windows;
use crate::signs::leaves_with_signs;
use crate::tree::Tree;
use crate::wanted::Wanted;
use crate::whole::tree_leaves;
use event_judge::Judge;
use spec_outcomes::Refusal;
use spec_trees::Leaf;
use still_judge::Manner;

// Returns the leaves that are wanted of the trees of a search, in order of time, by its still spans. Errors:
// `TooManyLeaves` if the tree of the search has more than `most` leaves, or `Memory`.
fn leaves_by_stills<P: Judge, J: Judge, W: Fn(Manner) -> Result<Vec<Leaf>, Refusal>>(
    walk: &W,
    most: u32,
    tree: &Tree<'_, '_, P, J>,
    wanted: Wanted,
) -> Result<Vec<Leaf>, Refusal>
    requires callable { (manner : Manner) → W.pre walk.now manner }
    requires walks { Walks (W.post walk.now) most tree.now.search.now tree.now.stills.now tree.now.root }
    ensures found { IfOk result (λ found.
        AreWanted wanted most tree.now.search.now tree.now.root found.items) }
    ensures stopped { IfErr result (λ refusal.
        StopsAt most (leaf_count (rules tree.now.search.now) tree.now.root) refusal) }
{
    match wanted {
        Wanted::Leaves => tree_leaves(walk, most, tree),
        Wanted::Windows => leaves_with_windows(walk, most, tree),
        Wanted::Signs => leaves_with_signs(walk, most, tree),
    }
}

/// Returns the leaves that are wanted of the trees of a search, in order of time. Without still spans they are those of
/// the search's tree. Errors: `TooManyLeaves` if that tree has more than `most` leaves, or `Memory`.
pub(crate) fn wanted_leaves<P: Judge, J: Judge, W: Fn(Manner) -> Result<Vec<Leaf>, Refusal>>(
    walk: &W,
    most: u32,
    tree: &Tree<'_, '_, P, J>,
    wanted: Wanted,
) -> Result<Vec<Leaf>, Refusal>
    requires callable { (manner : Manner) → W.pre walk.now manner }
    requires walks { Walks (W.post walk.now) most tree.now.search.now tree.now.stills.now tree.now.root }
    ensures found { IfOk result (λ found.
        AreWanted wanted most tree.now.search.now tree.now.root found.items) }
    ensures stopped { IfErr result (λ refusal.
        StopsAt most (leaf_count (rules tree.now.search.now) tree.now.root) refusal) }
{
    if tree.stills.is_empty() {
        return tree_leaves(walk, most, tree);
    }
    leaves_by_stills(walk, most, tree, wanted)
}
