// The leaves of the tree of a search, as a walk finds them.
ghost use Rattle.std.specs.Prelude.{◌≡◌, ◌≤◌, IfErr, IfOk};
ghost use Rattle.spec_trees.specs.Tree.{leaf_count, leaves};
ghost use Rattle.spec_searches.specs.Found.{rules};
ghost use Rattle.still_judge.specs.declared.manner.Manner.{Manner};
ghost use Rattle.still_judge.specs.Manners.{rules_in};
ghost use Rattle.gf_search.specs.declared.wanted.Wanted.{Wanted};
ghost use Rattle.gf_search.specs.Wanted.{AreWanted, StopsAt};
ghost use Rattle.gf_search.specs.Walks.{Walks};

use crate::tree::Tree;
use event_judge::Judge;
use halving::rules_are_sound;
use spec_outcomes::Refusal;
use spec_trees::{Leaf, leaves_cover_the_node};
use still_judge::Manner;

/// Returns the leaves of the tree of a search in a manner, in order of time. Errors: `TooManyLeaves` if there are more
/// than `most`, or `Memory`.
pub(crate) fn leaves_in_manner<P: Judge, J: Judge, W: Fn(Manner) -> Result<Vec<Leaf>, Refusal>>(
    walk: &W,
    most: u32,
    tree: &Tree<'_, '_, P, J>,
    manner: Manner,
) -> Result<Vec<Leaf>, Refusal>
    requires callable { (manner : Manner) → W.pre walk.now manner }
    requires walks { Walks (W.post walk.now) most tree.now.search.now tree.now.stills.now tree.now.root }
    ensures leaves { IfOk result (λ found. found.items
        ≡ leaves (rules_in manner tree.now.search.now tree.now.stills.now) tree.now.root) }
    ensures few { IfOk result (λ found.
        leaf_count (rules_in manner tree.now.search.now tree.now.stills.now) tree.now.root ≤ most) }
    ensures stopped { IfErr result (StopsAt most
        (leaf_count (rules_in manner tree.now.search.now tree.now.stills.now) tree.now.root)) }
{
    walk(manner)
}

/// Returns the leaves of the tree of a search, in order of time, whichever leaves are wanted. Errors: `TooManyLeaves`
/// if there are more than `most`, or `Memory`.
pub(crate) fn tree_leaves<P: Judge, J: Judge, W: Fn(Manner) -> Result<Vec<Leaf>, Refusal>>(
    walk: &W,
    most: u32,
    tree: &Tree<'_, '_, P, J>,
) -> Result<Vec<Leaf>, Refusal>
    requires callable { (manner : Manner) → W.pre walk.now manner }
    requires walks { Walks (W.post walk.now) most tree.now.search.now tree.now.stills.now tree.now.root }
    ensures found { (wanted : Wanted) → IfOk result (λ found.
        AreWanted wanted most tree.now.search.now tree.now.root found.items) }
    ensures stopped { IfErr result (λ refusal.
        StopsAt most (leaf_count (rules tree.now.search.now) tree.now.root) refusal) }
{
    rules_are_sound(tree.judge);
    leaves_cover_the_node();
    leaves_in_manner(walk, most, tree, Manner::Exact)
}
