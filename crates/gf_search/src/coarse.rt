// The leaves of a tree that is coarser than the tree of a search, where they stand for no more of its leaves than
// may be found.
ghost use Rattle.std.specs.Prelude.{◌≡◌, ◌≤◌, IfOk};
ghost use Rattle.spec_trees.specs.Tree.{leaf_count, leaves};
ghost use Rattle.spec_searches.specs.Found.{rules};
ghost use Rattle.still_judge.specs.declared.manner.Manner.{Manner};
ghost use Rattle.still_judge.specs.Manners.{rules_in};
ghost use Rattle.gf_search.specs.Coarser.{IsCoarser};
ghost use Rattle.gf_search.specs.Walks.{Walks};

use crate::counts::are_few_leaves_below;
use crate::tree::Tree;
use crate::whole::leaves_in_manner;
use event_judge::Judge;
use spec_outcomes::Refusal;
use spec_trees::Leaf;
use still_judge::{Manner, StillJudge};

/// Returns the leaves of a coarser tree of a search, in order of time, if they are known to stand for no more than
/// `most` leaves of the search's tree. A judge counts the leaves below the heaviest. Else it returns an error:
/// `Memory`, or another, which says nothing of the search.
pub(crate) fn coarse_leaves<P: Judge, J: Judge, W: Fn(Manner) -> Result<Vec<Leaf>, Refusal>>(
    walk: &W,
    most: u32,
    tree: &Tree<'_, '_, P, J>,
    manner: Manner,
) -> Result<Vec<Leaf>, Refusal>
    requires callable { (manner : Manner) → W.pre walk.now manner }
    requires walks { Walks (W.post walk.now) most tree.now.search.now tree.now.stills.now tree.now.root }
    requires coarser { IsCoarser tree.now.search.now tree.now.stills.now tree.now.root
        (rules_in manner tree.now.search.now tree.now.stills.now) }
    ensures leaves { IfOk result (λ found. found.items
        ≡ leaves (rules_in manner tree.now.search.now tree.now.stills.now) tree.now.root) }
    ensures few { IfOk result (λ found.
        leaf_count (rules tree.now.search.now) tree.now.root ≤ most) }
{
    let exact = StillJudge::new(tree.judge, tree.search, tree.stills, Manner::Exact);
    match leaves_in_manner(walk, most, tree, manner) {
        Ok(found) => {
            if are_few_leaves_below(&exact, tree.search, tree.stills, &found, most) {
                Ok(found)
            } else {
                Err(Refusal::TooManyLeaves { most })
            }
        }
        Err(refusal) => Err(refusal),
    }
}
