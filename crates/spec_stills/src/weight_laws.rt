// How many leaves the tree of a search has, by the leaves of its eager tree or of its served tree: each law is the contract of
// a function with nothing to do.
ghost use Rattle.std.specs.Prelude.{◌≤◌, All, List};
ghost use Rattle.spec_trees.specs.declared.tree.Leaf.{Leaf};
ghost use Rattle.spec_trees.specs.declared.tree.Node.{Node};
ghost use Rattle.spec_trees.specs.Tree.{AreLeaves, IsValid, leaf_count, leaves};
ghost use Rattle.spec_searches.specs.Found.{rules};
ghost use Rattle.spec_searches.specs.Search.{IsSearch, Search};
ghost use Rattle.spec_stills.specs.declared.still.StillSpan.{StillSpan};
ghost use Rattle.spec_stills.specs.Still.{IsStill};
ghost use Rattle.spec_stills.specs.Eager.{eager_rules};
ghost use Rattle.spec_stills.specs.ServedTree.{served_rules};
ghost use Rattle.spec_stills.specs.Settled.{leaves_below};
ghost use Rattle.spec_stills.specs.Weights.{IsWeighed};

/// States that the tree of a search has at most as many leaves as lie below the leaves of its eager tree, whatever the
/// spans are, and, if the spans are still, at most as many as lie below those of its served tree.
pub fn the_tree_has_no_more_leaves_than_lie_below()
    ensures eager { (s : Search) (xs : List StillSpan) (root : Node) → IsSearch s
        → IsValid (rules s) root
        → leaf_count (rules s) root ≤ leaves_below s (leaves (eager_rules s xs) root) }
    ensures served { (s : Search) (xs : List StillSpan) (root : Node) → IsSearch s
        → All (IsStill s) xs → IsValid (rules s) root
        → leaf_count (rules s) root ≤ leaves_below s (leaves (served_rules s xs) root) }
{}

/// States that, if the spans are still, at most as many leaves of the search's tree lie below a leaf of its eager tree,
/// or of its served tree, as that leaf weighs.
pub fn leaves_weigh_enough()
    ensures eager { (s : Search) (xs : List StillSpan) (ls : List Leaf) → IsSearch s
        → All (IsStill s) xs → AreLeaves (eager_rules s xs) ls → All (IsWeighed s xs) ls }
    ensures served { (s : Search) (xs : List StillSpan) (ls : List Leaf) → IsSearch s
        → All (IsStill s) xs → AreLeaves (served_rules s xs) ls → All (IsWeighed s xs) ls }
{}
