// What is true of eager trees: each law is the contract of a function with nothing to do.
ghost use Rattle.std.specs.Prelude.{List};
ghost use Rattle.spec_trees.specs.declared.tree.Node.{Node};
ghost use Rattle.spec_trees.specs.Tree.{IsSound, IsValid};
ghost use Rattle.spec_searches.specs.Found.{rules};
ghost use Rattle.spec_searches.specs.Search.{IsSearch, Search};
ghost use Rattle.spec_stills.specs.declared.still.StillSpan.{StillSpan};
ghost use Rattle.spec_stills.specs.Eager.{eager_rules};

/// States that the rules of an eager tree, in which nodes where a still span starts are split without being judged, are
/// sound, whatever the spans are, and that every valid node of the search's tree is valid there.
pub fn eager_trees_are_sound()
    ensures sound { (s : Search) (xs : List StillSpan) → IsSearch s → IsSound (eager_rules s xs) }
    ensures nodes { (s : Search) (xs : List StillSpan) (n : Node) → IsValid (rules s) n
        → IsValid (eager_rules s xs) n }
{}
