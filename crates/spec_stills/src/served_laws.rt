// What is true of served trees: each law is the contract of a function with nothing to do.
ghost use Rattle.std.specs.Prelude.{All, List};
ghost use Rattle.spec_trees.specs.declared.tree.Node.{Node};
ghost use Rattle.spec_trees.specs.Tree.{IsSound, IsValid, leaves};
ghost use Rattle.spec_searches.specs.Found.{rules};
ghost use Rattle.spec_searches.specs.Search.{IsSearch, Search};
ghost use Rattle.spec_stills.specs.declared.still.StillSpan.{StillSpan};
ghost use Rattle.spec_stills.specs.Still.{IsStill};
ghost use Rattle.spec_stills.specs.ServedTree.{TellTheSame, served_rules};

/// States that the rules of a served tree, in which nodes that a still span serves are clear, are sound, whatever the
/// spans are, and that every valid node of the search's tree is valid there.
pub fn served_trees_are_sound()
    ensures sound { (s : Search) (xs : List StillSpan) → IsSearch s → IsSound (served_rules s xs) }
    ensures nodes { (s : Search) (xs : List StillSpan) (n : Node) → IsValid (rules s) n
        → IsValid (served_rules s xs) n }
{}

/// States that if the spans are still, the leaves of a served tree tell at each time the same sign of the function as
/// the leaves of the search's own tree.
pub fn served_trees_tell_the_same()
    ensures { (s : Search) (xs : List StillSpan) (root : Node) → IsSearch s → All (IsStill s) xs
        → IsValid (rules s) root
        → TellTheSame s root.a (leaves (served_rules s xs) root) (leaves (rules s) root) root.b }
{}
