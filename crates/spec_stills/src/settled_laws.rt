// What is true of settled leaves: each law is the contract of a function with nothing to do.
ghost use Rattle.std.specs.Prelude.{◌≡◌, ◌<ℤ◌, All, List, Some, false};
ghost use Rattle.spec_trees.specs.declared.tree.Mark.{Mark};
ghost use Rattle.spec_trees.specs.declared.tree.Node.{Node};
ghost use Rattle.spec_trees.specs.declared.tree.Verdict.TheVariants.{Clear, Split};
ghost use Rattle.spec_trees.specs.Tree.{Covers, IsValid, leaves, mark_of};
ghost use Rattle.spec_trees.specs.Windows.{windows};
ghost use Rattle.spec_searches.specs.Found.{rules};
ghost use Rattle.spec_searches.specs.Search.{IsSearch, Search, parts, verdict_of};
ghost use Rattle.spec_stills.specs.declared.still.StillSpan.{StillSpan};
ghost use Rattle.spec_stills.specs.Still.{IsStill};
ghost use Rattle.spec_stills.specs.Settled.{
  holds,
  is_clear_mark,
  is_cleared,
  part_with,
  settled_leaves,
};

/// States that the settled leaves of a root, which are those of its eager tree with undecided ones cleared where the
/// search's tree is clear, follow one another over it, and that they have the windows of the search's tree if the spans
/// are still.
pub fn settled_leaves_have_the_same_windows()
    ensures follow { (s : Search) (xs : List StillSpan) (root : Node) → IsSearch s
        → IsValid (rules s) root → Covers root.a (settled_leaves s xs root) root.b }
    ensures windows { (s : Search) (xs : List StillSpan) (root : Node) → IsSearch s
        → All (IsStill s) xs → IsValid (rules s) root
        → windows (settled_leaves s xs root) ≡ windows (leaves (rules s) root) }
{}

/// States how a walk down from a node `at` finds out whether node `n` lies in a clear leaf of its tree: a clear `at`
/// tells if it holds `n`, one that is split leaves it to its part that holds `n`, which is valid, and any other leaf
/// clears nothing.
pub fn a_walk_down_tells_what_is_cleared()
    ensures clear { (s : Search) (at n : Node) → IsSearch s → IsValid (rules s) at
        → verdict_of s at ≡ Clear → is_cleared s at n ≡ holds at n }
    ensures split { (s : Search) (at n : Node) → IsSearch s → IsValid (rules s) at → n.a <ℤ n.b
        → verdict_of s at ≡ Split → is_cleared s at n ≡ is_cleared s (part_with (parts s at) n) n }
    ensures other { (s : Search) (at n : Node) (m : Mark) → IsSearch s → IsValid (rules s) at
        → is_clear_mark m ≡ false → mark_of (verdict_of s at) ≡ Some m
        → is_cleared s at n ≡ false }
    ensures part { (s : Search) (at n : Node) → IsSearch s → IsValid (rules s) at → n.a <ℤ n.b
        → verdict_of s at ≡ Split → IsValid (rules s) (part_with (parts s at) n) }
{}
