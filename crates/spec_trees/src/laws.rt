// Laws of all trees, leaves and windows. Each is the contract of a function that does nothing.
ghost use Rattle.std.specs.Prelude.{◌≡◌, ◌++◌, ◌∷◌, [], List, None, Some, ℤ};
ghost use Rattle.std.specs.List.Sorted.{IsPermutation, IsSortedByKey, IsStableByKey};
ghost use Rattle.std.specs.Ordering.{int_cmp};
ghost use Rattle.spec_trees.specs.declared.tree.Leaf.{Leaf};
ghost use Rattle.spec_trees.specs.declared.tree.Mark.{Mark};
ghost use Rattle.spec_trees.specs.declared.tree.Node.{Node};
ghost use Rattle.spec_trees.specs.declared.tree.Verdict.TheVariants.{Split};
ghost use Rattle.spec_trees.specs.Order.{beginning, in_order};
ghost use Rattle.spec_trees.specs.Placement.{AreInOrder, AreWithin};
ghost use Rattle.spec_trees.specs.Runs.{joined};
ghost use Rattle.spec_trees.specs.Tree.{AreLeaves, Covers, IsSound, IsValid, Rules, leaf_of, leaves, mark_of};
ghost use Rattle.spec_trees.specs.Windows.{windows};

/// States that the leaves of a valid node, under sound rules, follow one another from the node's `a` to its `b` without
/// gap or overlap, and that each leaf is a valid node with the mark of its verdict.
pub fn leaves_cover_the_node()
    ensures cover { (t : Rules) (n : Node) → IsSound t → IsValid t n → Covers n.a (leaves t n) n.b }
    ensures are_leaves { (t : Rules) (n : Node) → IsSound t → IsValid t n
        → AreLeaves t (leaves t n) }
{}

/// States which leaves a valid node has under sound rules. A node whose verdict has a mark is its own only leaf; a node
/// that is split has the leaves of its left part, followed by those of its right part.
pub fn a_node_has_the_leaves_of_its_parts()
    ensures settled { (t : Rules) (n : Node) (m : Mark) → IsSound t → IsValid t n
        → mark_of (t.verdict n) ≡ Some m → leaves t n ≡ leaf_of n m ∷ [] }
    ensures split { (t : Rules) (n : Node) → IsSound t → IsValid t n → t.verdict n ≡ Split
        → leaves t n ≡ leaves t (t.parts n).0 ++ leaves t (t.parts n).1 }
{}

/// States that `joined None`, a walk over leaves from left to right that carries the undecided window still open, makes
/// the same windows as the definition `windows`.
pub fn a_walk_from_the_left_makes_the_windows()
    ensures same { (ls : List Leaf) → joined None ls ≡ windows ls }
{}

/// States that putting leaves in order of time changes nothing if they follow one another over a span already.
pub fn a_cover_is_in_order()
    ensures { (a b : ℤ) (ls : List Leaf) → Covers a ls b → in_order ls ≡ ls }
{}

/// States that putting leaves in order of time restores the list `ordered` from any rearrangement of it, if the leaves
/// of `ordered` follow one another over a span.
pub fn a_rearranged_cover_is_put_in_order()
    ensures { (a b : ℤ) (ls ordered : List Leaf) → IsPermutation ls ordered → Covers a ordered b
        → in_order ls ≡ ordered }
{}

/// States that a stable sort of leaves by their start time gives the same list as `in_order`, so that std's sort may be
/// used for it.
pub fn a_stable_sort_puts_in_order()
    ensures { (ls sorted : List Leaf) → IsSortedByKey beginning int_cmp sorted
        → IsStableByKey beginning int_cmp ls sorted → sorted ≡ in_order ls }
{}

/// States that the windows of leaves that cover the span from `a` to `b` lie within that span, are pairwise disjoint
/// and stand in order of time.
pub fn windows_are_in_order()
    ensures within { (a b : ℤ) (ls : List Leaf) → Covers a ls b → AreWithin a b (windows ls) }
    ensures in_order { (a b : ℤ) (ls : List Leaf) → Covers a ls b → AreInOrder (windows ls) }
{}
