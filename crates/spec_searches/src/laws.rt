// Laws of every search. Each is the contract of a function that does nothing.
ghost use Rattle.std.specs.Prelude.{◌≡◌, List, true, ℤ};
ghost use Rattle.spec_expressions.specs.Term.{exact_of};
ghost use Rattle.spec_bodies.specs.Views.{exact_state};
ghost use Rattle.spec_trees.specs.declared.tree.Leaf.{Leaf};
ghost use Rattle.spec_trees.specs.declared.tree.Node.{Node};
ghost use Rattle.spec_trees.specs.declared.tree.Turn.{Turn};
ghost use Rattle.spec_trees.specs.declared.tree.Verdict.TheVariants.{Clear, One, Split};
ghost use Rattle.spec_trees.specs.declared.window.Holds.TheVariants.{Certain};
ghost use Rattle.spec_trees.specs.Tree.{AreLeaves, Covers, Cuts, IsSound, IsValid, leaves};
ghost use Rattle.spec_trees.specs.Windows.{window_of, windows};
ghost use Rattle.spec_events.specs.Events.{AreWindows, HasNoEvent, HoldsOne};
ghost use Rattle.spec_events.specs.Marks.{AreRightlyMarked};
ghost use Rattle.spec_events.specs.Soundness.{IsEvidence};
ghost use Rattle.spec_searches.specs.Search.{IsSearch, Search, events, evidence_at, may_be_cut, parts, verdict_of};
ghost use Rattle.spec_searches.specs.Found.{IsLeftUndecided, IsSpan, leaves_of, root, rules, windows_of};

/// States that what a search finds at a valid node, the enclosures of its function and of its conditions there, is true
/// of their exact values.
pub fn enclosures_of_searches_are_true_findings()
    ensures { (s : Search) (n : Node) → IsSearch s → IsValid (rules s) n
        → IsEvidence (exact_of (exact_state s.view) s.event.function) n (evidence_at s n) }
{}

/// States that in a search over an ephemeris a valid node that is clear holds no event, and one whose verdict is one
/// event holds exactly one, a turn in its direction.
pub fn verdicts_are_true()
    ensures clear { (s : Search) (n : Node) → IsSearch s → IsValid (rules s) n
        → verdict_of s n ≡ Clear → HasNoEvent (events s) n.a n.b }
    ensures one { (s : Search) (n : Node) (turn : Turn) → IsSearch s → IsValid (rules s) n
        → verdict_of s n ≡ One turn → HoldsOne (events s) turn (window_of n (Certain turn)) }
{}

/// States that a node with the verdict split may be cut, and that the two parts of a valid node that may be cut follow
/// one another over it and are valid nodes.
pub fn nodes_that_may_be_cut_have_valid_parts()
    ensures split { (s : Search) (n : Node) → verdict_of s n ≡ Split
        → may_be_cut s n ≡ true }
    ensures cuts { (s : Search) (n : Node) → IsSearch s → IsValid (rules s) n
        → may_be_cut s n ≡ true → Cuts n (parts s n).0 (parts s n).1 }
    ensures left { (s : Search) (n : Node) → IsSearch s → IsValid (rules s) n
        → may_be_cut s n ≡ true → IsValid (rules s) (parts s n).0 }
    ensures right { (s : Search) (n : Node) → IsSearch s → IsValid (rules s) n
        → may_be_cut s n ≡ true → IsValid (rules s) (parts s n).1 }
{}

/// States that the rules by which a search cuts nodes are sound, and that the root of a span that the search can look
/// at is a valid node.
pub fn searches_are_sound()
    ensures rules { (s : Search) → IsSearch s → IsSound (rules s) }
    ensures root { (s : Search) (first last : ℤ) → IsSearch s → IsSpan s first last
        → IsValid (rules s) (root first last) }
{}

/// States that valid nodes that are not split, each with the mark of its verdict, are rightly marked, wherever they
/// come from. If they follow one another over a span, their windows hold the events in it, as those of the search's own
/// tree do.
pub fn windows_of_any_leaves_hold_the_events()
    ensures marks { (s : Search) (ls : List Leaf) → IsSearch s → AreLeaves (rules s) ls
        → AreRightlyMarked (events s) (IsLeftUndecided s ls) ls }
    ensures windows { (s : Search) (first last : ℤ) (ls : List Leaf) → IsSearch s
        → Covers first ls last → AreLeaves (rules s) ls
        → AreWindows (events s) (IsLeftUndecided s ls) first last (windows ls) }
{}

/// States that each leaf of the tree of a valid node has the right mark: a clear one has no event, one with a turn
/// exactly one event, and an undecided one is no wider than the width or as deep as the depth.
pub fn leaves_are_rightly_marked()
    ensures { (s : Search) (n : Node) → IsSearch s → IsValid (rules s) n
        → AreRightlyMarked (events s) (IsLeftUndecided s (leaves (rules s) n))
        (leaves (rules s) n) }
{}

/// States that the windows that a search finds in a span lie in it in order and hold every event, each certain one
/// exactly one. Each time of an undecided window lies in a leaf that was left undecided and lies in the window.
pub fn windows_hold_the_events()
    ensures { (s : Search) (first last : ℤ) → IsSearch s → IsSpan s first last
        → AreWindows (events s) (IsLeftUndecided s (leaves_of s first last)) first last
        (windows_of s first last) }
{}
