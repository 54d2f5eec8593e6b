// Laws of every judged search. Each is the contract of a function that does nothing.
ghost use Rattle.std.specs.Prelude.{◌≡◌, ℤ, List};
ghost use Rattle.spec_trees.specs.declared.tree.Leaf.{Leaf};
ghost use Rattle.spec_trees.specs.declared.tree.Node.{Node};
ghost use Rattle.spec_trees.specs.declared.tree.Turn.{Turn};
ghost use Rattle.spec_trees.specs.declared.tree.Verdict.TheVariants.{Clear, One};
ghost use Rattle.spec_trees.specs.declared.window.Holds.TheVariants.{Certain};
ghost use Rattle.spec_trees.specs.Tree.{AreLeaves, Covers, IsValid, leaves};
ghost use Rattle.spec_trees.specs.Windows.{window_of, windows};
ghost use Rattle.spec_events.specs.Events.{AreWindows, HasNoEvent, HoldsOne};
ghost use Rattle.spec_events.specs.Marks.{AreRightlyMarked};
ghost use Rattle.spec_judged.specs.Judged.{IsJudged, IsLeftUndecided, Judged, events};

/// States that in a judged search, whose verdicts follow from true findings, a valid node that is clear holds no event,
/// and one whose verdict is one event holds exactly one, a turn in its direction.
pub fn verdicts_are_true()
    ensures clear { (s : Judged) (n : Node) → IsJudged s → IsValid s.rules n
        → s.rules.verdict n ≡ Clear → HasNoEvent (events s) n.a n.b }
    ensures one { (s : Judged) (n : Node) (turn : Turn) → IsJudged s → IsValid s.rules n
        → s.rules.verdict n ≡ One turn → HoldsOne (events s) turn (window_of n (Certain turn)) }
{}

/// States that in a judged search each leaf has the right mark: a clear one has no event, one with a turn exactly one
/// event, and an undecided one is no wider than the width or as deep as the depth.
pub fn leaves_are_rightly_marked()
    ensures { (s : Judged) (ls : List Leaf) → IsJudged s → AreLeaves s.rules ls
        → AreRightlyMarked (events s) (IsLeftUndecided s ls) ls }
{}

/// States that the windows of leaves that cover a span, of a judged search, lie in it in order and hold every event,
/// each certain one exactly one; each undecided time lies in an undecided leaf. Stated for any such leaves and for
/// those of a valid node's tree.
pub fn windows_hold_the_events()
    ensures of_leaves { (s : Judged) (a b : ℤ) (ls : List Leaf) → IsJudged s
        → Covers a ls b → AreLeaves s.rules ls
        → AreWindows (events s) (IsLeftUndecided s ls) a b (windows ls) }
    ensures of_trees { (s : Judged) (n : Node) → IsJudged s → IsValid s.rules n
        → AreWindows (events s) (IsLeftUndecided s (leaves s.rules n)) n.a n.b
        (windows (leaves s.rules n)) }
{}
