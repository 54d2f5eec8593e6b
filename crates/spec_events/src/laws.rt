// Laws about events, and about the windows of a covered span. Each is the contract of a function that does nothing.
ghost use Rattle.std.specs.Prelude.{◌≡◌, ◌<◌, ◌≤◌, ◌⊎◌, ◌↔◌, List, Bool, true, ℤ, ◌<ℤ◌};
ghost use Rattle.spec_intervals.specs.Fraction.{Fraction};
ghost use Rattle.spec_events.specs.declared.dir.Dir.{Dir};
ghost use Rattle.spec_events.specs.declared.dir.Dir.TheVariants.{Any};
ghost use Rattle.spec_events.specs.Events.{Always, AreWindows, Happens, HasNoEvent, HoldsOne, IsTurn, IsWantedTurn, Passes};
ghost use Rattle.spec_events.specs.Functions.{EventsOf, Guard, GuardsHold, IsNotNegative};
ghost use Rattle.spec_events.specs.Marks.{AreRightlyMarked};
ghost use Rattle.spec_events.specs.Soundness.{AreSound, Evidence, IsEvidence, findings_of, guards_of};
ghost use Rattle.spec_events.specs.Stages.{staged_verdict};
ghost use Rattle.spec_events.specs.Verdict.{Criteria, Findings, verdict};
ghost use Rattle.spec_trees.specs.declared.tree.Leaf.{Leaf};
ghost use Rattle.spec_trees.specs.declared.tree.Node.{Node};
ghost use Rattle.spec_trees.specs.declared.tree.Turn.{Turn};
ghost use Rattle.spec_trees.specs.declared.tree.Verdict.TheVariants.{Clear, One, Split, Undecided};
ghost use Rattle.spec_trees.specs.declared.window.Holds.TheVariants.{Certain};
ghost use Rattle.spec_trees.specs.Cuts.{is_wide};
ghost use Rattle.spec_trees.specs.Tree.{Covers, width};
ghost use Rattle.spec_trees.specs.Windows.{window_of, windows};

/// States that if turns in any direction are wanted and there is no guard, the events are exactly the turns of the
/// condition.
pub fn all_turns_are_events_without_guards()
    ensures any { (p : ℤ → Bool) (turn : Turn) (t : ℤ) → IsTurn (Passes p) turn t
        ↔ IsWantedTurn (Passes p) Any Always turn t }
{}

/// States what windows promise if their leaves cover a span and have the right marks: they lie in the span, in order
/// and apart, hold every event, each certain one exactly one, and undecided times lie in undecided leaves. Stated for
/// any events, for turns, and for functions.
pub fn windows_of_a_covered_span_hold_its_events()
    ensures are_windows { (e : Turn → ℤ → Bool) (u : Node → Bool) (a b : ℤ) (ls : List Leaf)
        → Covers a ls b → AreRightlyMarked (Happens e) (Passes u) ls
        → AreWindows (Happens e) (Passes u) a b (windows ls) }
    ensures of_turns { (p : ℤ → Bool) (u : Node → Bool) (a b : ℤ) (ls : List Leaf) → Covers a ls b
        → AreRightlyMarked (IsTurn (Passes p)) (Passes u) ls
        → AreWindows (IsTurn (Passes p)) (Passes u) a b (windows ls) }
    ensures of_functions { (exact : ℤ → Fraction) (dir : Dir) (guards : List Guard)
        (u : Node → Bool) (a b : ℤ) (ls : List Leaf) → Covers a ls b
        → AreRightlyMarked (EventsOf exact dir guards) (Passes u) ls
        → AreWindows (EventsOf exact dir guards) (Passes u) a b (windows ls) }
{}

/// States that a node with the verdict clear holds no event if what was found at it is true: for a condition and guard
/// given by tests, and for a function and guards given by enclosures over the node.
pub fn a_clear_node_holds_no_event()
    ensures tests { (p g : ℤ → Bool) (c : Criteria) (n : Node) (f : Findings)
        → AreSound (Passes p) (Passes g) n f → verdict c n f ≡ Clear
        → HasNoEvent (IsWantedTurn (Passes p) c.dir (Passes g)) n.a n.b }
    ensures functions { (exact : ℤ → Fraction) (c : Criteria) (n : Node) (e : Evidence)
        → IsEvidence exact n e → verdict c n (findings_of e) ≡ Clear
        → HasNoEvent (EventsOf exact c.dir (guards_of e)) n.a n.b }
{}

/// States that a node with the verdict of one event holds exactly one, a turn in the verdict's direction, if what was
/// found at it is true: for a condition and guard given by tests, and for a function given by enclosures.
pub fn a_node_with_one_holds_one()
    ensures tests { (p g : ℤ → Bool) (c : Criteria) (n : Node) (f : Findings) (turn : Turn)
        → AreSound (Passes p) (Passes g) n f → verdict c n f ≡ One turn
        → HoldsOne (IsWantedTurn (Passes p) c.dir (Passes g)) turn (window_of n (Certain turn)) }
    ensures functions { (exact : ℤ → Fraction) (c : Criteria) (n : Node) (e : Evidence)
        (turn : Turn) → IsEvidence exact n e → verdict c n (findings_of e) ≡ One turn
        → HoldsOne (EventsOf exact c.dir (guards_of e)) turn (window_of n (Certain turn)) }
{}

/// States that the signs of enclosures of a function and of its guards over a node, and the sign of the function's
/// steps, are true findings there.
pub fn enclosures_give_true_findings()
    ensures sound { (exact : ℤ → Fraction) (n : Node) (e : Evidence) → IsEvidence exact n e
        → AreSound (IsNotNegative exact) (GuardsHold (guards_of e)) n (findings_of e) }
{}

/// States that a node into which a border of granules falls is split if it is wider than one unit of time, whatever
/// else was found at it.
pub fn wide_nodes_at_a_border_are_split()
    ensures split { (c : Criteria) (n : Node) (f : Findings) → f.crosses ≡ true
        → is_wide n ≡ true → verdict c n f ≡ Split }
{}

/// States that a node with the verdict undecided is no wider than the width that is asked for, or at least as deep as
/// the greatest depth. So nothing is left undecided that may be split.
pub fn undecided_nodes_are_at_a_limit()
    ensures limit { (c : Criteria) (n : Node) (f : Findings) → n.a <ℤ n.b → 0 < c.width
        → verdict c n f ≡ Undecided → (width n ≤ c.width) ⊎ (c.depth ≤ n.depth) }
{}

/// States that `staged_verdict`, which looks at a node's findings one after another and stops as soon as they decide,
/// is the same as `verdict`, for nodes in order and a width above 0.
pub fn staged_verdicts_are_verdicts()
    ensures same { (c : Criteria) (n : Node) (f : Findings) → n.a <ℤ n.b → 0 < c.width
        → verdict c n f ≡ staged_verdict c n f }
{}
