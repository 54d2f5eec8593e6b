// Laws of every search of a scalar. Each is the contract of a function that does nothing.
ghost use Rattle.std.specs.Prelude.{◌≡◌, ◌↔◌, ◌≤ℤ◌, ◌<ℤ◌, ◌-ℤ◌, ℤ, List, pos, true};
ghost use Rattle.spec_trees.specs.declared.tree.Leaf.{Leaf};
ghost use Rattle.spec_trees.specs.declared.tree.Node.{Node};
ghost use Rattle.spec_trees.specs.declared.tree.Turn.{Turn};
ghost use Rattle.spec_trees.specs.declared.tree.Turn.TheVariants.{Fall, Rise};
ghost use Rattle.spec_trees.specs.declared.tree.Verdict.TheVariants.{Clear, One};
ghost use Rattle.spec_trees.specs.declared.window.Holds.TheVariants.{Certain};
ghost use Rattle.spec_trees.specs.Tree.{AreLeaves, Covers, IsSound, IsValid};
ghost use Rattle.spec_trees.specs.Windows.{window_of, windows};
ghost use Rattle.spec_events.specs.Events.{AreWindows, HasNoEvent, HoldsOne, wants};
ghost use Rattle.spec_judged.specs.Judged as judged;
ghost use Rattle.spec_scalars.specs.Quads.{Quadratic, quad_at, quad_reach};
ghost use Rattle.spec_scalars.specs.Scalars.{IsReach};
ghost use Rattle.spec_scalars.specs.Searches.{IsLeftUndecided, IsSearch, Search, events, judged_by, rules, verdict_of, windows_of};

/// States when a scalar's search has an event at a time: a wanted rise if the scalar is below 0 at the time before and
/// at least 0 at this one, and a wanted fall if it is at least 0 before and below 0 now.
pub fn events_are_where_scalars_pass_0()
    ensures rises { (s : Search) (t : ℤ) → events s Rise t
        ↔ ((wants s.plan.dir Rise ≡ true)
        × (s.scalar.at (t -ℤ pos 1) <ℤ pos 0) × (pos 0 ≤ℤ s.scalar.at t)) }
    ensures falls { (s : Search) (t : ℤ) → events s Fall t
        ↔ ((wants s.plan.dir Fall ≡ true)
        × (pos 0 ≤ℤ s.scalar.at (t -ℤ pos 1)) × (s.scalar.at t <ℤ pos 0)) }
{}

/// States that in the search of a scalar a valid node with the verdict clear holds no event, and one with the verdict
/// of one event holds exactly one, a turn in its direction.
pub fn verdicts_are_true()
    ensures clear { (s : Search) (n : Node) → IsSearch s → IsValid (rules s) n
        → verdict_of s n ≡ Clear → HasNoEvent (events s) n.a n.b }
    ensures one { (s : Search) (n : Node) (turn : Turn) → IsSearch s → IsValid (rules s) n
        → verdict_of s n ≡ One turn → HoldsOne (events s) turn (window_of n (Certain turn)) }
{}

/// States that the rules of a scalar's search are sound: parts of a valid node that is split are valid nodes, and
/// cutting ends.
pub fn rules_of_scalar_searches_are_sound()
    ensures { (s : Search) → IsSearch s → IsSound (rules s) }
{}

/// States that the windows of a scalar's search lie in its span in order and hold every event, each certain one exactly
/// one; each undecided time lies in an undecided leaf. Stated for the leaves of a node's tree, and for any that cover a
/// span.
pub fn windows_hold_the_events()
    ensures of_trees { (s : Search) (n : Node) → IsSearch s → IsValid (rules s) n
        → AreWindows (events s) (IsLeftUndecided s n) n.a n.b (windows_of s n) }
    ensures of_leaves { (s : Search) (a b : ℤ) (ls : List Leaf) → IsSearch s
        → Covers a ls b → AreLeaves (rules s) ls
        → AreWindows (events s) (judged.IsLeftUndecided (judged_by s) ls) a b (windows ls) }
{}

/// States that `quad_reach` bounds a quadratic polynomial over the span from `a` to `b`: its value at each time, and
/// its change from each time to the next.
pub fn quads_keep_within_their_reach()
    ensures { (k : Quadratic) (a b : ℤ) → a ≤ℤ b → IsReach (quad_at k) a b (quad_reach k a b) }
{}
