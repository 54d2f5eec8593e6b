// Laws of sets of times. Each is the contract of a function that does nothing.
ghost use Rattle.std.specs.Prelude.{◌≡◌, ◌&&◌, ◌||◌, ◌⊎◌, Bool, not, true, List, ℤ, ◌≤ℤ◌, []};
ghost use Rattle.spec_intervals.specs.Fraction.{Fraction};
ghost use Rattle.spec_intervals.specs.declared.signs.Sign.{Sign};
ghost use Rattle.spec_intervals.specs.Enclosure.{Enclosure};
ghost use Rattle.spec_expressions.specs.Term.{HasLeaves, Leaf, LeavesAreEnclosed, LeavesAreNumbers, Term, exact_of};
ghost use Rattle.spec_trees.specs.declared.tree.Leaf.{Leaf as TreeLeaf};
ghost use Rattle.spec_trees.specs.declared.tree.Node.{Node};
ghost use Rattle.spec_trees.specs.Tree.{Covers};
ghost use Rattle.spec_events.specs.declared.dir.Dir.TheVariants as D;
ghost use Rattle.spec_events.specs.Events.{Passes};
ghost use Rattle.spec_events.specs.Functions.{EventsOf, IsNotNegative};
ghost use Rattle.spec_events.specs.Marks.{AreRightlyMarked};
ghost use Rattle.spec_events.specs.Soundness.{Tells};
ghost use Rattle.spec_sets.specs.Pairs.{AreOf, AreSets};
ghost use Rattle.spec_sets.specs.Points.{point_of};
ghost use Rattle.spec_sets.specs.Signs.{AreTold, both, either, known, opposite, sign_of_leaves};
ghost use Rattle.spec_sets.specs.Spans.{AreSpans, Span, earliest, has, is_between, latest, spans_of};

/// States that two lists of spans in normal form, which are in order and do not touch, are equal if they have the same
/// times.
pub fn spans_are_determined_by_their_times()
    ensures { (xs ys : List Span) → AreSpans xs → AreSpans ys → ((t : ℤ) → has xs t ≡ has ys t)
        → xs ≡ ys }
{}

/// States that the longest runs of times from `from` to `upto` at which a test holds are spans in normal form, have
/// exactly the times there that pass the test, and are the only spans that do.
pub fn runs_have_their_times()
    ensures spans { (test : ℤ → Bool) (from upto : ℤ) → from ≤ℤ upto → earliest ≤ℤ from
        → upto ≤ℤ latest → AreSpans (spans_of test from upto) }
    ensures times { (test : ℤ → Bool) (from upto : ℤ) → from ≤ℤ upto → earliest ≤ℤ from
        → upto ≤ℤ latest
        → (t : ℤ) → has (spans_of test from upto) t ≡ (is_between from upto t && test t) }
    ensures only { (test : ℤ → Bool) (from upto : ℤ) → from ≤ℤ upto → earliest ≤ℤ from
        → upto ≤ℤ latest → (xs : List Span) → AreSpans xs
        → ((t : ℤ) → has xs t ≡ (is_between from upto t && test t)) → xs ≡ spans_of test from upto }
{}

/// States that if leaves cover a span and their marks are true of a condition, and `point` tells true signs at single
/// times, then the signs of the leaves tell the truth of the condition at each time of the span.
pub fn leaves_tell_of_each_time()
    ensures { (p : ℤ → Bool) (point : ℤ → Sign) (from upto : ℤ) (ls : List TreeLeaf)
        → Covers from ls upto → AreTold (Passes p) ls
        → ((t : ℤ) → from ≤ℤ t → t ≤ℤ upto → Tells (point t) (Passes p t))
        → (t : ℤ) → from ≤ℤ t → t ≤ℤ upto
        → Tells (sign_of_leaves point from ls t) (Passes p t) }
{}

/// States that leaves that cover a span and are rightly marked for all turns of a function, without guards, tell the
/// truth of the condition that the function is at least 0.
pub fn rightly_marked_leaves_tell()
    ensures { (exact : ℤ → Fraction) (u : Node → Bool) (from upto : ℤ) (ls : List TreeLeaf)
        → Covers from ls upto → AreRightlyMarked (EventsOf exact D.Any []) (Passes u) ls
        → AreTold (IsNotNegative exact) ls }
{}

/// States that if signs tell the truth of a condition at each time of a span, each sure time of the sets that are made
/// of them meets the condition, and each time that meets it is possible.
pub fn true_signs_give_sets()
    ensures { (p : ℤ → Bool) (sign : ℤ → Sign) (from upto : ℤ) (sure maybe : List Span)
        → AreOf sign from upto sure maybe
        → ((t : ℤ) → from ≤ℤ t → t ≤ℤ upto → Tells (sign t) (Passes p t))
        → AreSets (Passes p) from upto sure maybe }
{}

/// States that the sign of a term's enclosure at a single time tells whether the exact value of the term is at least 0
/// there, if the enclosures of its leaves hold their exact values.
pub fn signs_at_single_times_tell()
    ensures { (exact : Leaf → ℤ → Fraction) (answer : Leaf → ℤ → ℤ → Enclosure) (e : Term)
        → HasLeaves e → (t : ℤ) → LeavesAreNumbers exact t t
        → LeavesAreEnclosed exact t t (λ l. answer l t t)
        → Tells (point_of answer e t) (IsNotNegative (exact_of exact e) t) }
{}

/// States that if two signs tell the truth of two conditions, their opposite, `either` and `both` tell the truth of the
/// opposite, of either and of both.
pub fn combined_signs_tell()
    ensures opposite { (x : Sign) (a : Bool) → Tells x (a ≡ true)
        → Tells (opposite x) (a ≡ true → ⊥) }
    ensures either { (x y : Sign) (a b : Bool) → Tells x (a ≡ true)
        → Tells y (b ≡ true) → Tells (either x y) ((a ≡ true) ⊎ (b ≡ true)) }
    ensures both { (x y : Sign) (a b : Bool) → Tells x (a ≡ true)
        → Tells y (b ≡ true) → Tells (both x y) ((a ≡ true) × (b ≡ true)) }
{}

/// States that signs that are known combine to known signs: `opposite`, `either` and `both` of the signs of two truths
/// are the signs of not, or and and.
pub fn known_signs_combine_to_known_signs()
    ensures opposite { (a : Bool) → opposite (known a) ≡ known (not a) }
    ensures either { (a b : Bool) → either (known a) (known b) ≡ known (a || b) }
    ensures both { (a b : Bool) → both (known a) (known b) ≡ known (a && b) }
{}

/// States that if the sign of each time of a span is known, the sure times are exactly those of the span that meet the
/// condition, and so are the possible ones.
pub fn known_signs_give_one_set()
    ensures sure { (p : ℤ → Bool) (sign : ℤ → Sign) (from upto : ℤ) (sure maybe : List Span)
        → AreOf sign from upto sure maybe
        → ((t : ℤ) → from ≤ℤ t → t ≤ℤ upto → sign t ≡ known (p t))
        → (t : ℤ) → has sure t ≡ (is_between from upto t && p t) }
    ensures possible { (p : ℤ → Bool) (sign : ℤ → Sign) (from upto : ℤ) (sure maybe : List Span)
        → AreOf sign from upto sure maybe
        → ((t : ℤ) → from ≤ℤ t → t ≤ℤ upto → sign t ≡ known (p t))
        → (t : ℤ) → has maybe t ≡ (is_between from upto t && p t) }
{}
