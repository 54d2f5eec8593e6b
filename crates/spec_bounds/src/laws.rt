// Laws of bounds, of steady and quiet spans, and of mids. Each is the contract of a function that does nothing. Over
// a steady span the function is monotone and each condition holds; over a quiet one the function has one sign.
ghost use Rattle.std.specs.Prelude.{◌≡◌, true, false, nat_le, [], All, ℤ, ◌≤ℤ◌, ◌<ℤ◌};
ghost use Rattle.spec_intervals.specs.Enclosure.{middle};
ghost use Rattle.spec_intervals.specs.Signs.{sign_of};
ghost use Rattle.spec_trees.specs.declared.tree.Node.{Node};
ghost use Rattle.spec_trees.specs.declared.tree.Verdict.TheVariants.{Clear};
ghost use Rattle.spec_trees.specs.Cuts.{is_wide};
ghost use Rattle.spec_trees.specs.Tree.{IsValid, width};
ghost use Rattle.spec_events.specs.Stages.{has_no_turn, limit_verdict};
ghost use Rattle.spec_events.specs.Verdict.{differ, is_known};
ghost use Rattle.spec_expressions.specs.Term.{HasLeaves, IsFormula, IsLeaf, Leaf, Term, leaf_exponent, part_exponent};
ghost use Rattle.spec_ephemeris.specs.Series.{Series};
ghost use Rattle.spec_motions.specs.Enclosures.{IsSeries, IsSpanOf};
ghost use Rattle.spec_bodies.specs.declared.quantity.Quantity.{Quantity};
ghost use Rattle.spec_bodies.specs.Views.{Fits, View, state_enclosure, step_interval, value_interval};
ghost use Rattle.spec_searches.specs.Found.{rules};
ghost use Rattle.spec_searches.specs.Search.{IsSearch, Search, criteria, crosses, enclosure_over, verdict_of};
ghost use Rattle.spec_models.specs.Bounds.{IncludesEnclosure};
ghost use Rattle.spec_models.specs.Inclusion.{Includes};
ghost use Rattle.spec_bounds.specs.Quiet.{IsQuiet, sign_over};
ghost use Rattle.spec_bounds.specs.Terms.{bound_over, state_bound};
ghost use Rattle.spec_bounds.specs.Limits.{IsBoundWithin};
ghost use Rattle.spec_bounds.specs.Steady.{IsSteady, is_certified_at, sign_at, steady_verdict};

/// States that the bound of a coordinate over times from `c` to `d`, between which no granule of a column in use
/// begins, includes its enclosure over every span from `a` to `b` within them.
pub fn bounds_include_states()
    ensures { (v : View) (l : Leaf) (a b c d : ℤ) → IsLeaf l → Fits v c d
        → c ≤ℤ a → a <ℤ b → b ≤ℤ d
        → IncludesEnclosure (state_bound v l c d) (state_enclosure v l a b) }
{}

/// States that the verdict of a valid node within a steady span, over which the function is monotone and each condition
/// holds, is told by the signs of the function at the node's two ends, if both are known.
pub fn steady_spans_tell_verdicts()
    ensures { (s : Search) (a b : ℤ) (n : Node) → IsSearch s → IsSteady s a b
        → IsValid (rules s) n → a ≤ℤ n.a → n.b ≤ℤ b
        → is_known (sign_at s n.a) ≡ true → is_known (sign_at s n.b) ≡ true
        → verdict_of s n ≡ steady_verdict (criteria s) n (sign_at s n.a) (sign_at s n.b) }
{}

/// States that a node wider than the width and than one tick, without a border in it, has the verdict of the limits,
/// split or undecided, if the signs at its ends differ in a wanted direction: without conditions, and with conditions
/// certified at one of its times.
pub fn ends_that_differ()
    ensures unconditional { (s : Search) (n : Node) → IsSearch s → IsValid (rules s) n
        → s.event.conditions ≡ [] → crosses s n ≡ false → is_wide n ≡ true
        → differ s.event.dir (sign_at s n.a) (sign_at s n.b) ≡ true
        → nat_le (width n) s.width ≡ false → verdict_of s n ≡ limit_verdict (criteria s) n }
    ensures certified { (s : Search) (n : Node) (t : ℤ) → IsSearch s → IsValid (rules s) n
        → n.a ≤ℤ t → t ≤ℤ n.b → All (λ c. is_certified_at s t c ≡ true) s.event.conditions
        → crosses s n ≡ false → is_wide n ≡ true
        → differ s.event.dir (sign_at s n.a) (sign_at s n.b) ≡ true
        → nat_le (width n) s.width ≡ false → verdict_of s n ≡ limit_verdict (criteria s) n }
{}

/// States that the intervals of a series over a span from `c` to `d` include those over every span from `a` to `b`
/// within it: of its positions or velocities, and of their changes from each time to the next.
pub fn bounds_include_series()
    ensures value { (quantity : Quantity) (s : Series) (a b c d : ℤ) → IsSeries s
        → IsSpanOf s c d → c ≤ℤ a → a ≤ℤ b → b ≤ℤ d
        → Includes (value_interval quantity s c d) (value_interval quantity s a b) }
    ensures step { (quantity : Quantity) (s : Series) (a b c d : ℤ) → IsSeries s
        → IsSpanOf s c d → c ≤ℤ a → a <ℤ b → b ≤ℤ d
        → Includes (step_interval quantity s c d) (step_interval quantity s a b) }
{}

/// States that the mid of a formula's enclosure over `[a, b]` is the range of its enclosure at the middle alone. So at
/// a node into which no border falls the sign of the mid of a search's function is the function's sign at the middle.
pub fn middles_are_told()
    ensures of_formulas { (v : View) (x : Term) (a b : ℤ) → HasLeaves x → Fits v a b → a <ℤ b
        → (enclosure_over (state_enclosure v) x a b).mid
        ≡ (enclosure_over (state_enclosure v) x (middle a b) (middle a b)).range }
    ensures of_searches { (s : Search) (n : Node) → IsSearch s → IsValid (rules s) n → crosses s n ≡ false
        → sign_of (enclosure_over (state_enclosure s.view) s.event.function n.a n.b).mid
        ≡ sign_at s (middle n.a n.b) }
{}

/// States that in a quiet span, over which the bound of the function has one sign, the function has this sign at each
/// time and each valid node is clear. A node of one unit at a border is clear if the signs at its ends show no wanted
/// turn.
pub fn quiet_spans_are_clear()
    ensures times { (s : Search) (a b t : ℤ) → IsSearch s → IsQuiet s a b → a ≤ℤ t → t ≤ℤ b
        → sign_at s t ≡ sign_over s a b }
    ensures nodes { (s : Search) (a b : ℤ) (n : Node) → IsSearch s → IsQuiet s a b
        → IsValid (rules s) n → a ≤ℤ n.a → n.b ≤ℤ b → verdict_of s n ≡ Clear }
    ensures borders { (s : Search) (n : Node) → IsSearch s → IsValid (rules s) n
        → crosses s n ≡ true → is_wide n ≡ false
        → has_no_turn s.event.dir (sign_at s n.a) (sign_at s n.b) ≡ true → verdict_of s n ≡ Clear }
{}

/// States that over times between which no granule of a column in use begins no exponent in the bounds of coordinates
/// passes `leaf_exponent`, and none in those of formulas `part_exponent`, so that every rule on intervals can be
/// applied.
pub fn bounds_are_within_limits()
    ensures states { (v : View) (l : Leaf) (a b : ℤ) → IsLeaf l → Fits v a b
        → IsBoundWithin leaf_exponent (state_bound v l a b) }
    ensures formulas { (v : View) (x : Term) (a b : ℤ) → IsFormula x → Fits v a b
        → IsBoundWithin part_exponent (bound_over v x a b) }
{}
