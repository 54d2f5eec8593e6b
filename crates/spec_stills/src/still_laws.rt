// Laws of still spans. Each is the contract of a function that does nothing.
ghost use Rattle.std.specs.Prelude.{◌≡◌, ℕ, ◌<◌, ◌≤◌, ◌^◌, min, true, ℤ, pos, ◌+ℤ◌, ◌≤ℤ◌};
ghost use Rattle.spec_intervals.specs.declared.signs.Sign.{Sign};
ghost use Rattle.spec_trees.specs.declared.tree.Node.{Node};
ghost use Rattle.spec_trees.specs.Tree.{IsValid, leaf_count, leaves, width};
ghost use Rattle.spec_events.specs.Verdict.{is_known};
ghost use Rattle.spec_searches.specs.Found.{rules};
ghost use Rattle.spec_searches.specs.Search.{IsSearch, Search};
ghost use Rattle.spec_bounds.specs.Steady.{sign_at};
ghost use Rattle.spec_stills.specs.declared.still.StillSpan.{StillSpan};
ghost use Rattle.spec_stills.specs.Still.{AreClear, HasWider, IsStill, serves, unit_from};
ghost use Rattle.spec_stills.specs.Margins.{IsMonotone};
ghost use Rattle.spec_stills.specs.Weights.{halvings_of};

/// States that a span within a still span is still with the same sign, if it promises clear nodes that are no wider,
/// and room for wider nodes only if the whole span has it.
pub fn spans_within_still_spans_are_still()
    ensures { (s : Search) (x y : StillSpan) → IsStill s x → x.from ≤ℤ y.from → y.upto ≤ℤ x.upto
        → y.widest ≤ x.widest → (HasWider y → HasWider x) → y.sign ≡ x.sign → IsStill s y }
{}

/// States that the span of one unit of time from `t` is still, for nodes of any width, if the function has one known
/// sign at both its ends, even if a granule begins in it.
pub fn units_of_one_sign_are_still()
    ensures { (s : Search) (t : ℤ) (widest : ℕ) (sign : Sign) → IsSearch s → 0 < widest
        → is_known sign ≡ true → sign_at s t ≡ sign → sign_at s (t +ℤ pos 1) ≡ sign
        → IsStill s (unit_from t widest sign) }
{}

/// States that a span is still, for nodes of any width, if the function has one known sign at each of its times and the
/// span lies within times over which the function is monotone by its bound.
pub fn monotone_spans_are_still()
    ensures { (s : Search) (x : StillSpan) (c d : ℤ) → IsSearch s → IsMonotone s c d
        → c ≤ℤ x.from → x.upto ≤ℤ d → is_known x.sign ≡ true
        → ((t : ℤ) → x.from ≤ℤ t → t ≤ℤ x.upto → sign_at s t ≡ x.sign) → IsStill s x }
{}

/// States that all leaves of a valid node that a still span serves are clear, and that they are at most as many as the
/// node's units of time, and as 2 to the number of halvings that make it as narrow as the span asks.
pub fn served_nodes_have_clear_leaves()
    ensures clear { (s : Search) (x : StillSpan) (n : Node) → IsSearch s → IsStill s x
        → IsValid (rules s) n → serves s x n ≡ true → AreClear (leaves (rules s) n) }
    ensures few { (s : Search) (x : StillSpan) (n : Node) → IsSearch s → IsStill s x
        → IsValid (rules s) n → serves s x n ≡ true → leaf_count (rules s) n ≤ min (2 ^ halvings_of x n) (width n) }
{}
