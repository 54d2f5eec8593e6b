// Laws of terms over columns. Each is the contract of a function that does nothing.

ghost use Rattle.std.specs.Prelude.{◌≡◌, ◌<◌, ℕ, ℤ};
ghost use Rattle.spec_text.specs.declared.decimals.Decimal.{Decimal};
ghost use Rattle.spec_intervals.specs.Interval.{IsCosine, IsDistance};
ghost use Rattle.spec_intervals.specs.Enclosure.{AllWithin, Encloses};
ghost use Rattle.spec_expressions.specs.Term.{IsFormula, IsLeaf, Leaf, Term, part_exponent};
ghost use Rattle.spec_bodies.specs.declared.factor.Factor.{Factor};
ghost use Rattle.spec_bodies.specs.declared.quantity.Quantity.{Quantity};
ghost use Rattle.spec_bodies.specs.Reading.{IsReadable};
ghost use Rattle.spec_bodies.specs.Views.{Fits, IsView, View, state_enclosure};
ghost use Rattle.spec_searches.specs.Search.{enclosure_over};
ghost use Rattle.spec_bounds.specs.Limits.{IsBoundWithin};
ghost use Rattle.spec_bounds.specs.Terms.{bound_over};
ghost use Rattle.spec_covers.specs.Points.{point_of, state_point};
ghost use Rattle.spec_steps.specs.declared.sights.Sight.{Sight};
ghost use Rattle.spec_steps.specs.ColumnTerms.{ColumnTerm, column, coordinate_of, cosine, difference, length, of_leaf, of_term, product, scaled, sight_of, signed_square, sum};
ghost use Rattle.spec_steps.specs.Meanings.{bound_meant, enclosure_meant, point_meant};
ghost use Rattle.spec_steps.specs.Parts.{IsPart, IsSeen, IsSeenColumn};

/// States that the term of columns that stands for a formula means what the formula does, in each arithmetic: it has
/// the same enclosure over `[a, b]`, the same bound, and the same interval at a single time.
pub fn terms_mean_their_formulas()
    ensures enclosures { (v : View) (e : Term) (a b : ℤ)
        → enclosure_meant v a b (of_term (sight_of v) e) ≡ enclosure_over (state_enclosure v) e a b }
    ensures bounds { (v : View) (e : Term) (a b : ℤ)
        → bound_meant v a b (of_term (sight_of v) e) ≡ bound_over v e a b }
    ensures points { (v : View) (e : Term) (c t : ℤ)
        → point_meant v c t (of_term (sight_of v) e) ≡ point_of (state_point v c t) e }
{}

/// States that each coordinate along an axis is a short formula of the columns in use, and that the terms of
/// coordinates, and of each formula, may therefore stand in a list of steps (`IsPart`).
pub fn terms_of_formulas_may_be_listed()
    ensures coordinates { (s : Sight) (target axis : ℕ) → axis < 3
        → IsSeen s (coordinate_of s target axis) }
    ensures leaves { (s : Sight) (l : Leaf) → IsLeaf l → IsPart s (of_leaf s l) }
    ensures formulas { (s : Sight) (e : Term) → IsFormula e → IsPart s (of_term s e) }
{}

/// States that the operands of a term that may stand in a list (`IsPart`) may stand in it too: of scaled terms, sums,
/// differences, products and signed squares.
pub fn parts_may_be_listed()
    ensures scaled { (s : Sight) (f : Factor) (x : ColumnTerm) → IsPart s (scaled f x) → IsPart s x }
    ensures sums { (s : Sight) (x y : ColumnTerm) → IsPart s (sum x y) → IsPart s x × IsPart s y }
    ensures differences { (s : Sight) (x y : ColumnTerm) → IsPart s (difference x y)
        → IsPart s x × IsPart s y }
    ensures products { (s : Sight) (x y : ColumnTerm) → IsPart s (product x y)
        → IsPart s x × IsPart s y }
    ensures squares { (s : Sight) (x : ColumnTerm) → IsPart s (signed_square x) → IsPart s x }
{}

/// States that the constants that may stand in a list are within the limits of formulas: lengths are below 2^36 km and
/// cosines at most 1 in magnitude.
pub fn listed_constants_are_within_limits()
    ensures lengths { (s : Sight) (d : Decimal) → IsPart s (length d) → IsDistance d.mant d.exp }
    ensures cosines { (s : Sight) (d : Decimal) → IsPart s (cosine d) → IsCosine d.mant d.exp }
{}

/// States that the columns that may stand in a list are those in use by what is seen, and that a checked view can read
/// them.
pub fn listed_columns_are_read()
    ensures seen { (s : Sight) (q : Quantity) (number axis : ℕ) → IsPart s (column q number axis)
        → IsSeenColumn s number axis }
    ensures readable { (v : View) (number axis : ℕ) → IsView v
        → IsSeenColumn (sight_of v) number axis → IsReadable v number axis }
{}

/// States that over times between which no granule of a column in use begins no exponent in the bound of a term that
/// may stand in a list passes `part_exponent`, so that every rule on intervals can be applied.
pub fn listed_bounds_are_within_limits()
    ensures { (v : View) (t : ColumnTerm) (a b : ℤ) → IsPart (sight_of v) t → Fits v a b
        → IsBoundWithin part_exponent (bound_meant v a b t) }
{}

/// States that over times between which no granule of a column in use begins no exponent in the enclosure of a term
/// that may stand in a list passes `part_exponent`, and that it encloses some function, so that every rule on
/// enclosures can be applied.
pub fn listed_enclosures_are_within_limits()
    ensures within { (v : View) (t : ColumnTerm) (a b : ℤ) → IsPart (sight_of v) t → Fits v a b
        → AllWithin part_exponent (enclosure_meant v a b t) }
    ensures encloses { (v : View) (t : ColumnTerm) (a b : ℤ) → IsPart (sight_of v) t → Fits v a b
        → Encloses a b (enclosure_meant v a b t) }
{}
