// Laws of the two meanings of a term, whatever the leaves. Each is the contract of a function that does nothing.

ghost use Rattle.std.specs.Prelude.{◌≤ℤ◌, ℤ};
ghost use Rattle.spec_intervals.specs.Fraction.{Fraction};
ghost use Rattle.spec_intervals.specs.Enclosure.{Enclosure, IsEnclosure, AllFractions, IsSpan, AllWithin};
ghost use Rattle.spec_expressions.specs.Term.{Leaf, Term, LeavesAreNumbers, LeavesAreEnclosed, LeavesAreWithin, leaf_exponent, part_exponent, exact_of, enclosure_of, HasLeaves, IsFormula};

/// States that if its leaves are fractions over `[a, b]`, so is every term, and if its leaves are enclosed there, so is
/// the term: the mid holds its value in the middle, the range each value and the step each change to the next time.
pub fn terms_are_enclosed()
    ensures numbers { (exact : Leaf → ℤ → Fraction) (a b : ℤ) → LeavesAreNumbers exact a b
        → (e : Term) → HasLeaves e → AllFractions (exact_of exact e) a b }
    ensures holds { (exact : Leaf → ℤ → Fraction) (a b : ℤ) → LeavesAreNumbers exact a b → a ≤ℤ b
        → (answer : Leaf → Enclosure) → LeavesAreEnclosed exact a b answer → (e : Term)
        → HasLeaves e → IsEnclosure (exact_of exact e) a b (enclosure_of answer a b e) }
{}

/// States that if the exponents in the enclosures of leaves are within `leaf_exponent`, those in the enclosure of a
/// formula are within `part_exponent`, so that no rule on intervals meets an exponent that is too great.
pub fn exponents_of_formulas_stay_within_limits()
    ensures { (a b : ℤ) → IsSpan a b → (answer : Leaf → Enclosure)
        → LeavesAreWithin leaf_exponent answer → (e : Term) → IsFormula e
        → AllWithin part_exponent (enclosure_of answer a b e) }
{}
