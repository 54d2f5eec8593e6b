// Laws of the enclosures of bodies. Each is the contract of a function that does nothing.

ghost use Rattle.std.specs.Prelude.{ℕ, ℤ};
ghost use Rattle.spec_intervals.specs.Enclosure.{IsEnclosure, AllFractions, AllWithin, IsSpan};
ghost use Rattle.spec_expressions.specs.Term.{Leaf, IsLeaf};
ghost use Rattle.spec_bodies.specs.declared.source.Source.TheVariants.{EarthOfPair, MoonOfPair};
ghost use Rattle.spec_bodies.specs.Coordinates.{less, earth, moon, displacement};
ghost use Rattle.spec_bodies.specs.Meanings.{AlwaysAgree};
ghost use Rattle.spec_bodies.specs.Views.{View, IsView, HasColumns, Fits, columns_of, exact_state, state_enclosure};

/// States that over times that fit the enclosure of a coordinate of a position or velocity holds its exact value: in
/// the middle, at each time, and in its change from each time to the next. Times fit if no granule of a column in use
/// begins between them.
pub fn enclosures_hold_exact_states()
    ensures { (v : View) (leaf : Leaf) (a b : ℤ) → IsLeaf leaf → Fits v a b
        → IsEnclosure (exact_state v leaf) a b (state_enclosure v leaf a b) }
{}

/// States that over times that fit, which are times between which no granule of a column in use begins, the exponents
/// of a coordinate's enclosure are at most 256 in magnitude.
pub fn exponents_are_small()
    ensures { (v : View) (leaf : Leaf) (a b : ℤ) → IsLeaf leaf → Fits v a b
        → AllWithin 256 (state_enclosure v leaf a b) }
{}

/// States that times that fit the columns in use are in order and near enough to J2000 to be the ends of a span, and
/// that at each of them the exact value of a coordinate is a fraction with a denominator above 0.
pub fn exact_values_are_numbers()
    ensures times { (v : View) (a b : ℤ) → Fits v a b → IsSpan a b }
    ensures numbers { (v : View) (leaf : Leaf) (a b : ℤ) → IsLeaf leaf → Fits v a b
        → AllFractions (exact_state v leaf) a b }
{}

/// States that the coordinates of the Moon seen from the Earth, and of the Earth seen from the Moon, agree with the
/// difference of the places of both, whatever the columns hold, though they are read from the Moon's column alone.
pub fn the_earth_and_the_moon_are_seen_at_their_difference()
    ensures moon { (axis : ℕ)
        → AlwaysAgree (displacement MoonOfPair EarthOfPair axis) (less (moon axis) (earth axis)) }
    ensures earth { (axis : ℕ)
        → AlwaysAgree (displacement EarthOfPair MoonOfPair axis) (less (earth axis) (moon axis)) }
{}

/// States that an ephemeris has all columns that a checked view of it uses, so that they can be read.
pub fn columns_in_use_are_present()
    ensures { (v : View) → IsView v → HasColumns v.ephemeris (columns_of v) }
{}
