// Worked values of each definition, by computation. The calls do nothing when they run.

ghost use Rattle.std.specs.Prelude.{◌≡◌, ◌^◌, ℕ, ℤ, pos};
ghost use Rattle.spec_intervals.specs.Interval.{interval, zero_interval, cosine_exponent};
ghost use Rattle.spec_intervals.specs.Fraction.{fraction};
ghost use Rattle.spec_intervals.specs.Enclosure.{IsEnclosure, AllFractions, IsSpan, AllWithin, triple};
ghost use Rattle.spec_expressions.specs.declared.vectors.Vector.TheVariants.{Position, Velocity};
ghost use Rattle.spec_expressions.specs.Term.{Leaf, length, cosine, exact_of, enclosure_of, nodes, degree};
ghost use Rattle.spec_expressions.specs.Vectors.{dot};
ghost use Rattle.spec_expressions.specs.ExpressionExamples.{clock, clock_over, half_of};

/// Works out the term of the cosine 1/2: its exact value at time 7, and its enclosure from 0 to 2, whose middle and
/// range are 2^59 units of 2^-60 and whose step is 0 alone. It has one node; a constant length has degree 1.
pub fn a_constant_is_its_decimal_at_each_time()
    ensures exact { exact_of clock (cosine half_of) (pos 7) ≡ fraction (pos 5) 10 }
    ensures enclosed { enclosure_of (clock_over (pos 0) (pos 2)) (pos 0) (pos 2) (cosine half_of)
        ≡ triple (interval (pos (2 ^ 59)) (pos (2 ^ 59)) cosine_exponent)
        (interval (pos (2 ^ 59)) (pos (2 ^ 59)) cosine_exponent) zero_interval }
    ensures size { nodes (cosine half_of) ≡ 1 }
    ensures degree { degree (length half_of) ≡ 1 }
{}

/// Works out the dot product of the position of target 0 and the velocity of target 1, if each coordinate is the time
/// itself: at time 7 it is 3 * 49 = 147. Its term has 11 nodes, which are 6 leaves, 3 products and 2 sums, and degree
/// 2.
pub fn the_dot_product_of_the_time_is_147_at_7()
    ensures exact { exact_of clock (dot (Position 0) (Velocity 1)) (pos 7) ≡ fraction (pos 147) 1 }
    ensures size { nodes (dot (Position 0) (Velocity 1)) ≡ 11 }
    ensures degree { degree (dot (Position 0) (Velocity 1)) ≡ 2 }
{}

/// States that coordinates that are the time itself (`clock`) are fractions at each time from `a` to `b`, are enclosed
/// by `clock_over`, and have enclosures with exponents of 0, which is within any limit `n`.
pub fn coordinates_that_are_the_time_are_enclosed()
    ensures numbers { (leaf : Leaf) (a b : ℤ) → AllFractions (clock leaf) a b }
    ensures holds { (leaf : Leaf) (a b : ℤ) → IsEnclosure (clock leaf) a b (clock_over a b leaf) }
    ensures within { (n : ℕ) (leaf : Leaf) (a b : ℤ) → IsSpan a b
        → AllWithin n (clock_over a b leaf) }
{}
