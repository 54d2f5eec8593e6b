// Worked values of the definitions of covers. The calls do nothing when they run.

ghost use Rattle.std.specs.Prelude.{◌≡◌, ◌+◌, ◌*◌, ◌^◌, pos, [], ◌∷◌};
ghost use Rattle.spec_numbers.specs.Numbers.{minus};
ghost use Rattle.spec_intervals.specs.Fraction.{fraction};
ghost use Rattle.spec_intervals.specs.Interval.{interval};
ghost use Rattle.spec_ephemeris.specs.Examples.{parabola};
ghost use Rattle.spec_expressions.specs.Term.{Leaf, leaf, product, sum};
ghost use Rattle.spec_bodies.specs.declared.factor.Factor.TheVariants.{MoonShare};
ghost use Rattle.spec_bodies.specs.declared.quantity.Quantity.TheVariants.{Position, Velocity};
ghost use Rattle.spec_bodies.specs.Coordinates.{less, of_column, plus, times};
ghost use Rattle.spec_models.specs.Models.{Covers, model};
ghost use Rattle.spec_covers.specs.Combining.{IsUpto, greatest, scaled_loss};
ghost use Rattle.spec_covers.specs.Points.{coordinate_point, point_of};
ghost use Rattle.spec_covers.specs.Series.{argument_model, middle_argument, place, value_sum};
ghost use Rattle.spec_covers.specs.Examples.{half, line, numbered, two_to_three};

/// Works out what the model `3 + 2 x` with the error 1 covers at x = 1/2, where it is 4: the interval from 3 to 5,
/// since both ends are near it, but not the one from 3 to 6.
pub fn a_model_covers_intervals_within_its_error()
    ensures both_ends { Covers line (pos 1) (pos 2) (interval (pos 3) (pos 5) (pos 0)) }
    ensures past { Covers line (pos 1) (pos 2) (interval (pos 3) (pos 6) (pos 0)) → ⊥ }
{}

/// Works out sizes of the model `3 + 2 x` with the error 1: its numbers are at most 6, and 5/2 is at most 3 of its
/// units, not 2. Scaled by 2/4 and rounded to units of 1 its numbers lose at most (2^61 + 12) / 2^60, two units and a
/// 2^58th of 3.
pub fn units_of_a_model_bound_its_numbers()
    ensures greatest { greatest line ≡ fraction (pos 6) 1 }
    ensures three { IsUpto 3 line (fraction (pos 5) 2) }
    ensures two { IsUpto 2 line (fraction (pos 5) 2) → ⊥ }
    ensures scaled { scaled_loss (pos 0) line 4 ≡ fraction (pos (2 ^ 61 + 12)) (2 ^ 60) }
{}

/// Works out intervals at a single time: `x + x x` for x from 2 to 3 is from 6 to 12. Coordinates come from columns 4,
/// which is from 4 to 5, and 1, from 1 to 2: their sum, their difference, and half of column 4, which is the factor
/// here.
pub fn intervals_at_one_time_follow_the_rules()
    ensures term { (x : Leaf) → point_of two_to_three (sum (leaf x) (product (leaf x) (leaf x)))
        ≡ interval (pos 6) (pos 12) (pos 0) }
    ensures plus { coordinate_point numbered half (plus (of_column 4 0) (of_column 1 0))
        ≡ interval (pos 5) (pos 7) (pos 0) }
    ensures less { coordinate_point numbered half (less (of_column 4 0) (of_column 1 0))
        ≡ interval (pos 2) (pos 4) (pos 0) }
    ensures times { coordinate_point numbered half (times MoonShare (of_column 4 0))
        ≡ interval (pos (2 ^ 61)) (pos (5 * 2 ^ 59)) (minus 60) }
{}

/// Works out the series T_0 + 2 T_1 + 3 T_2 over the times 100 to 110. Time 105 stands at -4/6 between 104 and 110,
/// whose middle has the argument 4/10; at 105, argument 0, the sum is -2 and that of the derivatives 2. 3/8 and 4/8 are
/// exact in units of 2^-60.
pub fn sums_of_a_series_are_exact_at_argument_0()
    ensures place { place (pos 104) (pos 110) (pos 105) ≡ minus 4 }
    ensures middle { middle_argument parabola (pos 104) (pos 110) ≡ pos 4 }
    ensures argument { argument_model 60 (pos 3) (pos 4) 8
        ≡ model (pos (3 * 2 ^ 57) ∷ pos (2 ^ 59) ∷ []) 3 (minus 60) }
    ensures position { value_sum Position parabola (pos 105)
        ≡ interval (minus (2 ^ 85)) (minus (2 ^ 85)) (minus 84) }
    ensures velocity { value_sum Velocity parabola (pos 105)
        ≡ interval (pos (2 ^ 75)) (pos (2 ^ 75)) (minus 74) }
{}
