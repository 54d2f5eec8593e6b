// Worked values of the definitions of rounding. The calls do nothing when they run.

ghost use Rattle.std.specs.Prelude.{◌≡◌, ◌+◌, ◌^◌, pos};
ghost use Rattle.spec_numbers.specs.Numbers.{minus};
ghost use Rattle.spec_intervals.specs.Fraction.{fraction};
ghost use Rattle.spec_intervals.specs.Interval.{interval, narrow};
ghost use Rattle.spec_models.specs.Ends.{IsCorner, Over, Under, high, low, scale_loss, size, slight};

/// Works out ends as fractions: of -7 to 5 in units of 4 they are -28 and 20, and in units of 1/2 the low end is -7/2.
/// The size, the greater magnitude of both ends, is 28 in units of 4.
pub fn ends_are_numbers_times_units()
    ensures low { low (interval (minus 7) (pos 5) (pos 2)) ≡ fraction (minus 28) 1 }
    ensures high { high (interval (minus 7) (pos 5) (pos 2)) ≡ fraction (pos 20) 1 }
    ensures halves { low (interval (minus 7) (pos 5) (minus 1)) ≡ fraction (minus 7) 2 }
    ensures size { size (interval (minus 7) (pos 5) (pos 2)) ≡ fraction (pos 28) 1 }
{}

/// Works out `Under` and `Over`, which say that a number is at most the second or at least it, but by no more than a
/// distance. 3/4 is under 1 by at most 1/4, not by at most 1/5, and is not over 1; 1 is over 1 by at most 0.
pub fn three_quarters_are_under_one_by_a_quarter()
    ensures under { Under (fraction (pos 1) 4) (fraction (pos 3) 4) (fraction (pos 1) 1) }
    ensures too_far { Under (fraction (pos 1) 5) (fraction (pos 3) 4) (fraction (pos 1) 1) → ⊥ }
    ensures other_side { Over (fraction (pos 1) 4) (fraction (pos 3) 4) (fraction (pos 1) 1) → ⊥ }
    ensures itself { Over (fraction (pos 0) 1) (fraction (pos 1) 1) (fraction (pos 1) 1) }
{}

/// Works out the interval from 1 to 2^62 + 1, which normalizing moves to 0 and 2^62 + 2, one unit outward each.
/// `slight`, a 2^58th of the greater magnitude, allows a little more than 16.
pub fn normalizing_moves_ends_by_less_than_16()
    ensures low { low (narrow (pos 1) (pos (2 ^ 62 + 1)) (pos 0)) ≡ fraction (pos 0) 1 }
    ensures high { high (narrow (pos 1) (pos (2 ^ 62 + 1)) (pos 0))
        ≡ fraction (pos (2 ^ 62 + 2)) 1 }
    ensures slight { slight (size (interval (pos 1) (pos (2 ^ 62 + 1)) (pos 0)))
        ≡ fraction (pos (2 ^ 62 + 1)) (2 ^ 58) }
{}

/// Works out that -70 is the product of two ends of [-3, 5] and [-14, 4]. Scaling [7, 8] by 2 / 4 may lose two units
/// and a 2^58th of the scaled magnitude 4, together (2^61 + 16) / 2^60.
pub fn products_and_scaled_ends_lose_little()
    ensures corner { IsCorner (interval (minus 3) (pos 5) (pos 0))
        (interval (minus 7) (pos 2) (pos 1)) (fraction (minus 70) 1) }
    ensures scale { scale_loss (pos 7) (pos 8) (pos 0) 4
        ≡ fraction (pos (2 ^ 61 + 16)) (2 ^ 60) }
{}
