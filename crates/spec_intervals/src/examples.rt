// Worked values of each definition, by computation. The calls do nothing when they run.

ghost use Rattle.std.specs.Prelude.{◌≡◌, ◌+◌, ◌^◌, pos};
ghost use Rattle.spec_intervals.specs.Interval.{interval, zero_interval, narrow, sum, difference, product, join, meet, signed_square, scale, from_decimal, distance_exponent, cosine_exponent};
ghost use Rattle.spec_numbers.specs.Numbers.{minus, floor_div, ceil_div};
ghost use Rattle.spec_intervals.specs.Fraction.{Holds, fraction, fraction_add, fraction_signed_square, fraction_scale, decimal};
ghost use Rattle.spec_intervals.specs.Signs.{sign_of};
ghost use Rattle.spec_intervals.specs.declared.signs.Sign.TheVariants.{Yes, No, Open};

/// Works out rounded quotients: 7 / 2 is 3 rounded down and 4 rounded up; -7 / 2 is -4 rounded down and -3 rounded up.
/// Low ends of intervals are rounded down, high ends up.
pub fn quotients_are_rounded_outward()
    ensures seven_down { floor_div (pos 7) 2 ≡ pos 3 }
    ensures seven_up { ceil_div (pos 7) 2 ≡ pos 4 }
    ensures below_zero_down { floor_div (minus 7) 2 ≡ minus 4 }
    ensures below_zero_up { ceil_div (minus 7) 2 ≡ minus 3 }
{}

/// Works out normalized intervals `lo 2^s` to `hi 2^s`. An end of exactly 2^62 stays; one past it is halved together
/// with the other end, as often as is needed, each time with an `s` greater by 1. The interval of 0 alone gets the
/// exponent 0.
pub fn ends_past_2_62_are_halved()
    ensures at_limit { narrow (pos (2 ^ 62)) (pos (2 ^ 62)) (pos 3)
        ≡ interval (pos (2 ^ 62)) (pos (2 ^ 62)) (pos 3) }
    ensures one_past { narrow (pos 1) (pos (2 ^ 62 + 1)) (pos 39)
        ≡ interval (pos 0) (pos (2 ^ 61 + 1)) (pos 40) }
    ensures both_past { narrow (minus (2 ^ 63)) (pos (2 ^ 63 + 1)) (pos 5)
        ≡ interval (minus (2 ^ 61)) (pos (2 ^ 61 + 1)) (pos 7) }
    ensures zero_has_exponent_zero { narrow (pos 0) (pos 0) (pos 9) ≡ zero_interval }
{}

/// Works out sums of two intervals with exponents 0 and 4, 60 or 61. Up to a distance of 60 the interval with the
/// greater exponent is multiplied; past it the other one is divided, here by 2. Added to 0 alone, an interval stays.
pub fn sums_of_distant_intervals_are_rounded_outward()
    ensures near { sum (interval (minus 3) (pos 5) (pos 0)) (interval (pos 1) (pos 2) (pos 4))
        ≡ interval (pos 13) (pos 37) (pos 0) }
    ensures distance_60 { sum (interval (pos 3) (pos 5) (pos 0)) (interval (pos 1) (pos 2) (pos 60))
        ≡ interval (pos (2 ^ 60 + 3)) (pos (2 ^ 61 + 5)) (pos 0) }
    ensures distance_61 { sum (interval (pos 3) (pos 5) (pos 0)) (interval (pos 1) (pos 2) (pos 61))
        ≡ interval (pos (2 ^ 60 + 1)) (pos (2 ^ 61 + 3)) (pos 1) }
    ensures zero_first { sum (interval (pos 0) (pos 0) distance_exponent)
        (interval (pos 1) (pos 2) (pos 4)) ≡ interval (pos 1) (pos 2) (pos 4) }
{}

/// Works out products of intervals: [-3, 5] times [-14, 4] is [-70, 42], whose least number is 5 times -14 and whose
/// greatest is -3 times -14. Any interval times 0 alone is 0 alone.
pub fn products_of_intervals_end_at_corner_products()
    ensures unlike_signs { product (interval (minus 3) (pos 5) (pos 0))
        (interval (minus 7) (pos 2) (pos 1)) ≡ interval (minus 35) (pos 21) (pos 1) }
    ensures by_zero { product zero_interval (interval (pos 4) (pos 5) (pos 6)) ≡ zero_interval }
{}

/// Works out differences of intervals: [-3, 5] less [16, 32] is [-35, -11], 0 alone less [16, 32] is [-32, -16], and
/// [16, 32] less 0 alone stays.
pub fn differences_of_intervals_negate_the_second()
    ensures near { difference (interval (minus 3) (pos 5) (pos 0))
        (interval (pos 1) (pos 2) (pos 4)) ≡ interval (minus 35) (minus 11) (pos 0) }
    ensures from_zero { difference zero_interval (interval (pos 1) (pos 2) (pos 4))
        ≡ interval (minus 2) (minus 1) (pos 4) }
    ensures zero_off { difference (interval (pos 1) (pos 2) (pos 4))
        (interval (pos 0) (pos 0) distance_exponent) ≡ interval (pos 1) (pos 2) (pos 4) }
{}

/// Works out hulls (`join`) and intersections (`meet`): of [1, 2] and [-2, 2] the hull is [-2, 2]; of [1, 9] and [4,
/// 12] the intersection is [4, 9]. At exponents 61 apart the ends are rounded outward. Two intervals that meet at 4
/// have 4 alone in common.
pub fn hulls_and_intersections_are_rounded_outward()
    ensures join { join (interval (pos 1) (pos 2) (pos 0)) (interval (minus 1) (pos 1) (pos 1))
        ≡ interval (minus 2) (pos 2) (pos 0) }
    ensures join_at_61 { join (interval (pos 3) (pos 5) (pos 0)) (interval (pos 1) (pos 1) (pos 61))
        ≡ interval (pos 1) (pos (2 ^ 60)) (pos 1) }
    ensures meet { meet (interval (pos 1) (pos 9) (pos 0)) (interval (pos 2) (pos 6) (pos 1))
        ≡ interval (pos 4) (pos 9) (pos 0) }
    ensures meet_at_one_number { meet (interval (pos 4) (pos 4) (pos 0))
        (interval (pos 1) (pos 1) (pos 2)) ≡ interval (pos 4) (pos 4) (pos 0) }
{}

/// Works out signed squares `r |r|`, which keep the sign of `r`: from -3/2 to 5/2 they reach from -9/4 to 25/4.
pub fn signed_squares_keep_signs()
    ensures both_signs { signed_square (interval (minus 3) (pos 5) (minus 1))
        ≡ interval (minus 9) (pos 25) (minus 2) }
    ensures fraction { fraction_signed_square (fraction (minus 3) 2) ≡ fraction (minus 9) 4 }
{}

/// Works out intervals times 2 / 4: [7, 8] becomes [3, 4], its low end 3.5 rounded down, and -7 alone becomes [-4, -3],
/// its value -3.5 rounded both ways. The fraction 7 becomes exactly 14/4.
pub fn scaled_ends_are_rounded_outward()
    ensures above { scale (pos 7) (pos 8) (pos 0) 4 ≡ interval (pos 3) (pos 4) (pos 0) }
    ensures below { scale (minus 7) (minus 7) (pos 0) 4 ≡ interval (minus 4) (minus 3) (pos 0) }
    ensures fraction { fraction_scale (fraction (pos 7) 1) 4 ≡ fraction (pos 14) 4 }
{}

/// Works out intervals of decimals, at the exponent -24 of distances and -60 of cosines. 81 and 1/2 are exact there,
/// -0.1 lies between two whole numbers of units, and 0 keeps the exponent that is asked for.
pub fn decimals_lie_in_their_intervals()
    ensures minus_tenth { from_decimal (minus 1) (minus 1) distance_exponent
        ≡ interval (minus 1677722) (minus 1677721) distance_exponent }
    ensures whole { from_decimal (pos 81) (pos 0) distance_exponent
        ≡ interval (pos 1358954496) (pos 1358954496) distance_exponent }
    ensures zero { from_decimal (pos 0) (pos 0) distance_exponent
        ≡ interval (pos 0) (pos 0) distance_exponent }
    ensures half { from_decimal (pos 5) (minus 1) cosine_exponent
        ≡ interval (pos (2 ^ 59)) (pos (2 ^ 59)) cosine_exponent }
{}

/// Works out that the interval from 1/2 to 3/2 holds 1 and its end 3/2, but not 2. As fractions, 1/2 and 1/3 are 5/6,
/// and the decimal 1382400 * 10^-2 is 1382400/100.
pub fn intervals_hold_fractions_up_to_their_ends()
    ensures one { Holds (interval (pos 1) (pos 3) (minus 1)) (fraction (pos 1) 1) }
    ensures end { Holds (interval (pos 1) (pos 3) (minus 1)) (fraction (pos 3) 2) }
    ensures not_two { Holds (interval (pos 1) (pos 3) (minus 1)) (fraction (pos 2) 1) → ⊥ }
    ensures sum { fraction_add (fraction (pos 1) 2) (fraction (pos 1) 3) ≡ fraction (pos 5) 6 }
    ensures decimal { decimal (pos 1382400) (minus 2) ≡ fraction (pos 1382400) 100 }
{}

/// Works out signs of intervals, which say whether all numbers are at least 0: `Yes` for [0, 4] and for 0 alone, `No`
/// for [-2, -1], and `Open` for [-1, 0], whose numbers differ in it.
pub fn signs_of_intervals_are_yes_no_or_open()
    ensures from_zero { sign_of (interval (pos 0) (pos 4) (pos 0)) ≡ Yes }
    ensures zero { sign_of zero_interval ≡ Yes }
    ensures to_zero { sign_of (interval (minus 1) (pos 0) (pos 0)) ≡ Open }
    ensures below_zero { sign_of (interval (minus 2) (minus 1) (pos 0)) ≡ No }
{}
