// Laws of the rules on intervals, whatever the numbers. Each is the contract of a function that does nothing.

ghost use Rattle.std.specs.Prelude.{◌≡◌, ℕ, ◌<◌, ◌≤ℤ◌, ◌<ℤ◌, ℤ, pos, true, false};
ghost use Rattle.spec_intervals.specs.Interval.{Interval, IsIval, interval, fits_after, narrow_shift, narrow, sum, difference, product, join, meet, signed_square, scale, from_decimal, distance_exponent, cosine_exponent, IsDistance, IsCosine};
ghost use Rattle.spec_intervals.specs.Fraction.{Fraction, IsFraction, Holds, fraction_add, fraction_sub, fraction_mul, fraction_signed_square, fraction_scale, decimal};
ghost use Rattle.spec_intervals.specs.Signs.{sign_of};
ghost use Rattle.spec_intervals.specs.declared.signs.Sign.TheVariants.{Yes, No};

/// States that `narrow_shift`, by which normalizing halves both ends of an interval, brings their magnitudes to at most
/// 2^62, and that no lesser shift does.
pub fn normalizing_shifts_are_least()
    ensures enough { (lo hi : ℤ) → fits_after (narrow_shift lo hi) lo hi ≡ true }
    ensures none_less { (lo hi : ℤ) (k : ℕ) → k < narrow_shift lo hi → fits_after k lo hi ≡ false }
{}

/// States that normalizing an interval keeps every number that it holds, and, if its ends are in order, gives ends in
/// order of at most 2^62 in magnitude.
pub fn normalizing_keeps_numbers()
    ensures holds { (lo hi s : ℤ) (r : Fraction) → Holds (interval lo hi s) r
        → Holds (narrow lo hi s) r }
    ensures is_ival { (lo hi s : ℤ) → lo ≤ℤ hi → IsIval (narrow lo hi s) }
{}

/// States that the sum of two intervals holds the sum of any two fractions of which each interval holds one.
pub fn sums_hold_sums()
    ensures { (x y : Interval) (r t : Fraction) → Holds x r → Holds y t
        → Holds (sum x y) (fraction_add r t) }
{}

/// States that the product of two intervals holds the product of any two fractions of which each interval holds one.
pub fn products_hold_products()
    ensures { (x y : Interval) (r t : Fraction) → Holds x r → Holds y t
        → Holds (product x y) (fraction_mul r t) }
{}

/// States that the difference of two intervals holds the difference of any two fractions, the first held by the first
/// interval and the second by the second.
pub fn differences_hold_differences()
    ensures { (x y : Interval) (r t : Fraction) → Holds x r → Holds y t
        → Holds (difference x y) (fraction_sub r t) }
{}

/// States that the hull of two intervals (`join`) holds every fraction that the first or the second holds.
pub fn hulls_hold_both_intervals()
    ensures first { (x y : Interval) (r : Fraction) → Holds x r → Holds (join x y) r }
    ensures second { (x y : Interval) (r : Fraction) → Holds y r → Holds (join x y) r }
{}

/// States that the intersection of two intervals (`meet`) holds every fraction that both hold.
pub fn intersections_hold_common_numbers()
    ensures { (x y : Interval) (r : Fraction) → Holds x r → Holds y r → Holds (meet x y) r }
{}

/// States that the signed square of an interval holds the signed square `r |r|` of every fraction `r` that the interval
/// holds.
pub fn signed_squares_hold_signed_squares()
    ensures { (x : Interval) (r : Fraction) → Holds x r
        → Holds (signed_square x) (fraction_signed_square r) }
{}

/// States that an interval scaled by `2 / length`, for a `length` above 0, holds `2 r / length` for every fraction `r`
/// that the interval holds.
pub fn scaled_intervals_hold_scaled_numbers()
    ensures { (lo hi s : ℤ) (length : ℕ) (r : Fraction) → 0 < length → Holds (interval lo hi s) r
        → Holds (scale lo hi s length) (fraction_scale r length) }
{}

/// States that the interval made of the decimal `m 10^q` holds that decimal exactly, at any exponent `s`.
pub fn intervals_of_decimals_hold_them()
    ensures { (m q s : ℤ) → Holds (from_decimal m q s) (decimal m q) }
{}

/// States that the interval of a length below 2^36 km at the exponent -24, or of a cosine at most 1 in magnitude at the
/// exponent -60, is a valid one: its ends are in order and at most 2^62 in magnitude.
pub fn intervals_of_decimals_fit()
    ensures distance { (m q : ℤ) → IsDistance m q → IsIval (from_decimal m q distance_exponent) }
    ensures cosine { (m q : ℤ) → IsCosine m q → IsIval (from_decimal m q cosine_exponent) }
{}

/// States that if the sign of an interval is `Yes`, every fraction that it holds is at least 0, and if it is `No`,
/// every one is below 0. `Open` says nothing.
pub fn signs_hold_for_all_numbers()
    ensures yes { (x : Interval) (r : Fraction) → sign_of x ≡ Yes → Holds x r
        → pos 0 ≤ℤ r.numerator }
    ensures no { (x : Interval) (r : Fraction) → sign_of x ≡ No → IsFraction r → Holds x r
        → r.numerator <ℤ pos 0 }
{}
