// Laws of how far each rule moves the ends, whatever the intervals. Each is the contract of a function that does
// nothing.
ghost use Rattle.std.specs.Prelude.{ℕ, ◌<◌, ◌≤ℤ◌, ℤ};
ghost use Rattle.spec_intervals.specs.Fraction.{fraction_add, fraction_mul, fraction_scale, fraction_signed_square, fraction_sub};
ghost use Rattle.spec_intervals.specs.Interval.{Interval, difference, interval, narrow, product, scale, signed_square, sum};
ghost use Rattle.spec_models.specs.Ends.{IsCornerOver, IsCornerUnder, IsOrdered, Over, Under, high, low, scale_loss, size, slight};

/// States that normalizing moves each end of an interval outward by at most a 2^58th of the greater magnitude of both
/// ends.
pub fn normalizing_moves_ends_little()
    ensures low { (lo hi s : ℤ) → Under (slight (size (interval lo hi s)))
        (low (narrow lo hi s)) (low (interval lo hi s)) }
    ensures high { (lo hi s : ℤ) → Over (slight (size (interval lo hi s)))
        (high (narrow lo hi s)) (high (interval lo hi s)) }
{}

/// States that the ends of a sum of two intervals lie outside the exact sums of their ends, by at most a 2^58th of the
/// sum of both greater magnitudes.
pub fn sums_are_near()
    ensures low { (x y : Interval) → Under (slight (fraction_add (size x) (size y)))
        (low (sum x y)) (fraction_add (low x) (low y)) }
    ensures high { (x y : Interval) → Over (slight (fraction_add (size x) (size y)))
        (high (sum x y)) (fraction_add (high x) (high y)) }
{}

/// States that the ends of a difference of two intervals lie outside the exact differences of opposite ends, by at most
/// a 2^58th of the sum of both greater magnitudes.
pub fn differences_are_near()
    ensures low { (x y : Interval) → Under (slight (fraction_add (size x) (size y)))
        (low (difference x y)) (fraction_sub (low x) (high y)) }
    ensures high { (x y : Interval) → Over (slight (fraction_add (size x) (size y)))
        (high (difference x y)) (fraction_sub (high x) (low y)) }
{}

/// States that each end of a product of two intervals lies outside the exact product of some two of their ends, by at
/// most a 2^58th of the product of both greater magnitudes.
pub fn products_are_near()
    ensures low { (x y : Interval) →
        IsCornerUnder (slight (fraction_mul (size x) (size y))) (product x y) x y }
    ensures high { (x y : Interval) →
        IsCornerOver (slight (fraction_mul (size x) (size y))) (product x y) x y }
{}

/// States that the ends of the signed square `x |x|` of an interval lie outside the exact signed squares of its ends,
/// by at most a 2^58th of the square of the greater magnitude.
pub fn signed_squares_are_near()
    ensures low { (x : Interval) → Under (slight (fraction_mul (size x) (size x)))
        (low (signed_square x)) (fraction_signed_square (low x)) }
    ensures high { (x : Interval) → Over (slight (fraction_mul (size x) (size x)))
        (high (signed_square x)) (fraction_signed_square (high x)) }
{}

/// States that the ends of an interval scaled by `2 / length` lie outside its exactly scaled ends, by at most two units
/// and a 2^58th of the scaled greater magnitude.
pub fn scaling_is_near()
    ensures low { (lo hi s : ℤ) (length : ℕ) → 0 < length
        → Under (scale_loss lo hi s length) (low (scale lo hi s length))
        (fraction_scale (low (interval lo hi s)) length) }
    ensures high { (lo hi s : ℤ) (length : ℕ) → 0 < length
        → Over (scale_loss lo hi s length) (high (scale lo hi s length))
        (fraction_scale (high (interval lo hi s)) length) }
{}

/// States that normalizing, sums, differences, products, signed squares and scaling give intervals whose low end is at
/// most the high end, if the operands are such. Products need not even that.
pub fn ends_stay_in_order()
    ensures narrow { (lo hi s : ℤ) → lo ≤ℤ hi → IsOrdered (narrow lo hi s) }
    ensures sum { (x y : Interval) → IsOrdered x → IsOrdered y → IsOrdered (sum x y) }
    ensures difference { (x y : Interval) → IsOrdered x → IsOrdered y → IsOrdered (difference x y) }
    ensures product { (x y : Interval) → IsOrdered (product x y) }
    ensures signed_square { (x : Interval) → IsOrdered x → IsOrdered (signed_square x) }
    ensures scale { (lo hi s : ℤ) (length : ℕ) → 0 < length → lo ≤ℤ hi
        → IsOrdered (scale lo hi s length) }
{}
