// Laws of enclosures, whatever is enclosed. Each is the contract of a function that does nothing.

ghost use Rattle.std.specs.Prelude.{◌≡◌, ℕ, ◌+◌, ◌≤ℤ◌, ◌<ℤ◌, ℤ, pos, ◌-ℤ◌};
ghost use Rattle.spec_numbers.specs.Numbers.{minus};
ghost use Rattle.spec_intervals.specs.Interval.{Interval, interval, zero_interval, narrow};
ghost use Rattle.spec_intervals.specs.Fraction.{Fraction, IsFraction, Holds, fraction, fraction_add, fraction_sub, fraction_mul, fraction_signed_square};
ghost use Rattle.spec_intervals.specs.Enclosure.{Enclosure, triple, IsEnclosure, PartsHold, AllFractions, IsSpan, AllWithin, middle, offsets, change, centred, enclosure, constant_of, sum_of, difference_of, product_of, signed_square_of};
ghost use Rattle.spec_intervals.specs.Examples.{before_zero, square_before_zero};

/// States that an interval `mid` of the value at the middle of `[a, b]`, and `step` of each change to the next time,
/// make the `centred` interval, which holds each value. With `plain`, which holds each value too, they make an
/// enclosure: its range is what `plain` and `centred` share.
pub fn parts_make_enclosures()
    ensures centred { (f : ℤ → Fraction) (a b : ℤ) → AllFractions f a b → a ≤ℤ b
        → (mid step : Interval) → Holds mid (f (middle a b))
        → ((t : ℤ) → a ≤ℤ t → t <ℤ b → Holds step (change f t)) → (t : ℤ) → a ≤ℤ t → t ≤ℤ b
        → Holds (centred a b mid step) (f t) }
    ensures enclosure { (f : ℤ → Fraction) (a b : ℤ) → AllFractions f a b → a ≤ℤ b
        → (mid plain step : Interval) → PartsHold f a b mid plain step
        → IsEnclosure f a b (enclosure a b mid plain step) }
{}

/// States that each rule on enclosures over `[a, b]`, for constants, sums, differences, products and signed squares
/// `f |f|`, encloses the exact result for all functions that its operands enclose.
pub fn rules_enclose_exact_results()
    ensures constant { (a b : ℤ) → a ≤ℤ b → (r : Fraction) → IsFraction r → (c : Interval)
        → Holds c r → IsEnclosure (λ t. r) a b (constant_of a b c) }
    ensures sum { (a b : ℤ) → a ≤ℤ b → (f g : ℤ → Fraction) → AllFractions f a b
        → AllFractions g a b → (x y : Enclosure) → IsEnclosure f a b x → IsEnclosure g a b y
        → IsEnclosure (λ t. fraction_add (f t) (g t)) a b (sum_of a b x y) }
    ensures difference { (a b : ℤ) → a ≤ℤ b → (f g : ℤ → Fraction) → AllFractions f a b
        → AllFractions g a b → (x y : Enclosure) → IsEnclosure f a b x → IsEnclosure g a b y
        → IsEnclosure (λ t. fraction_sub (f t) (g t)) a b (difference_of a b x y) }
    ensures product { (a b : ℤ) → a ≤ℤ b → (f g : ℤ → Fraction) → AllFractions f a b
        → AllFractions g a b → (x y : Enclosure) → IsEnclosure f a b x → IsEnclosure g a b y
        → IsEnclosure (λ t. fraction_mul (f t) (g t)) a b (product_of a b x y) }
    ensures signed_square { (a b : ℤ) → a ≤ℤ b → (f : ℤ → Fraction) → AllFractions f a b
        → (x : Enclosure) → IsEnclosure f a b x
        → IsEnclosure (λ t. fraction_signed_square (f t)) a b (signed_square_of a b x) }
{}

/// States how far rules on enclosures move exponents: from at most `n` in magnitude, a sum brings them to at most
/// `n + 64`, a product to at most `2 n + 189`. The offsets of both ends of a span from its middle need no rounding.
pub fn exponents_are_bounded()
    ensures sum { (a b : ℤ) → IsSpan a b → (n : ℕ) (x y : Enclosure) → AllWithin n x → AllWithin n y
        → AllWithin (n + 64) (sum_of a b x y) }
    ensures product { (a b : ℤ) → IsSpan a b → (n : ℕ) (x y : Enclosure) → AllWithin n x
        → AllWithin n y → AllWithin (n + n + 189) (product_of a b x y) }
    ensures offsets { (a b : ℤ) → IsSpan a b
        → narrow (a -ℤ middle a b) (b -ℤ middle a b) (pos 0) ≡ offsets a b }
{}

/// Works out middles of spans: that of [-3, -1] is -2, that of [-3, 4] is 0, and that of [-4, 1] is -2, since halves
/// are rounded down. The offsets of [-3, 4] from its middle reach from -3 to 4.
pub fn middles_of_spans_are_rounded_down()
    ensures even { middle (minus 3) (minus 1) ≡ minus 2 }
    ensures odd { middle (minus 3) (pos 4) ≡ pos 0 }
    ensures below_zero { middle (minus 4) (pos 1) ≡ minus 2 }
    ensures offsets { offsets (minus 3) (pos 4) ≡ interval (minus 3) (pos 4) (pos 0) }
{}

/// Works out enclosures of `t + t`, `t - t` and `t t` for the time `t` from -3 to -1, each as the triple of the value
/// in the middle, all values and all changes. At the single time -2 the square is 4 and has no change.
pub fn rules_enclose_the_time_before_zero()
    ensures sum { sum_of (minus 3) (minus 1) before_zero before_zero ≡ triple
        (interval (minus 4) (minus 4) (pos 0)) (interval (minus 6) (minus 2) (pos 0))
        (interval (pos 2) (pos 2) (pos 0)) }
    ensures difference { difference_of (minus 3) (minus 1) before_zero before_zero
        ≡ triple zero_interval zero_interval zero_interval }
    ensures product { product_of (minus 3) (minus 1) before_zero before_zero ≡ triple
        (interval (pos 4) (pos 4) (pos 0)) (interval (pos 1) (pos 9) (pos 0))
        (interval (minus 6) (minus 2) (pos 0)) }
    ensures single_time { product_of (minus 2) (minus 2) before_zero before_zero ≡ triple
        (interval (pos 4) (pos 4) (pos 0)) (interval (pos 4) (pos 4) (pos 0)) zero_interval }
{}

/// Works out the enclosure of the signed square `t |t|` for the time `t` from -3 to -1. Its values -9 and -1 lie in the
/// range, which is [-9, -1]; its changes 5 and 3 lie in the step, which is [0, 6].
pub fn the_signed_square_before_zero_is_enclosed()
    ensures enclosed { square_before_zero ≡ triple
        (interval (minus 4) (minus 4) (pos 0)) (interval (minus 9) (minus 1) (pos 0))
        (interval (pos 0) (pos 6) (pos 0)) }
    ensures first { Holds square_before_zero.range (fraction (minus 9) 1) }
    ensures last { Holds square_before_zero.range (fraction (minus 1) 1) }
    ensures first_change { Holds square_before_zero.step (fraction (pos 5) 1) }
    ensures second_change { Holds square_before_zero.step (fraction (pos 3) 1) }
{}
