// Laws of inclusion, whatever the intervals. Each is the contract of a function that does nothing.
ghost use Rattle.std.specs.Prelude.{◌≤ℤ◌, ◌<ℤ◌, ℤ, pos, ◌-ℤ◌};
ghost use Rattle.spec_intervals.specs.Fraction.{Fraction, Overlaps};
ghost use Rattle.spec_intervals.specs.Interval.{Interval, lift_limit, narrow, product, sum, negated, difference, signed_square, meet};
ghost use Rattle.spec_intervals.specs.Enclosure.{AllFractions, PartsHold, offsets, twice_size, enclosure};
ghost use Rattle.spec_models.specs.Inclusion.{Includes};
ghost use Rattle.spec_models.specs.Bounds.{IncludesEnclosure, coarsened, coarse_sum, coarse_difference, bound};

/// States that an interval includes itself, and that an outer interval `y` still includes an inner `x` after `y` is
/// normalized, after both are, and after `y` is brought to a coarser unit `2^s`.
pub fn rounding_keeps_inclusion()
    ensures itself { (x : Interval) → Includes x x }
    ensures narrowed { (y x : Interval) → x.lo ≤ℤ x.hi → Includes y x
        → Includes (narrow y.lo y.hi y.s) x }
    ensures both_narrowed { (y x : Interval) → x.lo ≤ℤ x.hi → Includes y x
        → Includes (narrow y.lo y.hi y.s) (narrow x.lo x.hi x.s) }
    ensures coarsened { (s : ℤ) (y x : Interval) → x.lo ≤ℤ x.hi → Includes y x
        → Includes (coarsened s y) x }
{}

/// States that the sum, the difference and the product of outer intervals `p` and `q` include those of intervals `x`
/// and `y` that they include. Outer sums and differences are formed in the coarser unit of both.
pub fn operations_keep_inclusion()
    ensures sum { (p q x y : Interval) → x.lo ≤ℤ x.hi → y.lo ≤ℤ y.hi
        → Includes p x → Includes q y → Includes (coarse_sum p q) (sum x y) }
    ensures difference { (p q x y : Interval) → x.lo ≤ℤ x.hi → y.lo ≤ℤ y.hi
        → Includes p x → Includes q y → Includes (coarse_difference p q) (difference x y) }
    ensures product { (p q x y : Interval) → x.lo ≤ℤ x.hi → y.lo ≤ℤ y.hi
        → Includes p x → Includes q y → Includes (product p q) (product x y) }
{}

/// States that the negation, the signed square `x |x|` and twice the magnitude of an outer interval include those of an
/// interval that it includes.
pub fn functions_keep_inclusion()
    ensures negated { (y x : Interval) → Includes y x → Includes (negated y) (negated x) }
    ensures signed_square { (y x : Interval) → x.lo ≤ℤ x.hi → Includes y x
        → Includes (signed_square y) (signed_square x) }
    ensures twice_size { (y x : Interval) → x.lo ≤ℤ x.hi → Includes y x
        → Includes (twice_size y) (twice_size x) }
{}

/// States that the offsets of the ends of a span `[c, d]` from its middle include the offsets of every span `[a, b]`
/// within it.
pub fn offsets_include_those_of_inner_spans()
    ensures { (a b c d : ℤ) → c ≤ℤ a → a ≤ℤ b → b ≤ℤ d
        → Includes (offsets c d) (offsets a b) }
{}

/// States that an interval that includes a plain range includes, once it is coarsened, its intersection with a centred
/// range too, which may have a coarser unit. The unit is then 2^60 below that of an interval that includes the centred
/// range.
pub fn intersections_are_included()
    ensures { (plain centred y z : Interval) → Overlaps plain centred → Includes y plain → Includes z centred
        → Includes (coarsened (z.s -ℤ pos lift_limit) y) (meet plain centred) }
{}

/// States that if an interval is at least 0, at most 0 or below 0, so is each interval that it includes.
pub fn signs_are_included()
    ensures not_negative { (y x : Interval) → Includes y x → pos 0 ≤ℤ y.lo → pos 0 ≤ℤ x.lo }
    ensures not_positive { (y x : Interval) → Includes y x → y.hi ≤ℤ pos 0 → x.hi ≤ℤ pos 0 }
    ensures negative { (y x : Interval) → Includes y x → y.hi <ℤ pos 0 → x.hi <ℤ pos 0 }
{}

/// States that a bound over `[c, d]` made of a `range` and a `change` includes the enclosure over each span `[a, b]`
/// within it, if `range` includes the value in the middle and the plain range of that span, and `change` its step.
pub fn bounds_include_enclosures()
    ensures { (f : ℤ → Fraction) (a b c d : ℤ) → c ≤ℤ a → a <ℤ b → b ≤ℤ d
        → AllFractions f a b → (mid plain step range change : Interval)
        → PartsHold f a b mid plain step → Includes range mid → Includes range plain
        → Includes change step
        → IncludesEnclosure (bound c d range change) (enclosure a b mid plain step) }
{}
