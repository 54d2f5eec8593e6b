// What is true of intervals at single times, and of the models that cover them: each law is the contract of a function with
// nothing to do. p / q is an argument, from -1 to 1, at which each model is taken.
ghost use Rattle.std.specs.Prelude.{◌≡◌, ℕ, suc, ◌+◌, ◌*◌, ◌^◌, ◌<◌, ◌≤◌, List, ◌∷◌, ℤ, pos, neg_ℤ, ◌+ℤ◌, ◌-ℤ◌, ◌≤ℤ◌, ◌<ℤ◌};
ghost use Rattle.spec_intervals.specs.Fraction.{Fraction, IsFraction, Holds, fraction, fraction_add, fraction_mul};
ghost use Rattle.spec_intervals.specs.Interval.{Interval, interval, sum, difference, product, signed_square, narrow, scale};
ghost use Rattle.spec_chebyshev.specs.declared.ends.Ival62.{Ival62};
ghost use Rattle.spec_chebyshev.specs.Differences.{IsArgument, Within};
ghost use Rattle.spec_chebyshev.specs.Rows.{t_unit, u_unit, t_row, u_row, IsArguments};
ghost use Rattle.spec_models.specs.Ends.{in_units};
ghost use Rattle.spec_ephemeris.specs.Series.{Series};
ghost use Rattle.spec_ephemeris.specs.Granules.{series_at};
ghost use Rattle.spec_motions.specs.Sums.{multiples};
ghost use Rattle.spec_motions.specs.Enclosures.{IsSeries, IsSpanOf, arguments, sum_exponent};
ghost use Rattle.spec_models.specs.Models.{Model, model, constant, Covers, IsNear, bulk, sizes, widened};
ghost use Rattle.spec_expressions.specs.Term.{HasLeaves, Term};
ghost use Rattle.spec_bodies.specs.declared.quantity.Quantity.TheVariants.{Position, Velocity};
ghost use Rattle.spec_bodies.specs.Reading.{AllColumns, IsReadable};
ghost use Rattle.spec_bodies.specs.Views.{Fits, View, coordinate_of, state_enclosure, value_interval};
ghost use Rattle.spec_searches.specs.Search.{enclosure_over};
ghost use Rattle.spec_covers.specs.Points.{point_of, state_point};
ghost use Rattle.spec_covers.specs.Combining.{AddsTo, SubtractsTo, MultipliesTo, SquaresTo, RepeatsTo, OpposesTo, ScalesTo, IsNotNegative, IsNotPositive, greatest, IsUpto, IsEnough, scaled_loss};
ghost use Rattle.spec_covers.specs.Series.{argument_model, argument_unit, double_unit, middle_argument, of_coefficient, of_entry, place, sums, value_sum};

/// States that the range of a formula's enclosure at the single time `t` is the interval that the rules on intervals
/// make of the columns at `t`. Their series may be taken at any time `c` that no border of a granule separates from
/// `t`.
pub fn points()
    ensures { (v : View) (x : Term) (c d t : ℤ) → Fits v c d → c ≤ℤ t → t ≤ℤ d → HasLeaves x
        → (enclosure_over (state_enclosure v) x t t).range ≡ point_of (state_point v c t) x }
{}

/// States that over times from `c` to `d` between which no granule begins the columns of each coordinate can be read,
/// and that what is read at `c` is a valid series for all these times.
pub fn columns_that_fit_are_series()
    ensures readable { (v : View) (c d : ℤ) (target axis : ℕ) → Fits v c d → axis < 3
        → AllColumns (IsReadable v) (coordinate_of v target axis) }
    ensures series { (v : View) (c d : ℤ) (number axis : ℕ) → Fits v c d → IsReadable v number axis
        → IsSeries (series_at v.ephemeris number axis c) }
    ensures spans { (v : View) (c d : ℤ) (number axis : ℕ) → Fits v c d → IsReadable v number axis
        → IsSpanOf (series_at v.ephemeris number axis c) c d }
{}

/// States that the model of a constant covers an interval if its error reaches both ends, and that 0 covers 0 alone in
/// any units. A number that an interval holds is near each model that covers the interval.
pub fn constants_cover_intervals()
    ensures ends { (p q a lo hi s : ℤ) (e : ℕ) → IsArgument p q → Within (lo -ℤ a) (pos e)
        → Within (hi -ℤ a) (pos e) → Covers (constant a e s) p q (interval lo hi s) }
    ensures zero { (p q s t : ℤ) (e : ℕ) → IsArgument p q
        → Covers (constant (pos 0) e s) p q (interval (pos 0) (pos 0) t) }
    ensures held { (m : Model) (p q : ℤ) (x : Interval) (r : Fraction) → IsArgument p q
        → IsFraction r → Covers m p q x → Holds x r → IsNear m p q r }
{}

/// States that a model times `2 / length` is the model scaled by the length, and that a model times `n` is the sum of
/// `n` summands of it.
pub fn products_scale_and_repeat()
    ensures scaled { (m n k : Model) (length : ℕ) → 0 < length → MultipliesTo m n k
        → ((p q : ℤ) → IsArgument p q → IsNear n p q (fraction (pos 2) length))
        → ScalesTo length m k }
    ensures repeated { (m k : Model) (n : ℕ) → MultipliesTo (constant (pos n) 0 (pos 0)) m k
        → RepeatsTo n m k }
{}

/// States that if models cover two intervals at each argument, the model made of them by addition, subtraction,
/// multiplication or signed squaring covers the interval that the rule makes, once widened by `d` units, enough for
/// what the rule rounds.
pub fn operations_are_covered()
    ensures sum { (m n k : Model) (d : ℕ) → AddsTo m n k
        → IsEnough d k (fraction_add (greatest m) (greatest n))
        → (p q : ℤ) (x y : Interval) → IsArgument p q → Covers m p q x → Covers n p q y
        → Covers (widened d k) p q (sum x y) }
    ensures difference { (m n k : Model) (d : ℕ) → SubtractsTo m n k
        → IsEnough d k (fraction_add (greatest m) (greatest n))
        → (p q : ℤ) (x y : Interval) → IsArgument p q → Covers m p q x → Covers n p q y
        → Covers (widened d k) p q (difference x y) }
    ensures product { (m n k : Model) (d : ℕ) → MultipliesTo m n k
        → IsEnough d k (fraction_mul (greatest m) (greatest n))
        → (p q : ℤ) (x y : Interval) → IsArgument p q → Covers m p q x → Covers n p q y
        → Covers (widened d k) p q (product x y) }
    ensures signed_square { (m k : Model) (d : ℕ) → SquaresTo m k
        → IsEnough d k (fraction_mul (greatest m) (greatest m))
        → (p q : ℤ) (x : Interval) → IsArgument p q → Covers m p q x
        → Covers (widened d k) p q (signed_square x) }
{}

/// States that if all numbers near a model have one sign, their signed squares are their squares, or these negated.
/// They have one sign if the first coefficient is, in magnitude, at least the sum of the others and the error.
pub fn signed_squares_are_products()
    ensures not_negative { (m k : Model) → IsNotNegative m → MultipliesTo m m k → SquaresTo m k }
    ensures not_positive { (m w k : Model) → IsNotPositive m → MultipliesTo m m w → OpposesTo w k
        → SquaresTo m k }
    ensures first_above { (x : ℤ) (xs : List ℤ) (e : ℕ) (s : ℤ) → pos (sizes xs + e) ≤ℤ x
        → IsNotNegative (model (x ∷ xs) e s) }
    ensures first_below { (x : ℤ) (xs : List ℤ) (e : ℕ) (s : ℤ) → pos (sizes xs + e) ≤ℤ neg_ℤ x
        → IsNotPositive (model (x ∷ xs) e s) }
{}

/// States which number `d` of units of a model covers a given loss, in whole numbers: a loss of `z` units of another
/// exponent, and what a sum, a product, normalizing or scaling rounds, which is a 2^58th of the models' bulks.
pub fn units_that_are_enough()
    ensures units { (k : Model) (z d a b : ℕ) (t s : ℤ) → s ≡ t +ℤ pos a → k.exponent ≡ t +ℤ pos b
        → z * 2 ^ a ≤ d * 2 ^ b → IsUpto d k (in_units (pos z) s) }
    ensures sum { (m n k : Model) (d a b g : ℕ) (t : ℤ) → m.exponent ≡ t +ℤ pos a
        → n.exponent ≡ t +ℤ pos b → k.exponent ≡ t +ℤ pos g
        → bulk m * 2 ^ a + bulk n * 2 ^ b ≤ d * 2 ^ (58 + g)
        → IsEnough d k (fraction_add (greatest m) (greatest n)) }
    ensures product { (m n k : Model) (d g : ℕ) → k.exponent ≡ m.exponent +ℤ n.exponent +ℤ pos g
        → bulk m * bulk n ≤ d * 2 ^ (58 + g)
        → IsEnough d k (fraction_mul (greatest m) (greatest n)) }
    ensures alone { (m : Model) (d : ℕ) → bulk m ≤ d * 2 ^ 58 → IsEnough d m (greatest m) }
    ensures scaled { (m k : Model) (length d a b : ℕ) (s t : ℤ) → 0 < length → s ≤ℤ k.exponent
        → m.exponent ≡ t +ℤ pos a → k.exponent ≡ t +ℤ pos b
        → 2 * bulk m * 2 ^ a ≤ length * d * 2 ^ (58 + b)
        → IsUpto (2 + d) k (scaled_loss s m length) }
{}

/// States that the argument of a series at a time from `c` to `d` is covered by a line in the place of that time
/// between them, in units of 2^-60 or, doubled, of 2^-59. Place and argument lie between -1 and 1.
pub fn arguments_are_covered()
    ensures place { (c d t : ℤ) → c <ℤ d → c ≤ℤ t → t ≤ℤ d → IsArgument (place c d t) (d -ℤ c) }
    ensures covered { (s : Series) (c d t : ℤ) (unit : ℕ) → IsSeries s → c <ℤ d → c ≤ℤ t → t ≤ℤ d
        → Covers (argument_model unit (middle_argument s c d) (d -ℤ c) s.duration)
        (place c d t) (d -ℤ c) (of_entry unit (arguments s t t)) }
    ensures arguments { (s : Series) (c d t : ℤ) → IsSeries s → IsSpanOf s c d → c ≤ℤ t → t ≤ℤ d
        → IsArguments (arguments s t t) }
{}

/// States what covers the row of T at arguments that a model covers: 1, the argument, and `2 x T_(k+1) - T_k` of the
/// two entries before, widened by one unit of 2^-60 for what is rounded.
pub fn t_rows_are_covered()
    ensures first { (p q : ℤ) (x : Ival62) → IsArgument p q
        → Covers (constant (pos (2 ^ 60)) 0 (neg_ℤ (pos t_unit))) p q
        (of_entry t_unit (t_row x 0)) }
    ensures second { (p q : ℤ) (x : Ival62) (m : Model) → IsArgument p q
        → Covers m p q (of_entry argument_unit x) → Covers m p q (of_entry t_unit (t_row x 1)) }
    ensures next { (m a w b k : Model) (d : ℕ) → MultipliesTo m a w → SubtractsTo w b k
        → IsUpto d k (in_units (pos 1) (neg_ℤ (pos t_unit)))
        → (p q : ℤ) (x : Ival62) (j : ℕ) → IsArgument p q → IsArguments x
        → Covers m p q (of_entry double_unit x)
        → Covers a p q (of_entry t_unit (t_row x (suc j)))
        → Covers b p q (of_entry t_unit (t_row x j))
        → Covers (widened d k) p q (of_entry t_unit (t_row x (suc (suc j)))) }
{}

/// States what covers the row of U at arguments that a model covers: 1, twice the argument, and `2 x U_(k+1) - U_k` of
/// the two entries before, widened by one unit of 2^-50 for what is rounded.
pub fn u_rows_are_covered()
    ensures first { (p q : ℤ) (x : Ival62) → IsArgument p q
        → Covers (constant (pos (2 ^ 50)) 0 (neg_ℤ (pos u_unit))) p q
        (of_entry u_unit (u_row x 0)) }
    ensures second { (m : Model) (d : ℕ) → IsUpto d m (in_units (pos 1) (neg_ℤ (pos u_unit)))
        → (p q : ℤ) (x : Ival62) → IsArgument p q → Covers m p q (of_entry double_unit x)
        → Covers (widened d m) p q (of_entry u_unit (u_row x 1)) }
    ensures next { (m a w b k : Model) (d : ℕ) → MultipliesTo m a w → SubtractsTo w b k
        → IsUpto d k (in_units (pos 1) (neg_ℤ (pos u_unit)))
        → (p q : ℤ) (x : Ival62) (j : ℕ) → IsArgument p q → IsArguments x
        → Covers m p q (of_entry double_unit x)
        → Covers a p q (of_entry u_unit (u_row x (suc j)))
        → Covers b p q (of_entry u_unit (u_row x j))
        → Covers (widened d k) p q (of_entry u_unit (u_row x (suc (suc j)))) }
{}

/// States that models cover a multiple of an entry of a row, and the sum of coefficients times entries, one coefficient
/// more at a time. Nothing is rounded in these.
pub fn sums_are_covered()
    ensures multiple { (m k : Model) (j : ℕ) → RepeatsTo (suc j) m k
        → (p q : ℤ) (unit : ℕ) (row : ℕ → Ival62) → IsArgument p q
        → Covers m p q (of_entry unit (row j))
        → Covers k p q (of_entry unit (multiples row (suc j))) }
    ensures one_more { (m n w rest k : Model) → MultipliesTo m n w → AddsTo w rest k
        → (p q : ℤ) (unit : ℕ) (row : ℕ → Ival62) (j : ℕ) (c : Ival62) (cs : List Ival62)
        → IsArgument p q → Covers m p q (of_coefficient c) → Covers n p q (of_entry unit (row j))
        → Covers rest p q (sums unit row (suc j) cs) → Covers k p q (sums unit row j (c ∷ cs)) }
{}

/// States that a normalized interval is covered by the model that covers the interval, and one scaled by `2 / length`
/// by the scaled model, each widened by as many units as the rounding may lose.
pub fn normalized_and_scaled_intervals_are_covered()
    ensures narrowed { (m : Model) (d : ℕ) → IsEnough d m (greatest m)
        → (p q lo hi s : ℤ) → IsArgument p q → Covers m p q (interval lo hi s)
        → Covers (widened d m) p q (narrow lo hi s) }
    ensures scaled { (m k : Model) (length d : ℕ) (s : ℤ) → 0 < length → ScalesTo length m k
        → IsUpto d k (scaled_loss s m length)
        → (p q lo hi : ℤ) → IsArgument p q → Covers m p q (interval lo hi s)
        → Covers (widened d k) p q (scale lo hi s length) }
{}

/// States that the interval of a position at one time is covered by the model that covers the sum of coefficients times
/// entries, widened for normalizing, and that of a velocity by that model scaled by the duration and widened.
pub fn series_are_covered()
    ensures position { (m : Model) (d : ℕ) → IsEnough d m (greatest m)
        → (p q : ℤ) (s : Series) (t : ℤ) → IsArgument p q → Covers m p q (value_sum Position s t)
        → Covers (widened d m) p q (value_interval Position s t t) }
    ensures velocity { (m k : Model) (s : Series) (d : ℕ) → IsSeries s → ScalesTo s.duration m k
        → IsUpto d k (scaled_loss (sum_exponent u_unit) m s.duration)
        → (p q t : ℤ) → IsArgument p q → Covers m p q (value_sum Velocity s t)
        → Covers (widened d k) p q (value_interval Velocity s t t) }
{}
