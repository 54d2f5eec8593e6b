// Laws of models, whatever the numbers. Each is the contract of a function that does nothing.
ghost use Rattle.std.specs.Prelude.{◌≡◌, ℕ, suc, ◌+◌, ◌-◌, ◌*◌, ◌^◌, ◌<◌, ◌≤◌, ℤ, pos, ◌+ℤ◌, ◌-ℤ◌, ◌*ℤ◌, ◌≤ℤ◌, neg_ℤ, unsigned_abs, List, [], ◌∷◌, length, take, drop};
ghost use Rattle.spec_numbers.specs.Numbers.{floor_div, power};
ghost use Rattle.spec_chebyshev.specs.Differences.{IsArgument, Within};
ghost use Rattle.spec_intervals.specs.Fraction.{Fraction, IsFraction, fraction, fraction_add, fraction_sub, fraction_mul};
ghost use Rattle.spec_models.specs.Ends.{NoMore, in_units, Under, Over};
ghost use Rattle.spec_models.specs.Models.{Model, model, at, value, IsNear, constant, argument, bulk, coefficient, added, multiplied, opposite, convolved, products_upto, sizes, weighted_sizes, halved, slope, curvature, derivative, raised, lowered, cut, widened, negated, sum_model, difference_model, product_model};

/// States that the product of two lists of coefficients has, at each argument p / q, the product of their values.
/// Values are cleared of fractions: times `q^d` and `q^e` for lists of at most d and e coefficients.
pub fn products_have_the_products_of_values()
    ensures { (p q : ℤ) (d e : ℕ) (xs ys : List ℤ) → length xs ≤ d → length ys ≤ e
        → at p q (d + e) (convolved xs ys) ≡ at p q d xs *ℤ at p q e ys }
{}

/// States bounds of a polynomial at arguments from -1 to 1, by the sum of its coefficients' magnitudes: of its value,
/// of what halving its coefficients k times or leaving out all but the first n changes, and by its slope of its change
/// between arguments.
pub fn polynomials_are_bounded_by_their_coefficients()
    ensures size { (p q : ℤ) (d : ℕ) (xs : List ℤ) → IsArgument p q
        → Within (at p q d xs) (pos (sizes xs) *ℤ power q d) }
    ensures halved { (p q : ℤ) (d k : ℕ) (xs : List ℤ) → IsArgument p q
        → Within (at p q d xs -ℤ pos (2 ^ k) *ℤ at p q d (halved k xs))
        (pos (length xs * 2 ^ k) *ℤ power q d) }
    ensures cut { (p q : ℤ) (d n : ℕ) (xs : List ℤ) → IsArgument p q
        → Within (at p q d xs -ℤ at p q d (take n xs)) (pos (sizes (drop n xs)) *ℤ power q d) }
    ensures slope { (p o q : ℤ) (d : ℕ) (xs : List ℤ) → IsArgument p q → IsArgument o q
        → Within ((at p q d xs -ℤ at o q d xs) *ℤ q)
        (pos (unsigned_abs (p -ℤ o) * slope xs) *ℤ power q d) }
{}

/// States that a number near a model, which is within its error of its polynomial at the argument p / q, stays near it
/// if the error grows, the unit is made coarser (`raised`) or finer (`lowered`), or coefficients after the first n are
/// cut and added to the error.
pub fn changes()
    ensures error { (p q : ℤ) → IsArgument p q → (m : Model) (e : ℕ) (r : Fraction) → m.error ≤ e
        → IsNear m p q r → IsNear (model m.coefficients e m.exponent) p q r }
    ensures raised { (p q : ℤ) → IsArgument p q → (k : ℕ) (m : Model) (r : Fraction)
        → IsNear m p q r → IsNear (raised k m) p q r }
    ensures lowered { (p q : ℤ) → IsArgument p q → (k : ℕ) (m : Model) (r : Fraction)
        → IsNear m p q r → IsNear (lowered k m) p q r }
    ensures cut { (p q : ℤ) → IsArgument p q → (n : ℕ) (m : Model) (r : Fraction)
        → IsNear m p q r → IsNear (cut n m) p q r }
{}

/// States that the negation, sum, difference or product of numbers near models, which are within their errors of their
/// polynomials at p / q, is near the model that the operation makes of them. Sums and differences are of models with
/// one exponent.
pub fn operations()
    ensures negated { (p q : ℤ) → IsArgument p q → (m : Model) (r : Fraction) → IsNear m p q r
        → IsNear (negated m) p q (fraction (neg_ℤ r.numerator) r.denominator) }
    ensures sum { (p q : ℤ) → IsArgument p q → (m n : Model) (r z : Fraction)
        → m.exponent ≡ n.exponent → IsNear m p q r → IsNear n p q z
        → IsNear (sum_model m n) p q (fraction_add r z) }
    ensures difference { (p q : ℤ) → IsArgument p q → (m n : Model) (r z : Fraction)
        → m.exponent ≡ n.exponent → IsNear m p q r → IsNear n p q z
        → IsNear (difference_model m n) p q (fraction_sub r z) }
    ensures product { (p q : ℤ) → IsArgument p q → (m n : Model) (r z : Fraction)
        → IsNear m p q r → IsNear n p q z → IsNear (product_model m n) p q (fraction_mul r z) }
{}

/// States that if a number is near a model, within its error at p / q, its product with an integer `c` is near the
/// model with coefficients times `c` and error times `|c|`, and its product or quotient with `2^k` is near the model
/// with an exponent k greater or less.
pub fn multiples_are_near_multiplied_models()
    ensures whole { (p q : ℤ) → IsArgument p q → (c : ℤ) (m : Model) (r : Fraction) → IsNear m p q r
        → IsNear (model (multiplied c m.coefficients) (unsigned_abs c * m.error) m.exponent)
        p q (fraction (c *ℤ r.numerator) r.denominator) }
    ensures greater { (p q : ℤ) → IsArgument p q → (k : ℕ) (m : Model) (r : Fraction)
        → IsNear m p q r → IsNear (model m.coefficients m.error (m.exponent +ℤ pos k))
        p q (fraction (r.numerator *ℤ pos (2 ^ k)) r.denominator) }
    ensures lesser { (p q : ℤ) → IsArgument p q → (k : ℕ) (m : Model) (r : Fraction)
        → IsNear m p q r → IsNear (model m.coefficients m.error (m.exponent -ℤ pos k))
        p q (fraction r.numerator (r.denominator * 2 ^ k)) }
{}

/// States that a fraction between two numbers near a model, which are within its error of its polynomial at p / q, is
/// near it too, and so is a fraction that is equal to a number near it, with whatever denominator.
pub fn betweens()
    ensures between { (m : Model) (p q : ℤ) (a r b : Fraction) → IsFraction r → NoMore a r
        → NoMore r b → IsNear m p q a → IsNear m p q b → IsNear m p q r }
    ensures same { (m : Model) (p q : ℤ) (a b : Fraction) → IsFraction b
        → a.numerator *ℤ pos b.denominator ≡ b.numerator *ℤ pos a.denominator
        → IsNear m p q a → IsNear m p q b }
{}

/// States that if `r` is near a model, within its error at p / q, then a fraction at most `d` away from `r`, on either
/// side or only below or above, is near the model with an error greater by `e` units, if `d` is at most `e` units.
pub fn widenings()
    ensures around { (m : Model) (p q : ℤ) (e : ℕ) (r z d : Fraction) → IsArgument p q
        → IsFraction z → IsFraction d → NoMore d (in_units (pos e) m.exponent)
        → NoMore (fraction_sub r d) z → NoMore z (fraction_add r d)
        → IsNear m p q r → IsNear (widened e m) p q z }
    ensures under { (m : Model) (p q : ℤ) (e : ℕ) (r z d : Fraction) → IsArgument p q
        → IsFraction z → IsFraction d → NoMore d (in_units (pos e) m.exponent)
        → Under d z r → IsNear m p q r → IsNear (widened e m) p q z }
    ensures over { (m : Model) (p q : ℤ) (e : ℕ) (r z d : Fraction) → IsArgument p q
        → IsFraction z → IsFraction d → NoMore d (in_units (pos e) m.exponent)
        → Over d z r → IsNear m p q r → IsNear (widened e m) p q z }
{}

/// States that a fraction is near the model of the constant `a` with error `e`, in units of 2^s, exactly if it lies
/// from `a - e` to `a + e`; that it is then near the constant `b` with the error `|a - b| + e`; and that the product of
/// two fractions, each near a constant, is near the product of these constants.
pub fn constants()
    ensures near { (p q : ℤ) → IsArgument p q → (a : ℤ) (e : ℕ) (s : ℤ) (r : Fraction)
        → IsFraction r → NoMore (in_units (a -ℤ pos e) s) r → NoMore r (in_units (a +ℤ pos e) s)
        → IsNear (constant a e s) p q r }
    ensures low { (p q : ℤ) → IsArgument p q → (a : ℤ) (e : ℕ) (s : ℤ) (r : Fraction)
        → IsNear (constant a e s) p q r → NoMore (in_units (a -ℤ pos e) s) r }
    ensures high { (p q : ℤ) → IsArgument p q → (a : ℤ) (e : ℕ) (s : ℤ) (r : Fraction)
        → IsNear (constant a e s) p q r → NoMore r (in_units (a +ℤ pos e) s) }
    ensures other { (p q : ℤ) → IsArgument p q → (a b : ℤ) (e : ℕ) (s : ℤ) (r : Fraction)
        → IsNear (constant a e s) p q r
        → IsNear (constant b (unsigned_abs (a -ℤ b) + e) s) p q r }
    ensures product { (p q : ℤ) → IsArgument p q → (a b : ℤ) (e f : ℕ) (s t : ℤ) (r z : Fraction)
        → IsNear (constant a e s) p q r → IsNear (constant b f t) p q z
        → IsNear (constant (a *ℤ b) (unsigned_abs a * f + unsigned_abs b * e + e * f) (s +ℤ t))
        p q (fraction_mul r z) }
{}

/// States that the argument p / q is near its own model, and that if `r` is near a model at p / q, then p / q times `r`
/// is near the model with coefficients moved by one place. `(a + b p) / c` is near `x + y p / q` if `a / c` is near x
/// and `b q / c` near y.
pub fn arguments()
    ensures itself { (p q : ℤ) → IsArgument p q → IsNear argument p q (fraction p (unsigned_abs q)) }
    ensures times { (p q : ℤ) → IsArgument p q → (xs : List ℤ) (e : ℕ) (s : ℤ) (r : Fraction)
        → IsNear (model xs e s) p q r
        → IsNear (model (pos 0 ∷ xs) e s) p q (fraction_mul (fraction p (unsigned_abs q)) r) }
    ensures line { (p q : ℤ) → IsArgument p q → (a b : ℤ) (c : ℕ) (x y : ℤ) (e f : ℕ) (s : ℤ)
        → 0 < c → IsNear (constant x e s) p q (fraction a c)
        → IsNear (constant y f s) p q (fraction (b *ℤ q) c)
        → IsNear (model (x ∷ y ∷ []) (e + f) s) p q (fraction (a +ℤ b *ℤ p) c) }
{}

/// States that a number near a model, at any argument from -1 to 1, is at most the model's bulk in magnitude: the sum
/// of the magnitudes of its coefficients and its error, in its unit.
pub fn numbers_near_a_model_are_at_most_its_bulk()
    ensures above { (p q : ℤ) → IsArgument p q → (m : Model) (r : Fraction) → IsNear m p q r
        → NoMore (in_units (neg_ℤ (pos (bulk m))) m.exponent) r }
    ensures below { (p q : ℤ) → IsArgument p q → (m : Model) (r : Fraction) → IsNear m p q r
        → NoMore r (in_units (pos (bulk m)) m.exponent) }
{}

/// States that a number near a model at the argument p / q is near it at o / q, once its error is widened by e units,
/// if e is at least its slope times `|p - o| / q`.
pub fn models_are_near_at_other_arguments_by_their_slope()
    ensures { (p q : ℤ) → IsArgument p q → (m : Model) (o : ℤ) (e : ℕ) (r : Fraction)
        → IsArgument o q → pos (unsigned_abs (p -ℤ o) * slope m.coefficients) ≤ℤ (pos e *ℤ q)
        → IsNear m p q r → IsNear (widened e m) o q r }
{}

/// States that a polynomial is within half its curvature times the squared distance of its tangent at o / q. So a
/// model, if its derivative there is at most `steepness` units, stays near when widened by what both allow. Shows how
/// curvature adds up.
pub fn models_are_near_at_other_arguments_by_their_curvature()
    ensures tangent { (p o q : ℤ) (d : ℕ) (xs : List ℤ) → length xs ≤ d
        → IsArgument p q → IsArgument o q
        → Within (pos 2 *ℤ ((at p q d xs -ℤ at o q d xs) *ℤ (q *ℤ q)
        -ℤ (p -ℤ o) *ℤ q *ℤ at o q d (derivative xs)))
        (pos (unsigned_abs (p -ℤ o) * unsigned_abs (p -ℤ o) * curvature xs) *ℤ power q d) }
    ensures near { (p q : ℤ) → IsArgument p q → (m : Model) (o : ℤ) (steepness e : ℕ) (r : Fraction)
        → IsArgument o q
        → IsNear (constant (pos 0) steepness m.exponent) o q
        (value (model (derivative m.coefficients) 0 m.exponent) o q)
        → (pos (2 * unsigned_abs (p -ℤ o) * steepness) *ℤ q
        +ℤ pos (unsigned_abs (p -ℤ o) * unsigned_abs (p -ℤ o) * curvature m.coefficients))
        ≤ℤ (pos (2 * e) *ℤ q *ℤ q)
        → IsNear m p q r → IsNear (widened e m) o q r }
    ensures coefficient { (xs : List ℤ) (k : ℕ)
        → coefficient (derivative xs) k ≡ pos (suc k) *ℤ coefficient xs (suc k) }
    ensures take { (xs : List ℤ) (i : ℕ) → curvature (take (suc i) xs)
        ≡ curvature (take i xs) + i * (i - 1) * unsigned_abs (coefficient xs i) }
{}

/// States that the value of a model's polynomial is near the model, and that what is near the model is near a second
/// model of the same unit that its value is near, widened by its error. `none` and `next` compute a value from its last
/// coefficient on.
pub fn values_of_models_are_near_them()
    ensures itself { (p q : ℤ) → IsArgument p q → (m : Model) → IsNear m p q (value m p q) }
    ensures others { (p q : ℤ) → IsArgument p q → (m n : Model) (r : Fraction)
        → n.exponent ≡ m.exponent → IsNear m p q r → IsNear n p q (value m p q)
        → IsNear (widened m.error n) p q r }
    ensures none { (p q : ℤ) → IsArgument p q → (e : ℕ) (s : ℤ)
        → IsNear (constant (pos 0) 0 s) p q (value (model [] e s) p q) }
    ensures next { (p q : ℤ) → IsArgument p q → (n : Model) (a : ℤ) (xs : List ℤ) (e : ℕ) (s : ℤ)
        → IsNear n p q (fraction_add (in_units a s)
        (fraction_mul (fraction p (unsigned_abs q)) (value (model xs e s) p q)))
        → IsNear n p q (value (model (a ∷ xs) e s) p q) }
{}

/// States the rule by which a derivative's value is computed: the derivative of `x + t f(t)` is `f(t) + t f'(t)`. A
/// model that is near the latter at the argument t = p / q is near the derivative of the coefficients `x ∷ xs` there,
/// if `xs` are those of `f`.
pub fn derivatives_of_longer_lists_are_near()
    ensures { (p q : ℤ) → IsArgument p q → (x : ℤ) (xs : List ℤ) (n : Model) (e : ℕ) (s : ℤ)
        → IsNear n p q (fraction_add (value (model xs e s) p q)
        (fraction_mul (fraction p (unsigned_abs q)) (value (model (derivative xs) e s) p q)))
        → IsNear n p q (value (model (derivative (x ∷ xs)) e s) p q) }
{}

/// States which coefficient stands at place k of a sum, a multiple, a negation, a list halved n times, a product, a
/// prefix and a rest of lists of coefficients. Places past the end of a list hold 0.
pub fn operations_on_lists_give_each_coefficient()
    ensures added { (xs ys : List ℤ) (k : ℕ)
        → coefficient (added xs ys) k ≡ coefficient xs k +ℤ coefficient ys k }
    ensures multiplied { (c : ℤ) (xs : List ℤ) (k : ℕ)
        → coefficient (multiplied c xs) k ≡ c *ℤ coefficient xs k }
    ensures opposite { (xs : List ℤ) (k : ℕ)
        → coefficient (opposite xs) k ≡ neg_ℤ (coefficient xs k) }
    ensures halved { (n : ℕ) (xs : List ℤ) (k : ℕ) → k < length xs
        → coefficient (halved n xs) k ≡ floor_div (coefficient xs k) (2 ^ n) }
    ensures convolved { (xs ys : List ℤ) (k : ℕ)
        → coefficient (convolved xs ys) k ≡ products_upto (suc k) k xs ys }
    ensures take { (n : ℕ) (xs : List ℤ) (k : ℕ) → k < n
        → coefficient (take n xs) k ≡ coefficient xs k }
    ensures drop { (n : ℕ) (xs : List ℤ) (k : ℕ)
        → coefficient (drop n xs) k ≡ coefficient xs (n + k) }
{}

/// States how long sums, multiples, negations, halved lists and products of lists of coefficients are; that lists of
/// one length with equal coefficients are equal; and that models with equal coefficients, error and exponent have the
/// same numbers near them.
pub fn lists()
    ensures added { (xs ys : List ℤ) (d : ℕ) → length xs ≤ d → length ys ≤ d
        → length (added xs ys) ≤ d }
    ensures even { (xs ys : List ℤ) → length xs ≡ length ys
        → length (added xs ys) ≡ length xs }
    ensures multiplied { (c : ℤ) (xs : List ℤ) → length (multiplied c xs) ≡ length xs }
    ensures opposite { (xs : List ℤ) → length (opposite xs) ≡ length xs }
    ensures halved { (n : ℕ) (xs : List ℤ) → length (halved n xs) ≡ length xs }
    ensures convolved { (xs ys : List ℤ) → length (convolved xs ys) ≤ length xs + length ys }
    ensures longer { (xs ys : List ℤ) → length xs ≤ length (convolved xs ys) }
    ensures same { (xs ys : List ℤ) → length xs ≡ length ys
        → ((k : ℕ) → k < length xs → coefficient xs k ≡ coefficient ys k) → xs ≡ ys }
    ensures near { (p q : ℤ) → IsArgument p q → (m : Model) (ys : List ℤ) (r : Fraction)
        → ((k : ℕ) → coefficient m.coefficients k ≡ coefficient ys k)
        → IsNear m p q r → IsNear (model ys m.error m.exponent) p q r }
{}

/// States how the sum of the magnitudes of coefficients grows by one coefficient more, in a prefix and in the rest
/// after it, that prefix and rest make up the whole sum, and how the sum of magnitudes times places grows.
pub fn sums_of_magnitudes_grow_by_one_coefficient()
    ensures take { (xs : List ℤ) (i : ℕ)
        → sizes (take (suc i) xs) ≡ sizes (take i xs) + unsigned_abs (coefficient xs i) }
    ensures drop { (xs : List ℤ) (i : ℕ)
        → sizes (drop i xs) ≡ unsigned_abs (coefficient xs i) + sizes (drop (suc i) xs) }
    ensures parts { (xs : List ℤ) (i : ℕ) → sizes (take i xs) + sizes (drop i xs) ≡ sizes xs }
    ensures weighted { (n : ℕ) (xs : List ℤ) (i : ℕ) → weighted_sizes n (take (suc i) xs)
        ≡ weighted_sizes n (take i xs) + (n + i) * unsigned_abs (coefficient xs i) }
{}
