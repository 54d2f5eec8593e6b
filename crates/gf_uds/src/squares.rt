// The numbers that bound a quadratic polynomial, over times of at most 2^40 in magnitude.
ghost use Rattle.std.specs.Prelude.{◌≡◌, ◌≤◌, ◌^◌, ◌&&◌, ◌+ℤ◌, ◌*ℤ◌, int_le, pos, unsigned_abs};
ghost use Rattle.spec_scalars.specs.declared.limits.TheConstants.{MAX_FACTOR, MAX_TIME};
ghost use Rattle.spec_scalars.specs.Quads.{greatest_square, least_square};
ghost use Rattle.gf_uds.specs.Bounds.{outer};

// Multiplies a factor p or q of a polynomial by a time or by the square of one. The product is at most 2^100 in
// magnitude, so 128 bits hold it and the sums that are made of it.
fn product(factor: i128, number: i128) -> i128
    requires factor { unsigned_abs factor ≤ MAX_FACTOR }
    requires number { unsigned_abs number ≤ 2 ^ 80 }
    ensures value { result ≡ factor *ℤ number }
    ensures small { unsigned_abs result ≤ 2 ^ 100 }
{
    factor * number
}

/// Adds two terms of a polynomial. The sum is at most 2^111 in magnitude, so 128 bits hold it.
pub(crate) fn sum(x: i128, y: i128) -> i128
    requires x { unsigned_abs x ≤ 2 ^ 110 }
    requires y { unsigned_abs y ≤ 2 ^ 100 }
    ensures value { result ≡ x +ℤ y }
    ensures small { unsigned_abs result ≤ 2 ^ 111 }
{
    x + y
}

/// The side from which a number bounds others.
#[derive(Clone, Copy)]
pub(crate) enum Bound {
    Low,
    High,
}

// Returns the lesser of two numbers for `Bound::Low`, and the greater for `Bound::High`.
fn lesser_or_greater(bound: Bound, x: i128, y: i128) -> i128
    requires x { unsigned_abs x ≤ 2 ^ 100 }
    requires y { unsigned_abs y ≤ 2 ^ 100 }
    ensures value { result ≡ outer bound x y }
    ensures small { unsigned_abs result ≤ 2 ^ 100 }
{
    match bound {
        Bound::Low => x.min(y),
        Bound::High => x.max(y),
    }
}

/// Returns a bound of the products of a factor with the numbers from `one` to `other`, in either order: the least
/// product for `Bound::Low`, the greatest for `Bound::High`. It is the product with one of these two.
pub(crate) fn product_bound(bound: Bound, factor: i128, one: i128, other: i128) -> i128
    requires factor { unsigned_abs factor ≤ MAX_FACTOR }
    requires one { unsigned_abs one ≤ 2 ^ 80 }
    requires other { unsigned_abs other ≤ 2 ^ 80 }
    ensures value { result ≡ outer bound (factor *ℤ one) (factor *ℤ other) }
    ensures small { unsigned_abs result ≤ 2 ^ 100 }
{
    lesser_or_greater(bound, product(factor, one), product(factor, other))
}

// Returns the square of a time of at most 2^40 in magnitude. The square is at most 2^80.
fn square(t: i128) -> i128
    requires { unsigned_abs t ≤ MAX_TIME }
    ensures value { result ≡ t *ℤ t }
    ensures small { unsigned_abs result ≤ 2 ^ 80 }
{
    t * t
}

// Tells whether 0 is one of the times from `a` to `b`, both included.
fn is_zero_between(a: i128, b: i128) -> bool
    ensures { result ≡ (int_le a (pos 0) && int_le (pos 0) b) }
{
    a <= 0 && 0 <= b
}

/// Returns the least of the squares of the times from `a` to `b`: 0 if 0 is one of them, else the square of an end.
pub(crate) fn min_square_between(a: i128, b: i128) -> i128
    requires first { unsigned_abs a ≤ MAX_TIME }
    requires last { unsigned_abs b ≤ MAX_TIME }
    ensures value { result ≡ least_square a b }
    ensures small { unsigned_abs result ≤ 2 ^ 80 }
{
    if is_zero_between(a, b) {
        0
    } else {
        square(a).min(square(b))
    }
}

/// Returns the greatest of the squares of the times from `a` to `b`, which is the square of `a` or of `b`.
pub(crate) fn max_square_between(a: i128, b: i128) -> i128
    requires first { unsigned_abs a ≤ MAX_TIME }
    requires last { unsigned_abs b ≤ MAX_TIME }
    ensures value { result ≡ greatest_square a b }
    ensures small { unsigned_abs result ≤ 2 ^ 80 }
{
    square(a).max(square(b))
}

// Returns the change of the square of the time from `t` to `t + 1`, which is `2 t + 1`.
fn square_step(t: i128) -> i128
    requires { unsigned_abs t ≤ MAX_TIME }
    ensures value { result ≡ pos 2 *ℤ t +ℤ pos 1 }
    ensures small { unsigned_abs result ≤ 2 ^ 80 }
{
    2 * t + 1
}

/// Returns the change of p t^2 + q t from time `t` to `t + 1`.
pub(crate) fn quadratic_step(p: i128, q: i128, t: i128) -> i128
    requires p { unsigned_abs p ≤ MAX_FACTOR }
    requires q { unsigned_abs q ≤ MAX_FACTOR }
    requires time { unsigned_abs t ≤ MAX_TIME }
    ensures { result ≡ p *ℤ (pos 2 *ℤ t +ℤ pos 1) +ℤ q }
{
    sum(product(p, square_step(t)), q)
}
