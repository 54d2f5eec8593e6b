// Steps on the ends of intervals, each on plain whole numbers. None overflows within its bounds.

ghost use Rattle.std.specs.Prelude.{◌≡◌, ◌↔◌, ◌≤◌, ◌<◌, ◌^◌, ◌*◌, ◌≤ℤ◌, ◌+ℤ◌, ◌*ℤ◌, pos, unsigned_abs, max, IsTrue};
ghost use Rattle.std.specs.Int.{int_gap, int_min, int_max};
ghost use Rattle.spec_intervals.specs.Interval.{IsExponent, exponent_limit, end_limit, lift_limit, narrow_shift, least4, greatest4, signed_sq};
ghost use Rattle.spec_numbers.specs.Numbers.{floor_div, ceil_div};

/// The greatest magnitude of an end, 2^62. The product of two ends is within 128 bits.
const END_LIMIT: u128 = 1 << 62;

/// Returns the greater magnitude of the two ends of an interval, each at most 2^124 in magnitude. As `lo` is at most
/// `hi`, it is the greater of `hi` and `-lo`.
#[inline(always)]
pub fn greater_magnitude(lo: i128, hi: i128) -> u128
    requires ordered { lo ≤ℤ hi }
    requires lo_bound { unsigned_abs lo ≤ 2 ^ 124 }
    requires hi_bound { unsigned_abs hi ≤ 2 ^ 124 }
    ensures equals { result ≡ max (unsigned_abs lo) (unsigned_abs hi) }
    ensures bound { result ≤ 2 ^ 124 }
{
    hi.max(-lo) as u128
}

/// Tells whether a magnitude is at most 2^62, the greatest that an end of an interval may have. Ends of at most this
/// magnitude need no shift.
#[inline(always)]
pub fn is_end_magnitude(size: u128) -> bool
    ensures { IsTrue result ↔ size ≤ end_limit }
{
    size <= END_LIMIT
}

/// Tells whether a number is at most 2^124 in magnitude, as every product of two ends is.
#[inline(always)]
pub fn is_product_magnitude(z: i128) -> bool
    ensures { IsTrue result ↔ unsigned_abs z ≤ 2 ^ 124 }
{
    z.unsigned_abs() <= 1 << 124
}

/// Returns the least shift to the right that brings two ends, rounded outward, to at most 2^62 in magnitude. `size`
/// is the greater magnitude of both, or 2^62 if both are smaller.
///
/// The leading bit of `size - 1` alone tells the shift: the end of the greater magnitude is a low end below 0 or a
/// high end above 0, so that it is rounded away from 0.
#[inline(always)]
pub fn leading_shift(lo: i128, hi: i128, size: u128) -> u32
    requires ordered { lo ≤ℤ hi }
    requires is { size ≡ max (max (unsigned_abs lo) (unsigned_abs hi)) end_limit }
    ensures equals { result ≡ narrow_shift lo hi }
    ensures bound { result ≤ 66 }
    ensures few { size ≤ 2 ^ 124 → result ≤ 62 }
{
    (size - 1).ilog2() - 61
}

/// Returns the least shift to the right that brings any two ends in order, rounded outward, to at most 2^62 in
/// magnitude. It is 0 if they are no greater.
pub fn least_shift(lo: i128, hi: i128) -> u32
    requires { lo ≤ℤ hi }
    ensures equals { result ≡ narrow_shift lo hi }
    ensures bound { result ≤ 66 }
{
    let size = lo.unsigned_abs().max(hi.unsigned_abs()).max(END_LIMIT);
    leading_shift(lo, hi, size)
}

/// Returns a number of at most 2^62 in magnitude as an end of 64 bits, which every such number fits.
#[inline(always)]
pub fn end_in_64_bits(z: i128) -> i64
    requires { unsigned_abs z ≤ end_limit }
    ensures { result ≡ z }
{
    z as i64
}

/// Returns `z / 2^k` rounded down, as a low end of 64 bits. The caller knows that it is at most 2^62 in magnitude.
#[inline(always)]
pub fn shifted_low_end(z: i128, k: u32) -> i64
    requires few { k ≤ 66 }
    requires small { unsigned_abs (floor_div z (2 ^ k)) ≤ end_limit }
    ensures { result ≡ floor_div z (2 ^ k) }
{
    (z >> k) as i64
}

/// Returns `z / 2^k` rounded up, as a high end of 64 bits. The caller knows that it is at most 2^62 in magnitude, and
/// that `z` is not -2^127, whose negation would overflow.
#[inline(always)]
pub fn shifted_high_end(z: i128, k: u32) -> i64
    requires few { k ≤ 66 }
    requires above_least { unsigned_abs z < 2 ^ 127 }
    requires small { unsigned_abs (ceil_div z (2 ^ k)) ≤ end_limit }
    ensures { result ≡ ceil_div z (2 ^ k) }
{
    -((-z >> k) as i64)
}

/// Returns half of a number, rounded down to a whole number.
pub fn floor_half(z: i128) -> i128
    ensures { result ≡ floor_div z 2 }
{
    z >> 1
}

/// Returns an end divided by `2^k`, rounded down, for any `k`. A `k` past 63 is taken as 63, where only 0 or -1 is
/// left.
#[inline(always)]
pub fn floor_shift(z: i64, k: u32) -> i128
    requires { unsigned_abs z ≤ end_limit }
    ensures equals { result ≡ floor_div z (2 ^ k) }
    ensures small { unsigned_abs result ≤ end_limit }
{
    (z >> k.min(63)) as i128
}

/// Returns an end divided by `2^k`, rounded up, for any `k`. From a `k` of 63 on only 0 or 1 is left.
#[inline(always)]
pub fn ceil_shift(z: i64, k: u32) -> i128
    requires { unsigned_abs z ≤ end_limit }
    ensures equals { result ≡ ceil_div z (2 ^ k) }
    ensures small { unsigned_abs result ≤ end_limit }
{
    -floor_shift(-z, k)
}

/// Returns an end times `2^m`, exactly. `m` is at most 60, so that the result is at most 2^122 in magnitude; `% 64`
/// changes nothing and spares a check of the shift.
#[inline(always)]
pub fn raise_end(z: i64, m: u32) -> i128
    requires small { unsigned_abs z ≤ end_limit }
    requires within { m ≤ lift_limit }
    ensures equals { result ≡ z *ℤ pos (2 ^ m) }
    ensures bound { unsigned_abs result ≤ 2 ^ 122 }
{
    z as i128 * (1i128 << (m % 64))
}

/// Returns the sum of two ends at one exponent. The second was raised to that exponent, so it may be up to 2^122 in
/// magnitude.
#[inline(always)]
pub fn sum_of_ends(a: i128, b: i128) -> i128
    requires a_small { unsigned_abs a ≤ end_limit }
    requires b_small { unsigned_abs b ≤ 2 ^ 122 }
    ensures equals { result ≡ a +ℤ b }
    ensures bound { unsigned_abs result ≤ 2 ^ 123 }
{
    a + b
}

/// Returns two ends at one exponent, the lesser first. The second was raised to that exponent, so it may be up to
/// 2^122 in magnitude. A caller that reads one of the two has only that one computed.
#[inline(always)]
pub fn ordered_ends(a: i128, b: i128) -> (i128, i128)
    requires a_small { unsigned_abs a ≤ end_limit }
    requires b_small { unsigned_abs b ≤ 2 ^ 122 }
    ensures lesser { result.0 ≡ int_min a b }
    ensures greater { result.1 ≡ int_max a b }
    ensures lesser_bound { unsigned_abs result.0 ≤ 2 ^ 123 }
    ensures greater_bound { unsigned_abs result.1 ≤ 2 ^ 123 }
{
    (a.min(b), a.max(b))
}

/// Returns `t - s` for two exponents of intervals, the second at least the first.
#[inline(always)]
pub fn exponent_gap(s: i32, t: i32) -> u32
    requires order { s ≤ℤ t }
    requires exponent { IsExponent s }
    requires other_exponent { IsExponent t }
    ensures equals { result ≡ int_gap s t }
    ensures bound { result ≤ 2 * exponent_limit }
{
    (t - s) as u32
}

/// Returns by how much the exponent `s` has to rise to reach the exponent `t`. It is 0 if `t` is no greater.
pub fn exponent_rise(s: i32, t: i32) -> u32
    requires exponent { IsExponent s }
    requires other_exponent { IsExponent t }
    ensures equals { result ≡ int_gap s t }
    ensures bound { result ≤ 2 * exponent_limit }
{
    if s < t { exponent_gap(s, t) } else { 0 }
}

/// Returns the greater of the exponents of two intervals.
pub fn greater_exponent(s: i32, t: i32) -> i32
    requires exponent { IsExponent s }
    requires other_exponent { IsExponent t }
    ensures equals { result ≡ int_max s t }
    ensures bound { IsExponent result }
{
    if s < t { t } else { s }
}

/// Returns the product of two numbers of 64 bits, in 128 bits, by one multiplication.
#[inline(always)]
fn wide_product(a: i64, b: i64) -> i128
    ensures { result ≡ a *ℤ b }
{
    a as i128 * b as i128
}

/// Returns the ends `a <= b` in the order of their products with `z`, the one with the lesser product first. Ends are
/// chosen first and multiplied later, so that the choice takes no branch and a product not needed is not made.
#[inline(always)]
fn ends_by_product(a: i64, b: i64, z: i64) -> (i64, i64)
    requires { a ≤ℤ b }
    ensures lesser { result.0 *ℤ z ≡ int_min (a *ℤ z) (b *ℤ z) }
    ensures greater { result.1 *ℤ z ≡ int_max (a *ℤ z) (b *ℤ z) }
{
    if z >= 0 { (a, b) } else { (b, a) }
}

/// Returns the lesser and the greater of the products `a z` and `b z`, for ends `a <= b`. A caller that reads one of
/// the two has only that one multiplied.
#[inline(always)]
fn products_with_factor(a: i64, b: i64, z: i64) -> (i128, i128)
    requires { a ≤ℤ b }
    ensures lesser { result.0 ≡ int_min (a *ℤ z) (b *ℤ z) }
    ensures greater { result.1 ≡ int_max (a *ℤ z) (b *ℤ z) }
{
    let (low, high) = ends_by_product(a, b, z);
    (wide_product(low, z), wide_product(high, z))
}

/// Returns the least and the greatest product of a number from `a` to `b` with one from `c` to `d`, for an `a` of at
/// most 0 and a `b` of at least 0.
#[inline(always)]
fn products_across_zero(a: i64, b: i64, c: i64, d: i64) -> (i128, i128)
    requires order { c ≤ℤ d }
    requires below { a ≤ℤ pos 0 }
    requires above { pos 0 ≤ℤ b }
    ensures least { result.0 ≡ least4 a b c d }
    ensures greatest { result.1 ≡ greatest4 a b c d }
{
    if c >= 0 {
        (wide_product(a, d), wide_product(b, d))
    } else if d <= 0 {
        (wide_product(b, c), wide_product(a, c))
    } else {
        let least = wide_product(a, d).min(wide_product(b, c));
        let greatest = wide_product(a, c).max(wide_product(b, d));
        (least, greatest)
    }
}

/// Returns the least and the greatest product of a number from `a` to `b` with one from `c` to `d`. If one of the
/// intervals has one sign, that sign tells which two products of ends these are.
#[inline(always)]
fn products_by_sign(a: i64, b: i64, c: i64, d: i64) -> (i128, i128)
    requires order { a ≤ℤ b }
    requires other_order { c ≤ℤ d }
    ensures least { result.0 ≡ least4 a b c d }
    ensures greatest { result.1 ≡ greatest4 a b c d }
{
    if a >= 0 {
        (
            products_with_factor(a, b, c).0,
            products_with_factor(a, b, d).1,
        )
    } else if b <= 0 {
        (
            products_with_factor(a, b, d).0,
            products_with_factor(a, b, c).1,
        )
    } else {
        products_across_zero(a, b, c, d)
    }
}

/// Returns the least and the greatest product of a number from `a` to `b` with one from `c` to `d`. The four ends are
/// at most 2^62 in magnitude, and the products at most 2^124.
#[inline(always)]
pub fn product_ends(a: i64, b: i64, c: i64, d: i64) -> (i128, i128)
    requires ordered { a ≤ℤ b }
    requires other_ordered { c ≤ℤ d }
    requires a_small { unsigned_abs a ≤ end_limit }
    requires b_small { unsigned_abs b ≤ end_limit }
    requires c_small { unsigned_abs c ≤ end_limit }
    requires d_small { unsigned_abs d ≤ end_limit }
    ensures least { result.0 ≡ least4 a b c d }
    ensures greatest { result.1 ≡ greatest4 a b c d }
    ensures ordered { result.0 ≤ℤ result.1 }
    ensures least_bound { unsigned_abs result.0 ≤ 2 ^ 124 }
    ensures greatest_bound { unsigned_abs result.1 ≤ 2 ^ 124 }
{
    products_by_sign(a, b, c, d)
}

/// Returns an end times its own magnitude: the square of the end, with the sign of the end.
#[inline(always)]
pub fn signed_square_of_end(z: i64) -> i128
    requires { unsigned_abs z ≤ end_limit }
    ensures equals { result ≡ signed_sq z }
    ensures bound { unsigned_abs result ≤ 2 ^ 124 }
{
    wide_product(z, z.abs())
}
