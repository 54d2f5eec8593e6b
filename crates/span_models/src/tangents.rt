// The line that a polynomial is near, from one argument to another, by Horner's rule for its value and slope.

ghost use Rattle.std.specs.Prelude.{◌≡◌, ◌≤◌, ◌<◌, ◌+◌, ◌*◌, ◌^◌, pos, ◌+ℤ◌, ◌*ℤ◌, ◌-ℤ◌, ◌≤ℤ◌, ◌<ℤ◌, unsigned_abs, IfSome, IsTrue};
ghost use Rattle.std.specs.Int.{int_max};
ghost use Rattle.spec_numbers.specs.Numbers.{floor_div};
ghost use Rattle.spec_chebyshev.specs.Differences.{IsArgument, Within};
ghost use Rattle.span_models.specs.Sizes.{size_limit, AreWithin};
ghost use Rattle.span_models.specs.Tangents.{IsLine, IsPlace, IsSmallTangent, line, next, next_error, ratio, tangent};

use crate::model::TERMS;

/// The arguments from `centre - width` to `centre + width`, in units of 2^-56.
#[derive(Clone, Copy)]
pub struct Line {
    pub centre: i64,
    pub width: i64,
}

/// The values of a polynomial at the arguments of a line, within an error: `value + slope v`, where `v` goes from -1
/// to 1.
#[derive(Clone, Copy)]
pub struct Tangent {
    pub value: i64,
    pub slope: i64,
    pub error: u64,
}

/// The limit of the numbers of a tangent. Past it nothing useful is known, and below it a step of Horner's rule stays
/// within 64 bits.
const LIMIT: u64 = 1 << 62;

/// Returns the middle of the arguments from `first / q` to `last / q`, as a number over `q` that is rounded down, and the
/// distance of the last from it, which is at least 1.
#[inline(always)]
pub(crate) fn middle_and_width(first: i64, last: i64, q: i64) -> (i64, i64)
    requires first { IsArgument first q }
    requires last { IsArgument last q }
    requires ordered { first ≤ℤ last }
    ensures { IsPlace first last q result.0 result.1 }
{
    let middle = half_sum(first, last, q);
    let width = width_above_middle(middle, last, q);
    (middle, width)
}

// Returns half the sum of two arguments over `q`, rounded down.
#[inline(always)]
fn half_sum(first: i64, last: i64, q: i64) -> i64
    requires first { IsArgument first q }
    requires last { IsArgument last q }
    ensures { result ≡ floor_div (first +ℤ last) 2 }
{
    ((first as i128 + last as i128) >> 1) as i64
}

// Returns by how much the last argument is above the middle, both over `q`, or 1 where they are equal.
#[inline(always)]
fn width_above_middle(middle: i64, last: i64, q: i64) -> i64
    requires ordered { middle ≤ℤ last }
    requires near { last ≤ℤ (middle +ℤ q) }
    ensures { result ≡ int_max (pos 1) (last -ℤ middle) }
{
    (last as i128 - middle as i128).max(1) as i64
}

/// Returns the line of arguments with this middle and this width, both over `q`. It has them in units of 2^-56, rounded
/// down.
#[inline(always)]
pub(crate) fn line_in_units(middle: i64, width: i64, q: i64) -> Line
    requires positive { pos 0 <ℤ q }
    requires middle { Within middle q }
    requires width { Within width q }
    ensures equals { result ≡ line middle width q }
    ensures small { IsLine result }
{
    Line {
        centre: ratio_in_units(middle, q),
        width: ratio_in_units(width, q),
    }
}

// Returns `z / q` in units of 2^-56, rounded down.
#[inline(always)]
fn ratio_in_units(z: i64, q: i64) -> i64
    requires positive { pos 0 <ℤ q }
    requires inside { Within z q }
    ensures equals { result ≡ ratio z q }
    ensures small { unsigned_abs result ≤ 2 ^ 56 }
{
    floor_quotient(z as i128 * (1 << 56), q as u64)
}

// Returns `z / d` rounded down, for a quotient that is at most 2^56 in magnitude.
#[inline(always)]
fn floor_quotient(z: i128, d: u64) -> i64
    requires positive { 0 < d }
    requires small { unsigned_abs z ≤ 2 ^ 56 * d }
    ensures { result ≡ floor_div z d }
{
    z.div_euclid(d as i128) as i64
}

/// Returns the tangent of a polynomial on a line, by Horner's rule. None where one of its numbers passes the limit, or
/// one of the tangent of its upper coefficients.
#[inline(always)]
pub(crate) fn tangent_on_line(a: &[i64; TERMS], line: &Line) -> Option<Tangent>
    requires small { AreWithin size_limit a.now }
    requires line { IsLine line.now }
    ensures equals { IfSome result (λ t. t ≡ tangent line.now a.now) }
    ensures small { IfSome result IsSmallTangent }
{
    let mut known = Tangent {
        value: 0,
        slope: 0,
        error: 0,
    };
    for i in 0..TERMS {
        if !is_small(&known) {
            return None;
        }
        known = next_tangent(line, &known, a[TERMS - 1 - i]);
    }
    if is_small(&known) { Some(known) } else { None }
}

// Tells whether the value, the slope and the error of a tangent are within the limit. `false` is not claimed to mean
// anything.
#[inline(always)]
fn is_small(known: &Tangent) -> bool
    ensures { IsTrue result → IsSmallTangent known.now }
{
    known.value.unsigned_abs() < LIMIT && known.slope.unsigned_abs() < LIMIT && known.error <= LIMIT
}

// Returns the tangent of a polynomial after one more step of Horner's rule, which multiplies the known one by the
// argument and adds the next lower coefficient.
#[inline(always)]
fn next_tangent(line: &Line, known: &Tangent, a: i64) -> Tangent
    requires line { IsLine line.now }
    requires known { IsSmallTangent known.now }
    requires small { unsigned_abs a ≤ size_limit }
    ensures { result ≡ next line.now known.now a }
{
    Tangent {
        value: next_value(line, known, a),
        slope: next_slope(line, known),
        error: next_error(line, known),
    }
}

// Returns the value of a tangent after one more step of Horner's rule: the next coefficient, and the known value times
// the centre of the line.
#[inline(always)]
fn next_value(line: &Line, known: &Tangent, a: i64) -> i64
    requires line { IsLine line.now }
    requires known { IsSmallTangent known.now }
    requires small { unsigned_abs a ≤ size_limit }
    ensures { result ≡ a +ℤ floor_div (line.now.centre *ℤ known.now.value) (2 ^ 56) }
{
    let part = floor_shift(product_with_line(line.centre, known.value));
    a + part
}

// Returns the slope of a tangent after one more step of Horner's rule: the known slope times the centre of the line,
// and the known value times its width.
#[inline(always)]
fn next_slope(line: &Line, known: &Tangent) -> i64
    requires line { IsLine line.now }
    requires known { IsSmallTangent known.now }
    ensures { result ≡ floor_div (line.now.centre *ℤ known.now.slope
        +ℤ line.now.width *ℤ known.now.value) (2 ^ 56) }
{
    floor_shift(
        product_with_line(line.centre, known.slope) + product_with_line(line.width, known.value),
    )
}

// Returns the exact product of a line's centre or width and a tangent's value or slope. Both are extended to 128 bits
// only so that the compiler takes one multiplication of 64-bit numbers.
#[inline(always)]
fn product_with_line(x: i64, z: i64) -> i128
    requires x_small { unsigned_abs x ≤ 2 ^ 56 }
    requires z_small { unsigned_abs z < 2 ^ 62 }
    ensures equals { result ≡ x *ℤ z }
    ensures small { unsigned_abs result < 2 ^ 118 }
{
    x as i128 * z as i128
}

// Returns `z / 2^56` rounded down, which takes the unit of a line out of a product.
#[inline(always)]
fn floor_shift(z: i128) -> i64
    requires { unsigned_abs z < 2 ^ 119 }
    ensures { result ≡ floor_div z (2 ^ 56) }
{
    (z >> 56) as i64
}

// Returns the sum of the magnitudes of a line's centre and width, in units of 2^-56. It bounds its arguments.
#[inline(always)]
fn line_size(line: &Line) -> u64
    requires line { IsLine line.now }
    ensures equals { result ≡ unsigned_abs line.now.centre + unsigned_abs line.now.width }
    ensures small { result ≤ 2 ^ 57 }
{
    line.centre.unsigned_abs() + line.width.unsigned_abs()
}

// Returns twice the sum of the magnitudes of a tangent's value and slope, which bounds what the roundings of the line
// change of the product with the tangent, in units of 2^-56.
#[inline(always)]
fn tangent_change(known: &Tangent) -> u64
    requires known { IsSmallTangent known.now }
    ensures { result ≡ (unsigned_abs known.now.value + unsigned_abs known.now.slope) * 2 }
{
    (known.value.unsigned_abs() + known.slope.unsigned_abs()) * 2
}

// Returns the product of the size of a line, or of its width, and the error or the slope's magnitude of a tangent.
#[inline(always)]
fn size_product(size: u64, error: u64) -> u128
    requires size { size ≤ 2 ^ 57 }
    requires error { error ≤ 2 ^ 62 }
    ensures equals { result ≡ size * error }
    ensures small { result ≤ size * 2 ^ 62 }
{
    size as u128 * error as u128
}

// Returns the error of a tangent after one more step of Horner's rule. It takes in the width times the slope, which
// the product of two lines has in its square, and the tangent leaves out.
#[inline(always)]
fn next_error(line: &Line, known: &Tangent) -> u64
    requires line { IsLine line.now }
    requires known { IsSmallTangent known.now }
    ensures { result ≡ next_error line.now known.now }
{
    let own = size_product(line_size(line), known.error);
    let beside = size_product(line.width.unsigned_abs(), known.slope.unsigned_abs());
    let whole = own + tangent_change(known) as u128 + 2 * known.error as u128 + beside;
    (whole >> 56) as u64 + 3
}
