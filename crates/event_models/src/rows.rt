// Models of the entries of a row, all in one unit.
ghost use Rattle.std.specs.Prelude.{◌≡◌, ◌≤◌, ◌<◌, ◌+◌, ◌*◌, ◌^◌, ◌/◌, ◌↔◌, ℕ, ℤ, All, IfSome, IsTrue, length, slice_index_or, pos, ◌+ℤ◌, ◌-ℤ◌, ◌*ℤ◌, unsigned_abs};
ghost use Rattle.spec_numbers.specs.Numbers.{floor_div};
ghost use Rattle.spec_models.specs.Models.{coefficient, sizes};
ghost use Rattle.event_models.specs.Rows.{AreNumbers, IsLine, IsRow, IsRowOf, IsSmallNumber, IsStep, line_limit, lower, product_error, row_limit, step_error, step_number, terms, without_last};

use span_models::TERMS;

/// The greatest magnitude of a coefficient and of an error.
const LIMIT: u64 = 1 << 55;

/// The number of entries of a whole row.
pub(crate) const ENTRIES: usize = 32;

/// A polynomial of a span's argument, with the sum of its coefficients' magnitudes and a bound of its error.
#[derive(Clone, Copy)]
pub(crate) struct RowModel {
    pub coefficients: [i64; TERMS],
    pub size: u64,
    pub error: u64,
}

/// The argument in the middle of a span, and by how much it grows from there to the end, in units of 2^-60.
#[derive(Clone, Copy)]
pub(crate) struct Line {
    pub middle: i64,
    pub slope: i64,
}

/// The two kinds of Chebyshev polynomials: the first, T, and the second, U.
#[derive(Clone, Copy)]
pub(crate) enum Kind {
    First,
    Second,
}

/// Returns the next entry of a row by the recurrence of Chebyshev polynomials of both kinds: twice the argument times
/// the last entry, less the entry before it. None is returned if a coefficient or the error is above 2^55 units.
pub(crate) fn recurrence_row(line: &Line, last: &RowModel, before: &RowModel) -> Option<RowModel>
    requires line { IsLine line.now }
    requires last { IsRow last.now }
    requires before { IsRow before.now }
    ensures row { IfSome result IsRow }
    ensures step { IfSome result (IsStep line.now last.now before.now) }
{
    small_row(
        &recurrence_numbers(line, last, before),
        recurrence_error(line, last, before),
    )
}

// Returns the entry with these coefficients and this error, or None if one of them is above 2^55 in magnitude.
fn small_row(coefficients: &[i64; TERMS], error: u64) -> Option<RowModel>
    requires count { length coefficients.now ≡ terms }
    ensures row { IfSome result IsRow }
    ensures numbers { IfSome result (IsRowOf coefficients.now error) }
{
    if error <= LIMIT && are_small(coefficients) {
        Some(RowModel {
            coefficients: *coefficients,
            size: magnitude_sum(coefficients),
            error,
        })
    } else {
        None
    }
}

// Tells whether no number is above 2^55 in magnitude.
fn are_small(numbers: &[i64]) -> bool
    ensures { IsTrue result ↔ All IsSmallNumber numbers.now }
{
    numbers.iter().all(|z| is_small(*z))
}

// Tells whether a number is at most 2^55 in magnitude.
fn is_small(z: i64) -> bool
    ensures { IsTrue result ↔ IsSmallNumber z }
{
    z.unsigned_abs() <= LIMIT
}

// Returns the sum of the magnitudes of an entry's coefficients.
fn magnitude_sum(numbers: &[i64; TERMS]) -> u64
    requires { AreNumbers numbers.now }
    ensures equals { result ≡ sizes numbers.now }
    ensures small { result ≤ terms * row_limit }
{
    let mut sum: u64 = 0;
    for k in 0..TERMS {
        sum += numbers[k].unsigned_abs();
    }
    sum
}

// Returns the coefficients of the next entry of a row, by the recurrence from the two entries before it.
fn recurrence_numbers(line: &Line, last: &RowModel, before: &RowModel) -> [i64; TERMS]
    requires line { IsLine line.now }
    requires last { IsRow last.now }
    requires before { IsRow before.now }
    ensures count { length result ≡ terms }
    ensures numbers { (k : ℕ) → k < terms → slice_index_or result k (pos 0)
        ≡ step_number line.now last.now.coefficients before.now.coefficients k }
{
    let mut numbers = [0; TERMS];
    for k in 0..TERMS {
        numbers[k] = recurrence_number(line, last, before, k);
    }
    numbers
}

// Returns coefficient `k` of the next entry of a row, by the recurrence from the two entries before it.
#[inline(always)]
fn recurrence_number(line: &Line, last: &RowModel, before: &RowModel, k: usize) -> i64
    requires line { IsLine line.now }
    requires last { IsRow last.now }
    requires before { IsRow before.now }
    requires place { k < terms }
    ensures equals { result
        ≡ step_number line.now last.now.coefficients before.now.coefficients k }
    ensures small { unsigned_abs result ≤ 2 ^ 58 }
{
    let own = kept_coefficient(&last.coefficients, k);
    let under = lower_coefficient(&last.coefficients, k);
    recurrence_value(line, own, under, before.coefficients[k])
}

// Returns coefficient `k` of an entry, or 0 for the last one: the argument times the entry would have one coefficient too
// many, so that the magnitude of the last one goes into the error instead.
#[inline(always)]
fn kept_coefficient(numbers: &[i64; TERMS], k: usize) -> i64
    requires numbers { AreNumbers numbers.now }
    requires place { k < terms }
    ensures equals { result ≡ coefficient (without_last numbers.now) k }
    ensures small { unsigned_abs result ≤ row_limit }
{
    if k < TERMS - 1 { numbers[k] } else { 0 }
}

// Returns the coefficient of an entry before coefficient `k`, and 0 if there is none.
#[inline(always)]
fn lower_coefficient(numbers: &[i64; TERMS], k: usize) -> i64
    requires numbers { AreNumbers numbers.now }
    requires place { k < terms }
    ensures equals { result ≡ lower (without_last numbers.now) k }
    ensures small { unsigned_abs result ≤ row_limit }
{
    if k == 0 {
        0
    } else {
        kept_coefficient(numbers, k - 1)
    }
}

// Returns a coefficient of the next entry of a row: `floor((middle own + slope below) / 2^59) - before`, of the last
// entry's coefficient of the same power and of the one below, and of the coefficient of the entry before that.
#[inline(always)]
fn recurrence_value(line: &Line, own: i64, below: i64, before: i64) -> i64
    requires line { IsLine line.now }
    requires own { unsigned_abs own ≤ row_limit }
    requires below { unsigned_abs below ≤ row_limit }
    requires before { unsigned_abs before ≤ row_limit }
    ensures equals { result
        ≡ floor_div (line.now.middle *ℤ own +ℤ line.now.slope *ℤ below) (2 ^ 59) -ℤ before }
    ensures small { unsigned_abs result ≤ 2 ^ 58 }
{
    scaled_sum(product(line.middle, own), product(line.slope, below)) - before
}

// Returns twice the sum of two products with a line's numbers, in the coefficients' unit: `floor((a + b) / 2^59)`.
#[inline(always)]
fn scaled_sum(a: i128, b: i128) -> i64
    requires a { unsigned_abs a ≤ 2 ^ 115 }
    requires b { unsigned_abs b ≤ 2 ^ 115 }
    ensures equals { result ≡ floor_div (a +ℤ b) (2 ^ 59) }
    ensures small { unsigned_abs result ≤ 2 ^ 57 }
{
    ((a + b) >> 59) as i64
}

// Returns the exact product of two numbers, extended to 128 bits here so that one 64-bit multiplication is compiled.
#[inline(always)]
fn product(a: i64, b: i64) -> i128
    requires a { unsigned_abs a ≤ line_limit }
    requires b { unsigned_abs b ≤ row_limit }
    ensures equals { result ≡ a *ℤ b }
    ensures small { unsigned_abs result ≤ 2 ^ 115 }
{
    a as i128 * b as i128
}

// Returns a bound of the error of the next entry of a row, in its units, from the two entries before it.
fn recurrence_error(line: &Line, last: &RowModel, before: &RowModel) -> u64
    requires line { IsLine line.now }
    requires last { IsRow last.now }
    requires before { IsRow before.now }
    ensures { result ≡ step_error line.now last.now before.now }
{
    let own = last.error + last.coefficients[TERMS - 1].unsigned_abs();
    let spread = line.middle.unsigned_abs() + line.slope.unsigned_abs();
    let product = product_error(spread, own, last.size);
    product + before.error + (TERMS as u64 + 3)
}

// Returns the error of twice the argument (at most `spread`) times an entry (values `size`, error `own`), rounded down.
#[inline(always)]
fn product_error(spread: u64, own: u64, size: u64) -> u64
    requires spread { spread ≤ 2 ^ 61 }
    requires own { own ≤ 2 ^ 56 }
    requires size { size ≤ 2 ^ 60 }
    ensures equals { result ≡ (spread * own + size * 3 + 3 * own) / 2 ^ 59 }
    ensures small { result ≤ 2 ^ 59 }
{
    let wide = spread as u128 * own as u128 + size as u128 * 3 + 3 * own as u128;
    (wide >> 59) as u64
}
