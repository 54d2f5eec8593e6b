// Sums of the products of coefficients, as intervals, with the entries of a row.
ghost use Rattle.std.specs.Prelude.{◌≡◌, ◌≤◌, ◌<◌, ◌-◌, ◌^◌, length, map, drop, slice_index_or, pos, unsigned_abs, ◌+ℤ◌, ◌*ℤ◌, ◌≤ℤ◌};
ghost use Rattle.std.specs.Int.{from_bool, int_min, int_max};
ghost use Rattle.spec_intervals.specs.Interval.{least4, greatest4};
ghost use Rattle.spec_chebyshev.specs.Rows.{entry};
ghost use Rattle.spec_motions.specs.Sums.{sum_low, sum_high};
ghost use Rattle.spec_motions.specs.RowSizes.{entry_size, IsSmallRow};
ghost use Rattle.cheby_enclose.specs.ProductSizes.{product_sizes, IsSummable};
ghost use Rattle.spec_motions.specs.Pairs.{term_of, IsPair, ArePairs};
ghost use Rattle.cheby_enclose.specs.OrderedRows.{IsOrderedRow, IsOrderedShorterRow};

use crate::terms::AxisCoefficients;
use cheby_laws::Row;
use eph_model::Rounded;
use spec_chebyshev::Ival62;

/// The ends of an interval in 128 bits, before it is normalized.
#[derive(Clone, Copy)]
pub struct WideEnds {
    pub lo: i128,
    pub hi: i128,
}

/// Returns the sum of the products of an axis's coefficients with the entries of a row: C_0 X_0 + C_1 X_1 + .. It is
/// in units of 2^-24 km times the row's.
#[inline(always)]
pub fn row_sum(terms: &AxisCoefficients, row: &Row) -> WideEnds
    requires small { length terms.now ≤ 32 → IsSmallRow row.now (length terms.now) }
    requires order { IsOrderedRow row.now (length terms.now) }
    ensures lo { result.lo ≡ sum_low (entry row.now) 0 terms.now }
    ensures hi { result.hi ≡ sum_high (entry row.now) 0 terms.now }
    ensures lo_size { unsigned_abs result.lo ≤ 2 ^ 125 }
    ensures hi_size { unsigned_abs result.hi ≤ 2 ^ 125 }
{
    sum_of_products(terms.pairs, row)
}

/// Returns the sum of the products of all of an axis's coefficients but the first with the entries of a row, from
/// entry 0 on: C_1 X_0 + C_2 X_1 + .. It is in units of 2^-24 km times the row's.
#[inline(always)]
pub fn slope_sum(terms: &AxisCoefficients, row: &Row) -> WideEnds
    requires small { length terms.now ≤ 32
        → IsSummable (2 ^ 125 - 1) row.now (length terms.now - 1) }
    requires order { IsOrderedShorterRow row.now (length terms.now) }
    ensures lo { result.lo ≡ sum_low (entry row.now) 0 (drop 1 terms.now) }
    ensures hi { result.hi ≡ sum_high (entry row.now) 0 (drop 1 terms.now) }
    ensures lo_size { unsigned_abs result.lo < 2 ^ 125 }
    ensures hi_size { unsigned_abs result.hi < 2 ^ 125 }
{
    sum_of_products(pairs_after_first(terms.pairs), row)
}

// Returns all coefficients but the first, which belongs to degree 0 and has no slope. If there is none, there is none
// after it.
#[inline(always)]
fn pairs_after_first(pairs: &[Rounded]) -> &[Rounded]
    ensures { result.now ≡ drop 1 pairs.now }
{
    &pairs[pairs.len().min(1)..]
}

// Returns the sum of the products of coefficients with the entries of a row, from the first of each on. Its ends are
// in 128 bits, which hold them since the row is summable.
#[inline(always)]
fn sum_of_products(pairs: &[Rounded], row: &Row) -> WideEnds
    requires pairs { ArePairs pairs.now }
    requires row { IsSummable (2 ^ 125) row.now (length pairs.now) }
    requires order { IsOrderedRow row.now (length pairs.now) }
    ensures lo { result.lo ≡ sum_low (entry row.now) 0 (map term_of pairs.now) }
    ensures hi { result.hi ≡ sum_high (entry row.now) 0 (map term_of pairs.now) }
    ensures lo_size { unsigned_abs result.lo ≤ product_sizes (entry_size row.now) (length pairs.now) }
    ensures hi_size { unsigned_abs result.hi ≤ product_sizes (entry_size row.now) (length pairs.now) }
{
    let mut sum = WideEnds { lo: 0, hi: 0 };
    for k in 0..pairs.len() {
        sum = sum_of_ends(sum, pair_times_entry(pairs[k], row[k]));
    }
    sum
}

// Returns the least and the greatest product of a number between the ends of a pair with a number of an entry, by two
// multiplications.
#[inline(always)]
fn pair_times_entry(c: Rounded, e: Ival62) -> WideEnds
    requires pair { IsPair c }
    requires lo_fits { unsigned_abs e.lo < 2 ^ 63 }
    requires hi_fits { unsigned_abs e.hi < 2 ^ 63 }
    requires ordered { e.lo ≤ℤ e.hi }
    ensures lo { result.lo ≡ least4 c.lo c.hi e.lo e.hi }
    ensures hi { result.hi ≡ greatest4 c.lo c.hi e.lo e.hi }
{
    let (x, y) = ends_by_sign(c, e);
    lesser_and_greater_product(c, x, y)
}

// Returns an entry's ends in the order of their products with a pair, the one with the lesser products first. A pair is
// the floor and the ceiling of one number, so it lies on one side of 0.
#[inline(always)]
fn ends_by_sign(c: Rounded, e: Ival62) -> (i64, i64)
    requires pair { IsPair c }
    requires lo_fits { unsigned_abs e.lo < 2 ^ 63 }
    requires hi_fits { unsigned_abs e.hi < 2 ^ 63 }
    requires ordered { e.lo ≤ℤ e.hi }
    ensures lesser { int_min (c.lo *ℤ result.0) (c.hi *ℤ result.0) ≡ least4 c.lo c.hi e.lo e.hi }
    ensures greater { int_max (c.lo *ℤ result.1) (c.hi *ℤ result.1) ≡ greatest4 c.lo c.hi e.lo e.hi }
{
    if c.lo < 0 { (e.hi, e.lo) } else { (e.lo, e.hi) }
}

// Returns the lesser of the products of a pair's ends with `x`, and the greater of the products of its ends with `y`.
#[inline(always)]
fn lesser_and_greater_product(c: Rounded, x: i64, y: i64) -> WideEnds
    requires pair { IsPair c }
    ensures lo { result.lo ≡ int_min (c.lo *ℤ x) (c.hi *ℤ x) }
    ensures hi { result.hi ≡ int_max (c.lo *ℤ y) (c.hi *ℤ y) }
{
    let lesser = ends_by_product(c, x).0;
    let greater = ends_by_product(c, y).1;
    WideEnds {
        lo: wide_product(lesser, x),
        hi: wide_product(greater, y),
    }
}

// Returns a pair's ends in the order of their products with `z`, the one with the lesser product first.
#[inline(always)]
fn ends_by_product(c: Rounded, z: i64) -> (i64, i64)
    requires pair { IsPair c }
    ensures lesser { result.0 *ℤ z ≡ int_min (c.lo *ℤ z) (c.hi *ℤ z) }
    ensures greater { result.1 *ℤ z ≡ int_max (c.lo *ℤ z) (c.hi *ℤ z) }
    ensures small_lesser { unsigned_abs result.0 ≤ 2 ^ 60 }
    ensures small_greater { unsigned_abs result.1 ≤ 2 ^ 60 }
{
    let is_turned = z < 0;
    (
        one_of([c.lo, c.hi], is_turned),
        one_of([c.hi, c.lo], is_turned),
    )
}

// Returns the second of two numbers if `is_second`, and else the first. It is taken by its place and by no jump, which
// a processor would foresee wrongly half of the time, as the signs of coefficients follow no rule.
#[inline(always)]
fn one_of(numbers: [i64; 2], is_second: bool) -> i64
    ensures { result ≡ slice_index_or numbers (from_bool is_second) (pos 0) }
{
    numbers[usize::from(is_second)]
}

// Returns the product of an end of a pair and an end of an entry, in 128 bits, by one multiplication of 64-bit
// numbers.
#[inline(always)]
fn wide_product(c: i64, e: i64) -> i128
    requires { unsigned_abs c ≤ 2 ^ 60 }
    ensures { result ≡ c *ℤ e }
{
    c as i128 * e as i128
}

// Returns the sum of two intervals in 128 bits: the sum of the low ends and the sum of the high ends.
#[inline(always)]
fn sum_of_ends(one: WideEnds, other: WideEnds) -> WideEnds
    requires one_lo { unsigned_abs one.lo ≤ 2 ^ 125 }
    requires one_hi { unsigned_abs one.hi ≤ 2 ^ 125 }
    requires other_lo { unsigned_abs other.lo ≤ 2 ^ 125 }
    requires other_hi { unsigned_abs other.hi ≤ 2 ^ 125 }
    ensures lo { result.lo ≡ one.lo +ℤ other.lo }
    ensures hi { result.hi ≡ one.hi +ℤ other.hi }
{
    WideEnds {
        lo: one.lo + other.lo,
        hi: one.hi + other.hi,
    }
}
