// The steps of a recurrence on plain whole numbers.

ghost use Rattle.std.specs.Prelude.{◌≡◌, ◌≤◌, ◌^◌, ◌+ℤ◌, ◌-ℤ◌, ◌≤ℤ◌, pos, neg_ℤ, unsigned_abs};
ghost use Rattle.std.specs.Int.{int_min, int_max};
ghost use Rattle.spec_numbers.specs.Numbers.{floor_div, ceil_div};
ghost use Rattle.spec_chebyshev.specs.Rows.{next, shifted, EndsWithin};

use ival_core::product_ends;
use spec_chebyshev::Ival62;

/// Returns the next entry of a row: `2 x e + extra - before`, rounded outward and cut to `limit` in magnitude. `x` is
/// in units of 2^-60, and all else in the unit of the row.
#[inline(always)]
pub(crate) fn next_entry(x: Ival62, e: Ival62, extra: Ival62, before: Ival62, limit: u64) -> Ival62
    requires x_in { EndsWithin (2 ^ 60) x }
    requires x_ordered { x.lo ≤ℤ x.hi }
    requires e_in { EndsWithin (2 ^ 60) e }
    requires e_ordered { e.lo ≤ℤ e.hi }
    requires extra_in { EndsWithin (2 ^ 60) extra }
    requires before_in { EndsWithin (2 ^ 60) before }
    requires limit_in { limit ≤ 2 ^ 60 }
    ensures { result ≡ next limit x e extra before }
{
    let (least, greatest) = product_ends(x.lo, x.hi, e.lo, e.hi);
    Ival62 {
        lo: cut_low_end(
            next_end(floor_in_row_unit(least), extra.lo, before.hi),
            limit,
        ),
        hi: cut_high_end(
            next_end(ceil_in_row_unit(greatest), extra.hi, before.lo),
            limit,
        ),
    }
}

/// Returns the low end of a row's next entry, cut to at least `-limit`, below which the exact entry never is.
#[inline(always)]
fn cut_low_end(z: i64, limit: u64) -> i64
    requires { limit ≤ 2 ^ 60 }
    ensures { result ≡ int_max z (neg_ℤ (pos limit)) }
{
    z.max(-(limit as i64))
}

/// Returns the high end of a row's next entry, cut to at most `limit`, above which the exact entry never is.
#[inline(always)]
fn cut_high_end(z: i64, limit: u64) -> i64
    requires { limit ≤ 2 ^ 60 }
    ensures { result ≡ int_min z (pos limit) }
{
    z.min(limit as i64)
}

/// Returns one end of a row's next entry before it is cut: `quotient + extra - before`, all in the unit of the row.
/// The quotient is an end of `2 x e`.
#[inline(always)]
fn next_end(quotient: i64, extra: i64, before: i64) -> i64
    requires quotient_in { unsigned_abs quotient ≤ 2 ^ 61 }
    requires extra_in { unsigned_abs extra ≤ 2 ^ 60 }
    requires before_in { unsigned_abs before ≤ 2 ^ 60 }
    ensures { result ≡ quotient +ℤ extra -ℤ before }
{
    quotient + extra - before
}

/// Returns `z / 2^59`, rounded down: twice a product `z` of an argument in units of 2^-60 and an entry, in the unit
/// of the entry's row.
#[inline(always)]
fn floor_in_row_unit(z: i128) -> i64
    requires { unsigned_abs z ≤ 2 ^ 120 }
    ensures equals { result ≡ floor_div z (2 ^ 59) }
    ensures bound { unsigned_abs result ≤ 2 ^ 61 }
{
    (z >> 59) as i64
}

/// Returns `z / 2^59`, rounded up: twice a product `z` of an argument in units of 2^-60 and an entry, in the unit of
/// the entry's row.
#[inline(always)]
fn ceil_in_row_unit(z: i128) -> i64
    requires { unsigned_abs z ≤ 2 ^ 120 }
    ensures equals { result ≡ ceil_div z (2 ^ 59) }
    ensures bound { unsigned_abs result ≤ 2 ^ 61 }
{
    (-(-z >> 59)) as i64
}

/// Returns an entry in a unit that is `2^k` times as coarse, its ends rounded outward.
#[inline(always)]
pub(crate) fn entry_in_coarser_unit(e: Ival62, k: u32) -> Ival62
    requires e_in { EndsWithin (2 ^ 60) e }
    requires few { k ≤ 13 }
    ensures { result ≡ shifted k e }
{
    Ival62 {
        lo: floor_shift(e.lo, k),
        hi: ceil_shift(e.hi, k),
    }
}

/// Returns an end of an entry divided by `2^k`, rounded down. `k` is at most 13.
#[inline(always)]
fn floor_shift(z: i64, k: u32) -> i64
    requires { k ≤ 13 }
    ensures { result ≡ floor_div z (2 ^ k) }
{
    z >> k
}

/// Returns an end of an entry divided by `2^k`, rounded up. `k` is at most 13.
#[inline(always)]
fn ceil_shift(z: i64, k: u32) -> i64
    requires few { k ≤ 13 }
    requires above_least { unsigned_abs z ≤ 2 ^ 60 }
    ensures { result ≡ ceil_div z (2 ^ k) }
{
    -(-z >> k)
}
