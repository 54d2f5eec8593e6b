// Sums of coefficients times the models of the entries of a row.
ghost use Rattle.std.specs.Prelude.{◌≡◌, ◌≤◌, ◌<◌, ◌+◌, ◌*◌, ◌^◌, ◌-◌, ℕ, length, slice_index_or, pos, ◌+ℤ◌, ◌*ℤ◌, ◌≤ℤ◌, IfSome, false, unsigned_abs};
ghost use Rattle.spec_motions.specs.Pairs.{ArePairs, IsPair};
ghost use Rattle.spec_models.specs.Models.{coefficient};
ghost use Rattle.event_models.specs.Rows.{AreSumRows, IsSumRow, sum_limit, terms};
ghost use Rattle.event_models.specs.Sums.{AreNumbersWithin, AreNumbersOfSum, IsErrorOfSum, IsSumOf, IsWideWithin, added_error, half};

use crate::rows::{ENTRIES, RowModel};
use span_models::TERMS;
use spec_ephemeris::Rounded;

/// The number of coefficients that are summed in one pass over the series: the sums of all need more registers than
/// there are.
const HALF: usize = TERMS / 2;

/// A polynomial with a bound of its error, in 128 bits.
#[derive(Clone, Copy)]
pub(crate) struct Wide {
    pub coefficients: [i128; TERMS],
    pub error: u128,
}

/// Returns the sum of the coefficients of a series from a place on, each times its entry of a row. None is returned if
/// the two roundings of a coefficient differ by more than one, as no coefficient of an ephemeris does. The call is not
/// inlined, so that its loops have all registers.
#[inline(never)]
pub(crate) fn weighted_sum(
    pairs: &[Rounded],
    rows: &[RowModel; ENTRIES],
    from: usize,
) -> Option<Wide>
    requires pairs { ArePairs pairs.now }
    requires rows { AreSumRows (length pairs.now) rows.now }
    requires from { from ≤ length pairs.now }
    ensures within { IfSome result (IsWideWithin 32) }
    ensures covers { IfSome result (IsSumOf pairs.now rows.now from) }
{
    let error = sum_error(pairs, rows, from)?;
    let low = half_sum(pairs, rows, from, 0);
    let high = half_sum(pairs, rows, from, HALF);
    Some(Wide {
        coefficients: joined(&low, &high),
        error,
    })
}

// Returns a bound of the sum's error, or None if the two roundings of a coefficient differ by more than one.
fn sum_error(pairs: &[Rounded], rows: &[RowModel; ENTRIES], from: usize) -> Option<u128>
    requires pairs { ArePairs pairs.now }
    requires rows { AreSumRows (length pairs.now) rows.now }
    requires from { from ≤ length pairs.now }
    ensures { IfSome result (IsErrorOfSum pairs.now rows.now (length pairs.now - from)) }
{
    let mut error: u128 = 0;
    for i in 0..pairs.len() - from {
        let k = pairs.len() - 1 - i;
        if are_ends_apart(pairs[k]) {
            return None;
        }
        error = error_with_product(error, pairs[k], &rows[k], i);
    }
    Some(error)
}

// Tells whether the two roundings of a coefficient differ by more than one.
fn are_ends_apart(pair: Rounded) -> bool
    requires { IsPair pair }
    ensures { result ≡ false → pair.hi ≤ℤ (pair.lo +ℤ pos 1) }
{
    pair.lo + 1 < pair.hi
}

// Returns a bound of the sum's error after a product is added: what it was, the error of the entry times the coefficient,
// and as much as the entry times 1, by which the coefficient may be above its lower end. The sum has `count` products
// before.
#[inline(always)]
fn error_with_product(own: u128, pair: Rounded, row: &RowModel, count: usize) -> u128
    requires few { count < 32 }
    requires own { own ≤ count * 2 ^ 121 }
    requires pair { IsPair pair }
    requires row { IsSumRow row.now }
    ensures equals { result ≡ added_error pair.lo row.now own }
    ensures small { result ≤ (count + 1) * 2 ^ 121 }
{
    let wide = u128::from(pair.lo.unsigned_abs()) * u128::from(row.error);
    own + wide + u128::from(row.size) + u128::from(row.error)
}

// Returns the coefficients of the sum from `from_term` on, as many as a pass sums: the lower ends of the series'
// coefficients times those of the entries.
#[inline(always)]
fn half_sum(
    pairs: &[Rounded],
    rows: &[RowModel; ENTRIES],
    from: usize,
    from_term: usize,
) -> [i128; HALF]
    requires pairs { ArePairs pairs.now }
    requires rows { AreSumRows (length pairs.now) rows.now }
    requires from { from ≤ length pairs.now }
    requires from_term { from_term + half ≤ terms }
    ensures count { length result ≡ half }
    ensures numbers { AreNumbersOfSum pairs.now rows.now from_term (length pairs.now - from) result }
    ensures small { AreNumbersWithin half (32 * 2 ^ 120) result }
{
    let mut sums: [i128; HALF] = [0; HALF];
    for i in 0..pairs.len() - from {
        let k = pairs.len() - 1 - i;
        add_products(&mut sums, pairs[k], &rows[k], from_term, i);
    }
    sums
}

// Adds the lower end of a coefficient of the series times each coefficient of the model `row` from `from_term` on to
// `sums`, each of which has `count` such products before, which keeps it within 128 bits.
#[inline(always)]
fn add_products(
    sums: &mut [i128; HALF],
    pair: Rounded,
    row: &RowModel,
    from_term: usize,
    count: usize,
)
    requires few { count < 32 }
    requires from_term { from_term + half ≤ terms }
    requires length { length sums.old ≡ half }
    requires within { AreNumbersWithin half (count * 2 ^ 120) sums.old }
    requires row { IsSumRow row.now }
    requires pair { IsPair pair }
    ensures length { length sums.new ≡ half }
    ensures numbers { (k : ℕ) → k < half → slice_index_or sums.new k (pos 0)
        ≡ coefficient sums.old k +ℤ pair.lo *ℤ coefficient row.now.coefficients (from_term + k) }
    ensures small { AreNumbersWithin half ((count + 1) * 2 ^ 120) sums.new }
{
    for k in 0..HALF {
        sums[k] = number_with_product(sums[k], pair.lo, row.coefficients[from_term + k], count);
    }
}

// Returns a coefficient of the sum after a product is added: `own + low entry`.
#[inline(always)]
fn number_with_product(own: i128, low: i64, entry: i64, count: usize) -> i128
    requires few { count < 32 }
    requires own { unsigned_abs own ≤ count * 2 ^ 120 }
    requires low { unsigned_abs low ≤ 2 ^ 60 }
    requires entry { unsigned_abs entry ≤ sum_limit }
    ensures equals { result ≡ own +ℤ low *ℤ entry }
    ensures small { unsigned_abs result ≤ (count + 1) * 2 ^ 120 }
{
    own + product(low, entry)
}

// Returns the exact product of two numbers, extended to 128 bits here so that one 64-bit multiplication is compiled.
#[inline(always)]
fn product(low: i64, entry: i64) -> i128
    requires low { unsigned_abs low ≤ 2 ^ 60 }
    requires entry { unsigned_abs entry ≤ sum_limit }
    ensures equals { result ≡ low *ℤ entry }
    ensures small { unsigned_abs result ≤ 2 ^ 120 }
{
    low as i128 * entry as i128
}

// Returns the numbers of both halves of a sum, the lower half first.
#[inline(always)]
fn joined(low: &[i128; HALF], high: &[i128; HALF]) -> [i128; TERMS]
    requires low { AreNumbersWithin half (32 * 2 ^ 120) low.now }
    requires high { AreNumbersWithin half (32 * 2 ^ 120) high.now }
    ensures count { length result ≡ terms }
    ensures low { (k : ℕ) → k < half → slice_index_or result k (pos 0) ≡ coefficient low.now k }
    ensures high { (k : ℕ) → k < half → slice_index_or result (half + k) (pos 0)
        ≡ coefficient high.now k }
{
    let mut numbers: [i128; TERMS] = [0; TERMS];
    for k in 0..HALF {
        numbers[k] = low[k];
        numbers[HALF + k] = high[k];
    }
    numbers
}
