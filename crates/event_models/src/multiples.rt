// Multiples of an entry of a row.
ghost use Rattle.std.specs.Prelude.{◌≡◌, ◌≤◌, ◌<◌, ◌*◌, ◌^◌, ℕ, ℤ, length, pos, slice_index_or, ◌*ℤ◌, unsigned_abs};
ghost use Rattle.spec_models.specs.Models.{coefficient};
ghost use Rattle.event_models.specs.Rows.{AreNumbers, IsRow, IsSumRow, row_limit, sum_limit, terms};
ghost use Rattle.event_models.specs.Slopes.{IsMultiple, IsNothing};

use crate::rows::RowModel;
use span_models::TERMS;

/// Returns the entry of a row that is 0 without an error.
pub(crate) fn zero_entry() -> RowModel
    ensures row { IsSumRow result }
    ensures nothing { IsNothing result }
{
    RowModel {
        coefficients: [0; TERMS],
        size: 0,
        error: 0,
    }
}

/// Returns the model of `k` times an entry of a row, with `k` below 32.
pub(crate) fn entry_multiple(row: &RowModel, k: usize) -> RowModel
    requires few { k < 32 }
    requires row { IsRow row.now }
    ensures row { IsSumRow result }
    ensures multiple { IsMultiple k row.now result }
{
    RowModel {
        coefficients: coefficient_multiples(&row.coefficients, k),
        size: size_multiple(row.size, k),
        error: size_multiple(row.error, k),
    }
}

// Returns `k` times each coefficient of an entry, in order, with `k` below 32.
fn coefficient_multiples(coefficients: &[i64; TERMS], k: usize) -> [i64; TERMS]
    requires few { k < 32 }
    requires numbers { AreNumbers coefficients.now }
    ensures count { length result ≡ terms }
    ensures numbers { (j : ℕ) → j < terms → slice_index_or result j (pos 0)
        ≡ pos k *ℤ coefficient coefficients.now j }
    ensures small { (j : ℕ) → j < terms
        → unsigned_abs (slice_index_or result j (pos 0)) ≤ sum_limit }
{
    let mut numbers = [0; TERMS];
    for j in 0..TERMS {
        numbers[j] = coefficient_multiple(coefficients[j], k);
    }
    numbers
}

// Returns `k` times a coefficient of an entry, at most 2^60 in magnitude.
#[inline(always)]
fn coefficient_multiple(z: i64, k: usize) -> i64
    requires few { k < 32 }
    requires small { unsigned_abs z ≤ row_limit }
    ensures equals { result ≡ pos k *ℤ z }
    ensures small { unsigned_abs result ≤ sum_limit }
{
    k as i64 * z
}

// Returns `k` times the sum of magnitudes or the error of an entry.
fn size_multiple(size: u64, k: usize) -> u64
    requires few { k < 32 }
    requires small { size ≤ 2 ^ 59 }
    ensures equals { result ≡ k * size }
{
    size * k as u64
}
