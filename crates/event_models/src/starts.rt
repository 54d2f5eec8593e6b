// The first entries of the rows of T and U, and an entry of which only the magnitude is known.
ghost use Rattle.std.specs.Prelude.{◌≡◌, ◌≤◌, ◌-◌, ◌*◌, ◌^◌, ◌∷◌, pos, replicate, unsigned_abs};
ghost use Rattle.spec_numbers.specs.Numbers.{floor_div};
ghost use Rattle.event_models.specs.Rows.{IsFirst, IsLine, IsRow, IsSecond, IsSized, line_limit, row_limit, terms};

use crate::rows::{Kind, Line, RowModel};
use span_models::TERMS;

/// The number 1 in units of 2^-42.
const ONE: i64 = 1 << 42;

/// Returns the model of 1, which is the first entry of both rows, in units of 2^-42.
pub(crate) fn first_row() -> RowModel
    ensures row { IsRow result }
    ensures first { IsFirst result }
{
    linear_row(ONE, 0, 2)
}

/// Returns the model of a row's second entry, in units of 2^-42: the argument for T, and twice the argument for U.
pub(crate) fn second_row(kind: Kind, line: &Line) -> RowModel
    requires line { IsLine line.now }
    ensures row { IsRow result }
    ensures second { IsSecond kind line.now result }
{
    match kind {
        Kind::First => linear_row(floor_shift(line.middle, 18), floor_shift(line.slope, 18), 3),
        Kind::Second => linear_row(floor_shift(line.middle, 17), floor_shift(line.slope, 17), 4),
    }
}

// Returns the middle or the slope of an argument's line, in units of 2^-60, divided by `2^k` and rounded down.
fn floor_shift(z: i64, k: u32) -> i64
    requires small { unsigned_abs z ≤ line_limit }
    requires many { 17 ≤ k }
    requires few { k ≤ 18 }
    ensures equals { result ≡ floor_div z (2 ^ k) }
    ensures small { unsigned_abs result ≤ 2 ^ 44 }
{
    z >> k
}

// Returns the entry of a row with a constant and a linear coefficient, 0 for all others, and an error.
fn linear_row(first: i64, second: i64, error: u64) -> RowModel
    requires first { unsigned_abs first ≤ 2 ^ 44 }
    requires second { unsigned_abs second ≤ 2 ^ 44 }
    requires error { error ≤ row_limit }
    ensures row { IsRow result }
    ensures numbers { result.coefficients ≡ first ∷ second ∷ replicate (terms - 2) (pos 0) }
    ensures error { result.error ≡ error }
{
    let mut coefficients = [0; TERMS];
    coefficients[0] = first;
    coefficients[1] = second;
    RowModel {
        coefficients,
        size: first.unsigned_abs() + second.unsigned_abs(),
        error,
    }
}

/// Returns the model of an entry of magnitude at most `size`: 0, with that error and 2 units for the entry's rounding.
pub(crate) fn magnitude_row(size: u64) -> RowModel
    requires size { size ≤ 32 }
    ensures row { IsRow result }
    ensures sized { IsSized size result }
{
    linear_row(0, 0, size * (1 << 42) + 2)
}
