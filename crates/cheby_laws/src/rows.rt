// Rows, written for as many entries as are asked, with the last two entries at hand.

ghost use Rattle.std.specs.Prelude.{◌≡◌, ℕ, ◌<◌, ◌≤◌};
ghost use Rattle.spec_chebyshev.specs.Rows.{t_row, u_row, q_row, r_row, entry, IsArguments};

use crate::entries::{
    FirstDifferences, FirstKind, Recurrence, SecondDifferences, SecondKind, next_entry_of_row,
};
use spec_chebyshev::Ival62;

/// Entries for up to 32 coefficients; entry `k` belongs to degree `k`.
pub type Row = [Ival62; 32];

/// The exponent of the unit of the row of `T`, negated: entries count in units of 2^-60, as arguments do.
pub const T_UNIT: i32 = 60;

/// The exponent of the unit of the row of `U`, negated: entries grow with the degree, and count in units of 2^-50.
pub const U_UNIT: i32 = 50;

/// The exponent of the unit of the row of `Q`, the divided differences of `T`, negated: units of 2^-46.
pub const Q_UNIT: i32 = 46;

/// The exponent of the unit of the row of `R`, the divided differences of `U`, negated: units of 2^-44.
pub const R_UNIT: i32 = 44;

/// Writes the first `n` entries of the row of T, the polynomials of the first kind, over the arguments `x`, in units
/// of 2^-60. Other entries stay.
#[inline(always)]
pub fn fill_t(x: Ival62, n: usize, t: &mut Row)
    requires n_in { n ≤ 32 }
    requires x_in { IsArguments x }
    ensures row { (k : ℕ) → k < n → entry t.new k ≡ t_row x k }
    ensures rest { (k : ℕ) → n ≤ k → entry t.new k ≡ entry t.old k }
{
    fill_row::<FirstKind>(x, n, t);
}

/// Writes the first `n` entries of the row of U, the polynomials of the second kind, over the arguments `x`, in units
/// of 2^-50. Other entries stay.
#[inline(always)]
pub fn fill_u(x: Ival62, n: usize, u: &mut Row)
    requires n_in { n ≤ 32 }
    requires x_in { IsArguments x }
    ensures row { (k : ℕ) → k < n → entry u.new k ≡ u_row x k }
    ensures rest { (k : ℕ) → n ≤ k → entry u.new k ≡ entry u.old k }
{
    fill_row::<SecondKind>(x, n, u);
}

/// Writes the first `n` entries of two rows over the arguments `x`: T, the polynomials of the first kind, in units of
/// 2^-60, and Q, their divided differences, in units of 2^-46. Other entries stay.
#[inline(always)]
pub fn fill_tq(x: Ival62, n: usize, t: &mut Row, q: &mut Row)
    requires n_in { n ≤ 32 }
    requires x_in { IsArguments x }
    ensures t_row { (k : ℕ) → k < n → entry t.new k ≡ t_row x k }
    ensures t_rest { (k : ℕ) → n ≤ k → entry t.new k ≡ entry t.old k }
    ensures q_row { (k : ℕ) → k < n → entry q.new k ≡ q_row x k }
    ensures q_rest { (k : ℕ) → n ≤ k → entry q.new k ≡ entry q.old k }
{
    fill_row_and_changes::<FirstKind, FirstDifferences>(x, n, t, q);
}

/// Writes the first `n` entries of two rows over the arguments `x`: U, the polynomials of the second kind, in units
/// of 2^-50, and R, their divided differences, in units of 2^-44. Other entries stay.
#[inline(always)]
pub fn fill_ur(x: Ival62, n: usize, u: &mut Row, r: &mut Row)
    requires n_in { n ≤ 32 }
    requires x_in { IsArguments x }
    ensures u_row { (k : ℕ) → k < n → entry u.new k ≡ u_row x k }
    ensures u_rest { (k : ℕ) → n ≤ k → entry u.new k ≡ entry u.old k }
    ensures r_row { (k : ℕ) → k < n → entry r.new k ≡ r_row x k }
    ensures r_rest { (k : ℕ) → n ≤ k → entry r.new k ≡ entry r.old k }
{
    fill_row_and_changes::<SecondKind, SecondDifferences>(x, n, u, r);
}

/// Writes the first `n` entries of a row over the arguments `x`, by its recurrence `P`, which adds nothing of another
/// row. Other entries stay.
#[inline(always)]
fn fill_row<P: Recurrence>(x: Ival62, n: usize, row: &mut Row)
    requires n_in { n ≤ 32 }
    requires x_in { IsArguments x }
    requires alone { (k : ℕ) → P.beside x k ≡ P.entries x k }
    ensures row { (k : ℕ) → k < n → entry row.new k ≡ P.entries x k }
    ensures rest { (k : ℕ) → n ≤ k → entry row.new k ≡ entry row.old k }
{
    let mut before = P::first_entry();
    let mut last = P::second_entry(x);
    write_first_entries(n, before, last, row);
    for k in 2..n {
        let made = next_entry_of_row::<P>(x, k, last, last, before);
        row[k] = made;
        before = last;
        last = made;
    }
}

/// Writes the first `n` entries of a row, by its recurrence `P`, and of the row of its divided differences, by the
/// recurrence `D`, over the arguments `x`. Other entries stay. One loop does both, so that the processor overlaps
/// their steps.
#[inline(always)]
fn fill_row_and_changes<P: Recurrence, D: Recurrence>(
    x: Ival62,
    n: usize,
    row: &mut Row,
    changes: &mut Row,
)
    requires n_in { n ≤ 32 }
    requires x_in { IsArguments x }
    requires alone { (k : ℕ) → P.beside x k ≡ P.entries x k }
    requires beside { (k : ℕ) → D.beside x k ≡ P.entries x k }
    ensures row { (k : ℕ) → k < n → entry row.new k ≡ P.entries x k }
    ensures row_rest { (k : ℕ) → n ≤ k → entry row.new k ≡ entry row.old k }
    ensures changes { (k : ℕ) → k < n → entry changes.new k ≡ D.entries x k }
    ensures changes_rest { (k : ℕ) → n ≤ k → entry changes.new k ≡ entry changes.old k }
{
    let mut before = P::first_entry();
    let mut last = P::second_entry(x);
    let mut change_before = D::first_entry();
    let mut change_last = D::second_entry(x);
    write_first_entries(n, before, last, row);
    write_first_entries(n, change_before, change_last, changes);
    for k in 2..n {
        let change = next_entry_of_row::<D>(x, k, last, change_last, change_before);
        let made = next_entry_of_row::<P>(x, k, last, last, before);
        row[k] = made;
        changes[k] = change;
        before = last;
        last = made;
        change_before = change_last;
        change_last = change;
    }
}

/// Writes entries 0 and 1 of a row, as far as `n` entries are wanted: none of them for 0, the first alone for 1.
/// Other entries stay.
#[inline(always)]
fn write_first_entries(n: usize, first: Ival62, second: Ival62, row: &mut Row)
    ensures first { 0 < n → entry row.new 0 ≡ first }
    ensures second { 1 < n → entry row.new 1 ≡ second }
    ensures rest { (k : ℕ) → n ≤ k → entry row.new k ≡ entry row.old k }
{
    if n > 0 {
        row[0] = first;
    }
    if n > 1 {
        row[1] = second;
    }
}
