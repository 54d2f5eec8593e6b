// Rows of the arguments of the polynomials, and of the bases over them.
ghost use Rattle.std.specs.Prelude.{◌<◌, ◌≤◌, ◌≤ℤ◌, IfOk, neg_ℤ, pos};
ghost use Rattle.spec_chebyshev.specs.Rows.{IsArguments};

use crate::fields::{Fields, RowError};
use crate::parts::next_pair;
use cheby_laws::{
    Basis, Ival62, argument, argument_of, basis_q, basis_r, basis_t, basis_u, fill_tq, fill_ur,
};
use ival_core::Divider;

// The number 1 in units of 2^-60.
const ONE: i64 = 1 << 60;

// The entries of a row of a basis.
const MAX_ENTRIES: usize = 32;

// The two ends of an interval.
type Ends = (i64, i64);

// Returns the ends of the argument of one time, `u / seconds` rounded outward in units of 2^-60. The numerator `u` is
// from `-seconds` at the start of a granule to `seconds` at its end.
fn argument_of_one_time(u: i64, seconds: i64) -> Ends
    requires length { pos 1 ≤ℤ seconds }
    requires from_start { neg_ℤ seconds ≤ℤ u }
    requires to_end { u ≤ℤ seconds }
{
    let x = argument_of(u, &Divider::of(seconds));
    (x.lo, x.hi)
}

/// Compares the arguments of a span of a granule: the row has the numerators of the span's first and last time, the
/// granule's seconds, and the ends of the interval of arguments. For a span of one time the argument of that time
/// alone is compared too.
pub(crate) fn argument_agrees(fields: &mut Fields<'_>) -> Result<bool, RowError> {
    let (ua, ub) = next_pair(fields);
    let seconds = fields.next_number::<i64>();
    let expected = next_pair(fields);
    if seconds < 1 || ua < -seconds || ub < ua || seconds < ub {
        return Err(RowError::Malformed);
    }
    let x = argument(ua, ub, seconds);
    let is_single = ua != ub || argument_of_one_time(ua, seconds) == expected;
    Ok(is_single && (x.lo, x.hi) == expected)
}

// Reads an interval of arguments, in units of 2^-60. One that does not lie from -1 to 1 is malformed.
fn next_arguments(fields: &mut Fields<'_>) -> Result<Ival62, RowError>
    ensures { IfOk result IsArguments }
{
    let (lo, hi) = next_pair(fields);
    if lo < -ONE || hi < lo || ONE < hi {
        return Err(RowError::Malformed);
    }
    Ok(Ival62 { lo, hi })
}

// Makes the four rows of a basis, t, u, q and r, with 0 in each entry.
fn zero_rows() -> Basis {
    let zeros = [Ival62 { lo: 0, hi: 0 }; MAX_ENTRIES];
    Basis {
        t: zeros,
        u: zeros,
        q: zeros,
        r: zeros,
    }
}

// Makes the four rows of a basis over the arguments `x` up to `n` entries, by the calls that make one row each.
fn rows_one_by_one(x: Ival62, n: usize) -> Basis
    requires n_in { n ≤ 32 }
    requires x_in { IsArguments x }
{
    let mut basis = zero_rows();
    basis_t(x, n, &mut basis);
    basis_u(x, n, &mut basis);
    basis_q(x, n, &mut basis);
    basis_r(x, n, &mut basis);
    basis
}

// Makes the four rows of a basis over the arguments `x` up to `n` entries, by the calls that make two rows each.
fn rows_two_by_two(x: Ival62, n: usize) -> Basis
    requires n_in { n ≤ 32 }
    requires x_in { IsArguments x }
{
    let mut basis = zero_rows();
    fill_tq(x, n, &mut basis.t, &mut basis.q);
    fill_ur(x, n, &mut basis.u, &mut basis.r);
    basis
}

// Returns the ends of entry `k` of each of the four rows of a basis: t, u, q and r.
fn entries_at(basis: &Basis, k: usize) -> [Ends; 4]
    requires { k < 32 }
{
    let (t, u, q, r) = (basis.t[k], basis.u[k], basis.q[k], basis.r[k]);
    [(t.lo, t.hi), (u.lo, u.hi), (q.lo, q.hi), (r.lo, r.hi)]
}

// Reads the ends that a row expects of one entry of each of the four rows of a basis: t, u, q and r.
fn expected_entries(fields: &mut Fields<'_>) -> [Ends; 4] {
    [
        next_pair(fields),
        next_pair(fields),
        next_pair(fields),
        next_pair(fields),
    ]
}

// Tells whether the four rows of a basis over the arguments `x`, up to `n` entries, have the expected entries at place
// `k`, both if they are made one by one and two by two.
fn rows_have_entries(x: Ival62, n: usize, k: usize, expected: &[Ends; 4]) -> bool
    requires n_in { n ≤ 32 }
    requires k_in { k < n }
    requires x_in { IsArguments x }
{
    let are_rows = entries_at(&rows_one_by_one(x, n), k) == *expected;
    let are_pairs = entries_at(&rows_two_by_two(x, n), k) == *expected;
    are_rows && are_pairs
}

/// Compares a basis: the row has an interval of arguments, a count of entries, a place below the count, and the ends
/// of the entries of the four rows at this place.
pub(crate) fn basis_agrees(fields: &mut Fields<'_>) -> Result<bool, RowError> {
    let x = next_arguments(fields)?;
    let n = fields.next_number::<usize>();
    let k = fields.next_number::<usize>();
    let expected = expected_entries(fields);
    if k >= n || n > MAX_ENTRIES {
        return Err(RowError::Malformed);
    }
    Ok(rows_have_entries(x, n, k, &expected))
}
