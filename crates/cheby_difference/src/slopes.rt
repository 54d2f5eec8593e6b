// Rows of the polynomials' derivatives, and of the divided differences of these.
ghost use Rattle.std.specs.Prelude.{◌≡◌, ℕ, suc, ◌<◌, ◌≤◌, ◌*◌, ◌^◌, unsigned_abs};
ghost use Rattle.spec_chebyshev.specs.Rows.{u_row, r_row, entry, IsArguments};
ghost use Rattle.spec_motions.specs.RowSizes.{entry_size};
ghost use Rattle.spec_motions.specs.Sums.{times};
ghost use Rattle.cheby_difference.specs.Slopes.{AreSlopes};

use cheby_laws::{Row, fill_u, fill_ur};
use spec_chebyshev::Ival62;

/// Writes the row of slopes over the arguments `x`, as far as sums over `n` coefficients read it: `n - 1` entries. By
/// `T_k' = k U_(k-1)` entry `k` is that of degree `k + 1`, `(k + 1) U_k`, in units of 2^-50. For an `n` of 0 nothing
/// is written.
#[inline(always)]
pub fn fill_slopes(x: Ival62, n: usize, slopes: &mut Row)
    requires n_in { n ≤ 32 }
    requires x_in { IsArguments x }
    ensures { AreSlopes n slopes.new (u_row x) }
{
    let entries = n.saturating_sub(1);
    fill_u(x, entries, slopes);
    multiply_by_degrees(entries, slopes);
}

/// Writes the row of slopes, as `fill_slopes` does, and the row of their divided differences, with `n - 1` entries
/// too. Entry `k` of that one is `(k + 1) R_k`, in units of 2^-44.
#[inline(always)]
pub fn fill_slopes_and_changes(x: Ival62, n: usize, slopes: &mut Row, changes: &mut Row)
    requires n_in { n ≤ 32 }
    requires x_in { IsArguments x }
    ensures slopes { AreSlopes n slopes.new (u_row x) }
    ensures changes { AreSlopes n changes.new (r_row x) }
{
    let entries = n.saturating_sub(1);
    fill_ur(x, entries, slopes, changes);
    multiply_by_degrees(entries, slopes);
    multiply_by_degrees(entries, changes);
}

// Multiplies the first entries of a row, which starts with degree 1, by their degrees: entry 0 by 1, entry 1 by 2,
// and so on. Other entries stay as the caller left them.
#[inline(always)]
fn multiply_by_degrees(entries: usize, row: &mut Row)
    requires few { entries ≤ 32 }
    requires fits { (k : ℕ) → k < entries → suc k * entry_size row.old k < 2 ^ 63 }
    ensures { (k : ℕ) → k < entries → entry row.new k ≡ times (suc k) (entry row.old k) }
{
    for k in 0..entries {
        row[k] = entry_times_degree(k + 1, row[k]);
    }
}

// Returns an entry of a row times its degree, end by end. Both ends stay within 64 bits, as the caller knows.
#[inline(always)]
fn entry_times_degree(degree: usize, e: Ival62) -> Ival62
    requires few { degree ≤ 32 }
    requires lo_fits { degree * unsigned_abs e.lo < 2 ^ 63 }
    requires hi_fits { degree * unsigned_abs e.hi < 2 ^ 63 }
    ensures { result ≡ times degree e }
{
    Ival62 {
        lo: degree as i64 * e.lo,
        hi: degree as i64 * e.hi,
    }
}
