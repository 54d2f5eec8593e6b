// Sums over the rows of the bases, scaled by what an argument gains in one second.
ghost use Rattle.std.specs.Prelude.{◌≡◌, ◌<◌, ◌≤◌, ◌^◌, length, pos, unsigned_abs, ◌*ℤ◌};
ghost use Rattle.spec_numbers.specs.Numbers.{floor_div, ceil_div};
ghost use Rattle.spec_chebyshev.specs.Rows.{u_row, q_row, r_row, IsArguments};
ghost use Rattle.spec_motions.specs.RowSizes.{IsRow};
ghost use Rattle.cheby_difference.specs.Slopes.{AreSlopes};
ghost use Rattle.spec_motions.specs.Enclosures.{position_step_over, velocity_over, velocity_step_over};

use cheby_enclose::{AxisCoefficients, WideEnds, row_sum, slope_sum};
use cheby_laws::{Q_UNIT, R_UNIT, Row, U_UNIT};
use ival_core::{DISTANCE_EXPONENT, Divider, Ival};
use spec_chebyshev::Ival62;

/// The exponent of 2 of a sum of coefficients, in the unit of distances, times entries of the row of Q.
const POSITION_STEP_EXPONENT: i32 = DISTANCE_EXPONENT - Q_UNIT;

/// The exponent of 2 of a sum of coefficients, in the unit of distances, times entries of the row of U.
const VELOCITY_EXPONENT: i32 = DISTANCE_EXPONENT - U_UNIT;

/// The exponent of 2 of a sum of coefficients, in the unit of distances, times entries of the row of R.
const VELOCITY_STEP_EXPONENT: i32 = DISTANCE_EXPONENT - R_UNIT;

/// Returns the interval of the changes of a coordinate from each time to the next, in km, over the arguments `x`. It
/// is the sum of the products of its coefficients with the row of Q, the divided differences of T, times the `2 /
/// seconds` that an argument gains in a second. The divider is that of the granule's seconds.
#[inline(always)]
pub fn position_step_over_row(
    terms: &AxisCoefficients,
    x: Ival62,
    q: &Row,
    divider: &Divider,
) -> Ival
    requires arguments { IsArguments x }
    requires q { IsRow (length terms.now) q.now (q_row x) }
    ensures { result ≡ position_step_over terms.now x divider.now }
{
    let sum = row_sum(terms, q);
    Ival::scale_by(sum.lo, sum.hi, POSITION_STEP_EXPONENT, divider)
}

/// Returns the interval of the velocity along one axis, in km per second, over the arguments `x`: the derivative of
/// JPL's sum. By `T_k' = k U_(k-1)` it is the sum of k C_k U_(k-1) times `2 / seconds`. The row is that of slopes, of
/// `fill_slopes`.
#[inline(always)]
pub fn velocity_over_row(
    terms: &AxisCoefficients,
    x: Ival62,
    slopes: &Row,
    divider: &Divider,
) -> Ival
    requires arguments { IsArguments x }
    requires slopes { AreSlopes (length terms.now) slopes.now (u_row x) }
    ensures { result ≡ velocity_over terms.now x divider.now }
{
    let sum = slope_sum(terms, slopes);
    Ival::scale_by(sum.lo, sum.hi, VELOCITY_EXPONENT, divider)
}

/// Returns the interval of the changes of the velocity along one axis from each time to the next, in km per second,
/// over the arguments `x`. It is the sum of k C_k R_(k-1), with the divided differences R of U, times `2 / seconds`
/// twice and normalized once. The row is that of the changes of slopes, of `fill_slopes_and_changes`.
#[inline(always)]
pub fn velocity_step_over_row(
    terms: &AxisCoefficients,
    x: Ival62,
    changes: &Row,
    divider: &Divider,
) -> Ival
    requires arguments { IsArguments x }
    requires changes { AreSlopes (length terms.now) changes.now (r_row x) }
    ensures { result ≡ velocity_step_over terms.now x divider.now }
{
    let sum = scale_ends_once(slope_sum(terms, changes), divider);
    Ival::scale_by(sum.lo, sum.hi, VELOCITY_STEP_EXPONENT, divider)
}

// Returns both ends of a sum times `2 / seconds`, the low one rounded down and the high one up. They are not
// normalized, since a change of velocity is scaled a second time.
#[inline(always)]
fn scale_ends_once(sum: WideEnds, divider: &Divider) -> WideEnds
    requires lo_size { unsigned_abs sum.lo < 2 ^ 125 }
    requires hi_size { unsigned_abs sum.hi < 2 ^ 125 }
    ensures lo { result.lo ≡ floor_div (pos 2 *ℤ sum.lo) divider.now }
    ensures hi { result.hi ≡ ceil_div (pos 2 *ℤ sum.hi) divider.now }
    ensures lo_size { unsigned_abs result.lo < 2 ^ 126 }
    ensures hi_size { unsigned_abs result.hi < 2 ^ 126 }
    ensures positive { 1 ≤ divider.now }
{
    WideEnds {
        lo: scale_low_end(sum.lo, divider),
        hi: scale_high_end(sum.hi, divider),
    }
}

// Returns the low end of a sum times `2 / seconds`, rounded down.
#[inline(always)]
fn scale_low_end(z: i128, divider: &Divider) -> i128
    requires size { unsigned_abs z < 2 ^ 125 }
    ensures equals { result ≡ floor_div (pos 2 *ℤ z) divider.now }
    ensures bound { unsigned_abs result < 2 ^ 126 }
    ensures positive { 1 ≤ divider.now }
{
    divider.down(2 * z)
}

// Returns the high end of a sum times `2 / seconds`, rounded up.
#[inline(always)]
fn scale_high_end(z: i128, divider: &Divider) -> i128
    requires size { unsigned_abs z < 2 ^ 125 }
    ensures equals { result ≡ ceil_div (pos 2 *ℤ z) divider.now }
    ensures bound { unsigned_abs result < 2 ^ 126 }
{
    divider.up(2 * z)
}
