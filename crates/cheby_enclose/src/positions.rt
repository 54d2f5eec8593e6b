// The interval of a coordinate over a span of times.
ghost use Rattle.std.specs.Prelude.{◌≡◌, length};
ghost use Rattle.spec_chebyshev.specs.Rows.{t_row, IsArguments};
ghost use Rattle.spec_ephemeris.specs.Series.{position};
ghost use Rattle.spec_motions.specs.Enclosures.{HoldsEach, IsTight, position_interval, position_over};
ghost use Rattle.spec_motions.specs.RowSizes.{IsRow};
ghost use Rattle.cheby_enclose.specs.EmptyRow.{no_row};
ghost use Rattle.cheby_enclose.specs.Spans.{IsSpanWithin};
ghost use Rattle.spec_ephemeris.specs.Granules.{series_of};

use crate::granules::arguments;
use crate::sums::row_sum;
use crate::terms::AxisCoefficients;
use cheby_laws::{Row, T_UNIT, fill_t};
use eph_model::Granule;
use ival_core::{DISTANCE_EXPONENT, Ival};
use spec_chebyshev::Ival62;

/// The exponent of 2 of a sum of coefficients, in the unit of distances, times entries of the row of T.
const POSITION_EXPONENT: i32 = DISTANCE_EXPONENT - T_UNIT;

/// Returns a row of 32 entries that are all 0, into which a basis is then written.
#[inline(always)]
pub fn empty_row() -> Row
    ensures { result ≡ no_row }
{
    [Ival62 { lo: 0, hi: 0 }; 32]
}

/// Returns the interval of a coordinate, in km, over the arguments `x`: JPL's sum of `c_k T_k(x)`. The products of the
/// terms with the row of T are added in 128 bits. The sum is normalized once, to ends of at most 2^62 in magnitude.
#[inline(always)]
pub fn position_over_row(terms: &AxisCoefficients, x: Ival62, t: &Row) -> Ival
    requires arguments { IsArguments x }
    requires t { IsRow (length terms.now) t.now (t_row x) }
    ensures { result ≡ position_over terms.now x }
{
    let sum = row_sum(terms, t);
    Ival::of(sum.lo, sum.hi, POSITION_EXPONENT)
}

/// Returns the interval of one coordinate of a granule, in km, from time `a` to time `b`, in seconds of TDB since
/// J2000. It holds JPL's Chebyshev sum at each of these times. Axes are counted from 0. Over one time it is at most
/// the sum of `|c_k| 3^(k+1) 2^-59`, and `(n + 2) 2^-23`, km wide.
pub fn position(g: &Granule, axis: usize, a: i64, b: i64) -> Ival
    requires { IsSpanWithin g.now axis a b }
    ensures equals { result ≡ position_interval (series_of g.now axis) a b }
    ensures holds { HoldsEach (position (series_of g.now axis)) a b result }
    ensures tight { a ≡ b → IsTight (series_of g.now axis).coefficients result }
{
    let terms = AxisCoefficients::of(g, axis);
    let x = arguments(g, a, b);
    let mut t = empty_row();
    fill_t(x, g.n, &mut t);
    position_over_row(&terms, x, &t)
}
