// What the sums over a span of a granule take.
ghost use Rattle.std.specs.Prelude.{◌≡◌, length, unsigned_abs};
ghost use Rattle.spec_chebyshev.specs.Rows.{IsArguments};
ghost use Rattle.spec_motions.specs.Enclosures.{arguments, coefficients_of};
ghost use Rattle.spec_ephemeris.specs.Granules.{series_of};
ghost use Rattle.cheby_enclose.specs.Spans.{IsSpanWithin};

use cheby_enclose::{AxisCoefficients, arguments};
use eph_model::Granule;
use ival_core::Divider;
use spec_chebyshev::Ival62;

// Returns what each sum over a span of a granule needs: the coefficients of an axis, the interval of the arguments of
// the times from `a` to `b`, and the divider by the granule's seconds.
#[inline(always)]
pub(crate) fn span_inputs<'g>(
    g: &Granule<'g>,
    axis: usize,
    a: i64,
    b: i64,
) -> (AxisCoefficients<'g>, Ival62, Divider)
    requires { IsSpanWithin g.now axis a b }
    ensures terms { result.0 ≡ coefficients_of (series_of g.now axis) }
    ensures count { length result.0 ≡ g.now.n }
    ensures arguments { result.1 ≡ arguments (series_of g.now axis) a b }
    ensures unit { IsArguments result.1 }
    ensures divider { result.2 ≡ unsigned_abs g.now.seconds }
{
    (
        AxisCoefficients::of(g, axis),
        arguments(g, a, b),
        Divider::of(g.seconds),
    )
}
