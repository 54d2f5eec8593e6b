// The changes of a position from each time of a span to the next.
ghost use Rattle.std.specs.Prelude.{◌≡◌};
ghost use Rattle.spec_ephemeris.specs.Series.{position};
ghost use Rattle.spec_motions.specs.Enclosures.{HoldsChanges, position_step_interval};
ghost use Rattle.spec_intervals.specs.Interval.{zero_interval};
ghost use Rattle.cheby_enclose.specs.Spans.{IsSpanWithin};
ghost use Rattle.spec_ephemeris.specs.Granules.{series_of};

use crate::scaled::position_step_over_row;
use crate::spans::span_inputs;
use cheby_enclose::empty_row;
use cheby_laws::fill_tq;
use eph_model::Granule;
use ival_core::Ival;

/// Returns the interval of the changes of one coordinate of a granule, in km, from each time from `a` to `b` to the
/// next, in seconds of TDB since J2000. If `a` and `b` are one time, nothing changes. Axes are counted from 0.
pub fn position_step(g: &Granule, axis: usize, a: i64, b: i64) -> Ival
    requires { IsSpanWithin g.now axis a b }
    ensures equals { result ≡ position_step_interval (series_of g.now axis) a b }
    ensures holds { HoldsChanges (position (series_of g.now axis)) a b result }
    ensures one_time { a ≡ b → result ≡ zero_interval }
{
    if a < b {
        let (terms, x, divider) = span_inputs(g, axis, a, b);
        let mut t = empty_row();
        let mut q = empty_row();
        fill_tq(x, g.n, &mut t, &mut q);
        position_step_over_row(&terms, x, &q, &divider)
    } else {
        Ival::zero()
    }
}
