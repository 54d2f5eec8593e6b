// Velocities, and their changes from each time of a span to the next.
ghost use Rattle.std.specs.Prelude.{◌≡◌};
ghost use Rattle.spec_ephemeris.specs.Velocity.{velocity};
ghost use Rattle.spec_motions.specs.Enclosures.{HoldsChanges, HoldsEach, velocity_interval, velocity_step_interval};
ghost use Rattle.spec_intervals.specs.Interval.{zero_interval};
ghost use Rattle.cheby_enclose.specs.Spans.{IsSpanWithin};
ghost use Rattle.spec_ephemeris.specs.Granules.{series_of};

use crate::scaled::{velocity_over_row, velocity_step_over_row};
use crate::slopes::{fill_slopes, fill_slopes_and_changes};
use crate::spans::span_inputs;
use cheby_enclose::empty_row;
use eph_model::Granule;
use ival_core::Ival;

/// Returns the interval of the velocity along one axis of a granule, in km per second: the derivative of its
/// Chebyshev series. Times go from `a` to `b`, in seconds of TDB since J2000. Axes are counted from 0.
pub fn velocity(g: &Granule, axis: usize, a: i64, b: i64) -> Ival
    requires { IsSpanWithin g.now axis a b }
    ensures equals { result ≡ velocity_interval (series_of g.now axis) a b }
    ensures holds { HoldsEach (velocity (series_of g.now axis)) a b result }
{
    let (terms, x, divider) = span_inputs(g, axis, a, b);
    let mut slopes = empty_row();
    fill_slopes(x, g.n, &mut slopes);
    velocity_over_row(&terms, x, &slopes, &divider)
}

/// Returns the interval of the changes of the velocity along one axis of a granule, in km per second, from each time
/// from `a` to `b` to the next, in seconds of TDB since J2000. If `a` and `b` are one time, nothing changes. Axes are
/// counted from 0.
pub fn velocity_step(g: &Granule, axis: usize, a: i64, b: i64) -> Ival
    requires { IsSpanWithin g.now axis a b }
    ensures equals { result ≡ velocity_step_interval (series_of g.now axis) a b }
    ensures holds { HoldsChanges (velocity (series_of g.now axis)) a b result }
    ensures one_time { a ≡ b → result ≡ zero_interval }
{
    if a < b {
        let (terms, x, divider) = span_inputs(g, axis, a, b);
        let mut slopes = empty_row();
        let mut changes = empty_row();
        fill_slopes_and_changes(x, g.n, &mut slopes, &mut changes);
        velocity_step_over_row(&terms, x, &changes, &divider)
    } else {
        Ival::zero()
    }
}
