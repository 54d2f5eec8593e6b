// The argument of a granule over some times.
ghost use Rattle.std.specs.Prelude.{◌≡◌, ◌≤◌, ◌^◌, pos, ◌*ℤ◌, unsigned_abs};
ghost use Rattle.spec_numbers.specs.Numbers.{floor_div};
ghost use Rattle.event_models.specs.Granules.{IsGranuleOver, line_over};
ghost use Rattle.event_models.specs.Rows.{IsLine};

use crate::rows::Line;
use crate::times::ModelTimes;
use eph_model::Granule;
use ival_core::Divider;

/// Returns a granule's argument in the middle of some times, and its growth from there to the last, in units of 2^-60.
pub(crate) fn granule_line(granule: &Granule, times: &ModelTimes) -> Line
    requires granule { IsGranuleOver times.now.first times.now.last granule.now }
    ensures within { IsLine result }
    ensures equals { result ≡ line_over times.now.first times.now.last granule.now.start
        (unsigned_abs granule.now.seconds) }
{
    let after = times.first - granule.start;
    let upto = times.last - granule.start;
    let divider = Divider::of(granule.seconds);
    Line {
        middle: ratio_in_units(&divider, after + upto - granule.seconds),
        slope: ratio_in_units(&divider, upto - after),
    }
}

// Returns `z` divided by a granule's length in units of 2^-60, rounded down: at most 2^60 in magnitude.
fn ratio_in_units(divider: &Divider, z: i64) -> i64
    requires small { unsigned_abs z ≤ divider.now }
    requires short { divider.now ≤ 2 ^ 40 }
    requires some { 1 ≤ divider.now }
    ensures equals { result ≡ floor_div (z *ℤ pos (2 ^ 60)) divider.now }
    ensures within { unsigned_abs result ≤ 2 ^ 60 }
{
    divider.down(z as i128 * (1 << 60)) as i64
}
