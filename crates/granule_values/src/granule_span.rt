// Times within one granule.
ghost use Rattle.std.specs.Prelude.{◌≡◌, ◌≤ℤ◌, ◌+ℤ◌, unsigned_abs};
ghost use Rattle.spec_motions.specs.Granules.{IsEvaluable};

use eph_model::Granule;
use event_expr::rules::TimeSpan;
use ival_core::Divider;

/// The times from a first to a last within a granule of three axes, with the divider by the granule's seconds.
#[derive(Clone, Copy)]
pub struct GranuleSpan<'g> {
    pub granule: Granule<'g>,
    pub times: &'g TimeSpan,
    pub divider: &'g Divider,
    ghost evaluable: { IsEvaluable granule },
    ghost axes: { granule.comps ≡ 3 },
    ghost from: { granule.start ≤ℤ times.now.first },
    ghost order: { times.now.first ≤ℤ times.now.last },
    ghost upto: { times.now.last ≤ℤ (granule.start +ℤ granule.seconds) },
    ghost seconds: { divider.now ≡ unsigned_abs granule.seconds },
}
