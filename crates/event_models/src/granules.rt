// The granules of columns over some times, and the rounded coefficients of their axes.
ghost use Rattle.std.specs.Prelude.{◌≡◌, ◌<◌, ℕ, length, map};
ghost use Rattle.spec_ephemeris.specs.Granules.{series_at, series_of};
ghost use Rattle.spec_motions.specs.Enclosures.{coefficients_of};
ghost use Rattle.spec_motions.specs.Granules.{IsEvaluable};
ghost use Rattle.spec_bodies.specs.Reading.{IsUsable};
ghost use Rattle.spec_bodies.specs.Views.{Fits};
ghost use Rattle.spec_motions.specs.Pairs.{ArePairs, term_of};
ghost use Rattle.event_models.specs.Granules.{IsGranuleOver};

use crate::times::ModelTimes;
use body_states::{BodyStates, Ephemeris};
use eph_model::{Granule, Rounded};

/// Returns the granule of a column in which some times lie. The column is one that the states use.
pub(crate) fn column_granule<'e>(
    states: &BodyStates,
    ephemeris: &'e Ephemeris,
    number: usize,
    times: &ModelTimes,
) -> Granule<'e>
    requires same { states.now.ephemeris ≡ ephemeris.now }
    requires fits { Fits states.now times.now.first times.now.last }
    requires usable { IsUsable states.now number }
    ensures over { IsGranuleOver times.now.first times.now.last result }
    ensures series { (axis : ℕ)
        → series_of result axis ≡ series_at states.now.ephemeris number axis times.now.first }
{
    ephemeris.granule(number, times.first)
}

/// Returns a granule's coefficients along an axis in order, each rounded down and rounded up to units of 2^-24.
pub(crate) fn axis_coefficients<'g>(granule: &Granule<'g>, axis: usize) -> &'g [Rounded]
    requires granule { IsEvaluable granule.now }
    requires axis { axis < granule.now.comps }
    ensures pairs { ArePairs result.now }
    ensures terms { map term_of result.now ≡ coefficients_of (series_of granule.now axis) }
    ensures count { length result.now ≡ granule.now.n }
{
    let from = axis * granule.n;
    &granule.rounded[from..from + granule.n]
}
