// Where the row of a granule is kept.
ghost use Rattle.std.specs.Prelude.{◌<◌, IsTrue};

use crate::rows::Line;
use eph_model::Granule;

/// A granule by its start and its length, in units of time, with its line over some times and the place of a row that
/// may serve it.
#[derive(Clone, Copy)]
pub(crate) struct GranuleRow {
    pub start: i64,
    pub seconds: i64,
    pub line: Line,
    pub place: usize,
    ghost within: { place < 16 },
}

impl GranuleRow {
    ghost use Rattle.event_models.specs.Granules.{IsOfGranule};

    /// Tells whether this is a granule with the same start and length, whatever its coefficients.
    pub fn is_of(&self, granule: &Granule) -> bool
        ensures { IsTrue result → IsOfGranule granule.now self.now }
    {
        granule.start == self.start && granule.seconds == self.seconds
    }
}
