// What a column is along each axis over a span of times, and what is asked for.
ghost use Rattle.std.specs.Prelude.{◌≡◌, ◌<◌};
ghost use Rattle.granule_values.specs.Parts.{entry_at, nothing_along};

use event_expr::Axes;
use event_expr::rules::TimeSpan;
use ival_core::Enclosure;
use spec_bodies::Quantity;

/// What a column is along the three axes, in km or km per unit of time; none along an axis that was not asked for.
#[derive(Clone, Copy)]
pub struct AxisEntries {
    pub x: Option<Enclosure>,
    pub y: Option<Enclosure>,
    pub z: Option<Enclosure>,
}

/// A question for a quantity of columns along some axes of the files, over a span of times.
#[derive(Clone, Copy)]
pub struct ColumnQuestion<'q> {
    pub quantity: Quantity,
    pub axes: Axes,
    pub times: &'q TimeSpan,
}

impl AxisEntries {
    /// Returns entries that are none along all three axes.
    #[inline(always)]
    pub fn none() -> AxisEntries
        ensures { result ≡ nothing_along }
    {
        AxisEntries {
            x: None,
            y: None,
            z: None,
        }
    }

    /// Returns the enclosure along an axis, counted from 0 for x, or None if that axis was not asked for.
    #[inline(always)]
    pub fn enclosure_along(&self, axis: usize) -> Option<Enclosure>
        requires { axis < 3 }
        ensures { result ≡ entry_at self.now axis }
    {
        match axis {
            0 => self.x,
            1 => self.y,
            _ => self.z,
        }
    }
}
