// What a quantity's range is within a granule, and how it changes, without a look at the middle.
ghost use Rattle.std.specs.Prelude.{◌≡◌, ◌<◌, false};
ghost use Rattle.spec_ephemeris.specs.Granules.{series_of};
ghost use Rattle.spec_motions.specs.Enclosures.{coefficients_of};
ghost use Rattle.spec_bodies.specs.Views.{step_interval};
ghost use Rattle.granule_values.specs.Bases.{IsWhole};
ghost use Rattle.granule_values.specs.Parts.{granule_parts, if_wanted, wanted_along};

use crate::axis_entries::{AxisEntries, ColumnQuestion};
use crate::bases::Rows;
use crate::evaluation::{step_over, value_over};
use crate::granule_span::GranuleSpan;
use crate::range_rows::RangeRows;
use cheby_enclose::AxisCoefficients;
use ival_core::{Enclosure, Ival};
use spec_bodies::Quantity;

impl<'g> GranuleSpan<'g> {
    /// Writes the ranges of the question's quantity along the question's axes, and none along the others. If the rows
    /// that it needs are not among `rows`, they are made there, with `entries` entries or as many as are needed.
    #[inline(never)]
    pub fn write_ranges_along(
        &self,
        question: &ColumnQuestion,
        entries: usize,
        rows: &mut RangeRows,
        out: &mut AxisEntries,
    )
        ensures { out.new ≡ wanted_along question.now.axes
            (granule_parts self.now false question.now.quantity) }
    {
        let whole = self.rows_among(question.quantity, entries, rows);
        out.x = self.wanted_range(question.axes.x, question.quantity, 0, whole);
        out.y = self.wanted_range(question.axes.y, question.quantity, 1, whole);
        out.z = self.wanted_range(question.axes.z, question.quantity, 2, whole);
    }

    /// Returns the range of a quantity along any axis, 0 for x, by rows that are made for this call.
    #[inline(never)]
    pub fn range_by_new_rows(&self, quantity: Quantity, axis: usize) -> Enclosure
        requires axis { axis < 3 }
        ensures { result ≡ granule_parts self.now false quantity axis }
    {
        let mut whole = Rows::none();
        let entries = self.entries_to_make(0);
        self.make_whole(quantity, entries, &mut whole);
        self.range_by_rows(quantity, axis, &whole)
    }

    // Returns a quantity's rows over all times from among `rows`, where they are made unless they are there.
    #[inline(always)]
    fn rows_among<'r>(
        &self,
        quantity: Quantity,
        entries: usize,
        rows: &'r mut RangeRows,
    ) -> &'r Rows
        ensures { IsWhole self.now quantity result.now }
    {
        let entries = self.entries_to_make(entries);
        rows.rows_over(quantity, self.arguments(), entries)
    }

    // Returns the range of a quantity along an axis, counted from 0 for x, or None if not wanted.
    #[inline(always)]
    fn wanted_range(
        &self,
        is_wanted: bool,
        quantity: Quantity,
        axis: usize,
        whole: &Rows,
    ) -> Option<Enclosure>
        requires axis { axis < 3 }
        requires whole { IsWhole self.now quantity whole.now }
        ensures { result ≡ if_wanted is_wanted (granule_parts self.now false quantity axis) }
    {
        if is_wanted {
            Some(self.range_by_rows(quantity, axis, whole))
        } else {
            None
        }
    }

    // Returns the range of a quantity along an axis, which stands for the value in the middle as well, and its changes.
    #[inline(never)]
    fn range_by_rows(&self, quantity: Quantity, axis: usize, whole: &Rows) -> Enclosure
        requires axis { axis < 3 }
        requires whole { IsWhole self.now quantity whole.now }
        ensures { result ≡ granule_parts self.now false quantity axis }
    {
        let terms = AxisCoefficients::of(&self.granule, axis);
        let range = value_over(quantity, &terms, &whole.plain, self.divider);
        let step = self.changes_over(quantity, axis, &terms, whole);
        Enclosure {
            mid: range,
            range,
            step,
        }
    }

    // Returns the interval of a quantity's changes in a unit of time along an axis, whose coefficients `terms` are. At a
    // single time it is 0.
    #[inline(always)]
    fn changes_over(
        &self,
        quantity: Quantity,
        axis: usize,
        terms: &AxisCoefficients,
        whole: &Rows,
    ) -> Ival
        requires whole { IsWhole self.now quantity whole.now }
        requires terms { terms.now ≡ coefficients_of (series_of self.now.granule axis) }
        ensures { let times = self.now.times.now in
            result ≡ step_interval quantity (series_of self.now.granule axis) times.first times.last }
    {
        if self.times.has_several() {
            step_over(quantity, terms, whole, self.divider)
        } else {
            Ival::zero()
        }
    }
}
