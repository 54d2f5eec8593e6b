// What a quantity is within a granule, with one basis for all axes and all granules that begin and end together.
ghost use Rattle.std.specs.Prelude.{◌≡◌, ◌<◌, ◌≤◌, ℕ, true, length};
ghost use Rattle.spec_chebyshev.specs.Rows.{IsArguments};
ghost use Rattle.spec_intervals.specs.Enclosure.{middle};
ghost use Rattle.spec_ephemeris.specs.Granules.{series_of};
ghost use Rattle.spec_motions.specs.Enclosures.{arguments};
ghost use Rattle.granule_values.specs.Bases.{ArePlain, AreAll, AreKept, AreOver, AreRows, IsCentre, IsServed, IsWhole, IsSingle, AreSeveral, value_over, step_over};
ghost use Rattle.granule_values.specs.Parts.{granule_parts, if_wanted, wanted_along};

use crate::axis_entries::{AxisEntries, ColumnQuestion};
use crate::bases::{PlainRow, RowRoom, Rows};
use crate::granule_span::GranuleSpan;
use cheby_difference::{position_step_over_row, velocity_over_row, velocity_step_over_row};
use cheby_enclose::{AxisCoefficients, argument_at, arguments_by, position_over_row};
use ival_core::{Divider, Enclosure, Ival};
use spec_bodies::Quantity;
use spec_chebyshev::Ival62;

impl<'g> GranuleSpan<'g> {
    /// Writes the enclosures of the question's quantity along the question's axes, and none along the others. If the
    /// rows in `room` do not fit the granule, new ones are made, with `entries` entries or as many as are needed.
    #[inline(never)]
    pub fn write_along(
        &self,
        question: &ColumnQuestion,
        entries: usize,
        room: &mut RowRoom,
        out: &mut AxisEntries,
    )
        requires times { self.now.times.now ≡ question.now.times.now }
        requires kept { AreKept question.now room.old }
        ensures kept { AreKept question.now room.new }
        ensures along { out.new ≡ wanted_along question.now.axes
            (granule_parts self.now true question.now.quantity) }
    {
        self.keep_rows(question, entries, room);
        out.x = self.wanted_enclosure(question.axes.x, question.quantity, 0, room);
        out.y = self.wanted_enclosure(question.axes.y, question.quantity, 1, room);
        out.z = self.wanted_enclosure(question.axes.z, question.quantity, 2, room);
    }

    /// Returns the enclosure of the question's quantity along any axis, 0 for x, by rows that are made for this call.
    pub fn enclosure_by_new_rows(&self, question: &ColumnQuestion, axis: usize) -> Enclosure
        requires times { self.now.times.now ≡ question.now.times.now }
        requires axis { axis < 3 }
        ensures { result ≡ granule_parts self.now true question.now.quantity axis }
    {
        let mut room = RowRoom::new();
        self.keep_rows(question, 0, &mut room);
        self.enclosure_by_rows(question.quantity, axis, &room)
    }

    // Returns the enclosure of a quantity along an axis, counted from 0 for x, or None if not wanted.
    #[inline(always)]
    fn wanted_enclosure(
        &self,
        is_wanted: bool,
        quantity: Quantity,
        axis: usize,
        room: &RowRoom,
    ) -> Option<Enclosure>
        requires axis { axis < 3 }
        requires rows { AreRows self.now quantity room.now }
        ensures { result ≡ if_wanted is_wanted (granule_parts self.now true quantity axis) }
    {
        if is_wanted {
            Some(self.enclosure_by_rows(quantity, axis, room))
        } else {
            None
        }
    }

    // Returns the enclosure of a quantity along an axis, counted from 0 for x, by rows that were made for this granule.
    // At a single time less is calculated.
    #[inline(always)]
    fn enclosure_by_rows(&self, quantity: Quantity, axis: usize, room: &RowRoom) -> Enclosure
        requires axis { axis < 3 }
        requires rows { AreRows self.now quantity room.now }
        ensures { result ≡ granule_parts self.now true quantity axis }
    {
        if !self.times.has_several() {
            self.single_time_enclosure(quantity, axis, &room.centre)
        } else {
            self.centred_enclosure(quantity, axis, room)
        }
    }

    // Returns a quantity's enclosure over several times along an axis, with its range cut to what the steps reach from
    // the value in the middle.
    #[inline(never)]
    fn centred_enclosure(&self, quantity: Quantity, axis: usize, room: &RowRoom) -> Enclosure
        requires axis { axis < 3 }
        requires several { AreSeveral self.now }
        requires centre { IsCentre self.now quantity room.now.centre }
        requires whole { IsWhole self.now quantity room.now.whole }
        ensures { result ≡ granule_parts self.now true quantity axis }
    {
        let terms = AxisCoefficients::of(&self.granule, axis);
        let mid = value_over(quantity, &terms, &room.centre, self.divider);
        let range = value_over(quantity, &terms, &room.whole.plain, self.divider);
        let step = step_over(quantity, &terms, &room.whole, self.divider);
        self.times.wide(mid, range, step)
    }

    // Returns a quantity's enclosure along an axis at a single time: middle and range are its value, the change is 0.
    #[inline(never)]
    fn single_time_enclosure(&self, quantity: Quantity, axis: usize, centre: &PlainRow) -> Enclosure
        requires axis { axis < 3 }
        requires single { IsSingle self.now }
        requires centre { IsCentre self.now quantity centre.now }
        ensures { result ≡ granule_parts self.now true quantity axis }
    {
        let terms = AxisCoefficients::of(&self.granule, axis);
        let mid = value_over(quantity, &terms, centre, self.divider);
        self.times.single(mid)
    }

    // Makes the rows that a question needs for this granule, unless those in `room` can be used for it as they are.
    #[inline(always)]
    fn keep_rows(&self, question: &ColumnQuestion, entries: usize, room: &mut RowRoom)
        requires times { self.now.times.now ≡ question.now.times.now }
        requires kept { AreKept question.now room.old }
        ensures kept { AreKept question.now room.new }
        ensures rows { AreRows self.now question.now.quantity room.new }
    {
        if !room.has_rows_for(&self.granule) {
            self.make_rows(question, entries, room);
        }
    }

    // Makes the rows that a question needs: that in the middle of the times, and those over all if there are several.
    #[inline(always)]
    fn make_rows(&self, question: &ColumnQuestion, entries: usize, room: &mut RowRoom)
        requires { self.now.times.now ≡ question.now.times.now }
        ensures kept { AreKept question.now room.new }
        ensures served { IsServed self.now.granule room.new }
    {
        let made = self.entries_to_make(entries);
        room.turn_to(&self.granule, made);
        self.make_centre(question.quantity, made, &mut room.centre);
        if self.times.has_several() {
            self.make_whole(question.quantity, made, &mut room.whole);
        }
    }

    /// Returns how many entries to make: as many as `entries`, but at least the granule's number of coefficients, and
    /// just that number if more than 32 entries, the length of a row, are wanted.
    #[inline(always)]
    pub(crate) fn entries_to_make(&self, entries: usize) -> usize
        ensures enough { self.now.granule.n ≤ result }
        ensures few { result ≤ 32 }
    {
        if entries <= 32 {
            entries.max(self.granule.n)
        } else {
            self.granule.n
        }
    }

    // Makes the row of a quantity's basis in the middle of the times, as far as sums over `n` terms read it.
    #[inline(always)]
    fn make_centre(&self, quantity: Quantity, n: usize, row: &mut PlainRow)
        requires few { n ≤ 32 }
        ensures over { let middle = middle self.now.times.now.first self.now.times.now.last in
            AreOver self.now.granule middle middle row.new }
        ensures row { ArePlain quantity n row.new }
    {
        let argument = argument_at(&self.granule, self.middle(), self.divider);
        row.make_entries(quantity, argument, n);
    }

    /// Makes the rows of a quantity's basis and of its changes over all times, as far as sums over `n` terms read them.
    #[inline(always)]
    pub(crate) fn make_whole(&self, quantity: Quantity, n: usize, rows: &mut Rows)
        requires few { n ≤ 32 }
        ensures over { let times = self.now.times.now in
            AreOver self.now.granule times.first times.last rows.new.plain }
        ensures rows { AreAll quantity n rows.new }
    {
        let arguments = self.arguments();
        rows.make_entries(quantity, arguments, n);
    }

    /// Returns the interval of the granule's arguments over all times, in units of 2^-60.
    #[inline(always)]
    pub(crate) fn arguments(&self) -> Ival62
        ensures over { let times = self.now.times.now in
            (axis : ℕ) → result ≡ arguments (series_of self.now.granule axis) times.first times.last }
        ensures unit { IsArguments result }
    {
        let (first, last) = (self.times.first(), self.times.last());
        arguments_by(&self.granule, first, last, self.divider)
    }

    // Returns the time halfway between the first and the last, rounded down to a whole unit of time.
    #[inline(always)]
    fn middle(&self) -> i64
        ensures { result ≡ middle self.now.times.now.first self.now.times.now.last }
    {
        let (first, last) = (self.times.first(), self.times.last());
        (first + last).div_euclid(2)
    }
}

/// Returns the interval of a quantity along one axis, in km or km per unit of time, over the arguments of a basis's row.
#[inline(always)]
pub(crate) fn value_over(
    quantity: Quantity,
    terms: &AxisCoefficients,
    row: &PlainRow,
    divider: &Divider,
) -> Ival
    requires row { ArePlain quantity (length terms.now) row.now }
    ensures { result ≡ value_over quantity terms.now row.now.arguments divider.now }
{
    match quantity {
        Quantity::Position => position_over_row(terms, row.arguments, &row.values),
        Quantity::Velocity => velocity_over_row(terms, row.arguments, &row.values, divider),
    }
}

/// Returns the interval of a quantity's change in a unit of time along one axis, in km or km per unit of time.
#[inline(always)]
pub(crate) fn step_over(
    quantity: Quantity,
    terms: &AxisCoefficients,
    rows: &Rows,
    divider: &Divider,
) -> Ival
    requires rows { AreAll quantity (length terms.now) rows.now }
    ensures { result ≡ step_over quantity terms.now rows.now.plain.arguments divider.now }
{
    let x = rows.plain.arguments;
    match quantity {
        Quantity::Position => position_step_over_row(terms, x, &rows.steps, divider),
        Quantity::Velocity => velocity_step_over_row(terms, x, &rows.steps, divider),
    }
}
