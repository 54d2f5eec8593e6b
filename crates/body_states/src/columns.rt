// What is made of the columns in use over a span of times, with each basis made once.
ghost use Rattle.std.specs.Prelude.{◌≡◌, ◌+◌, ◌*◌, ◌<◌, ◌≤◌, true, ℕ, length, Contains, IfSome, IsSome};
ghost use Rattle.spec_ephemeris.specs.Granules.{series_at, series_of};
ghost use Rattle.spec_bodies.specs.Reading.{IsUsable};
ghost use Rattle.spec_bodies.specs.Views.{Fits};
ghost use Rattle.event_expr.specs.Leaves.{has_axis};
ghost use Rattle.granule_values.specs.Bases.{AreKept};
ghost use Rattle.body_states.specs.Dividers.{granule_seconds};
ghost use Rattle.body_states.specs.Ranges.{AreEntries, AreWritten, asked_of, column_parts, entry_of, is_any, kept_columns, turn_of};

use crate::column_entries::{ColumnEntry, find_axis_entries};
use crate::sources::KEPT_COLUMNS;
use crate::states::{BodyStates, divider_of};
use event_expr::Axes;
use event_expr::rules::TimeSpan;
use granule_values::{ColumnQuestion, GranuleSpan, RowRoom};
use ival_core::{Divider, Enclosure};

impl<'e> BodyStates<'e> {
    /// Writes the entries of the first four columns in use along the question's axes, or of all if there are fewer.
    /// If the question has no axis, nothing is written, and the time for clearing room for rows is saved.
    pub(crate) fn write_entries(
        &self,
        question: &ColumnQuestion,
        columns: &mut [ColumnEntry; KEPT_COLUMNS],
    )
        requires { Fits self.now question.now.times.now.first question.now.times.now.last }
        ensures entries { AreWritten true (asked_of self.now question.now) columns.new }
        ensures count { length columns.new ≡ 4 }
    {
        if has_any_axis(question.axes) {
            self.write_wanted(question, columns);
        }
    }

    // Writes the entries of the first four columns in use, or of all if fewer. Columns whose granules are as long as
    // another's come first, one behind another, to share the rows in `room`; the others come in a second round.
    #[inline(never)]
    fn write_wanted(&self, question: &ColumnQuestion, columns: &mut [ColumnEntry; KEPT_COLUMNS])
        requires { Fits self.now question.now.times.now.first question.now.times.now.last }
        ensures entries { AreEntries true (asked_of self.now question.now) columns.new }
        ensures count { length columns.new ≡ 4 }
    {
        let numbers = self.columns();
        let dividers = self.dividers();
        let entries = self.entries();
        let mut room = RowRoom::new();
        let count = numbers.len().min(KEPT_COLUMNS);
        for turn in 0..2 * count {
            let place = place_at(turn, count);
            if writing_turn(place, count, entries[place]) == turn {
                let column = &mut columns[place];
                let divider = &dividers[place];
                self.write_entry(
                    numbers[place],
                    divider,
                    entries[place],
                    question,
                    &mut room,
                    column,
                );
            }
        }
    }

    // Writes a column's entry along the question's axes. `divider` divides by the seconds of its granules, new rows get
    // at least `entries` entries (if at most 32), and rows in `room` from the column before are kept if they fit.
    #[inline(always)]
    fn write_entry(
        &self,
        number: usize,
        divider: &Divider,
        entries: usize,
        question: &ColumnQuestion,
        room: &mut RowRoom,
        column: &mut ColumnEntry,
    )
        requires fits { Fits self.now question.now.times.now.first question.now.times.now.last }
        requires usable { IsUsable self.now number }
        requires divider { divider.now ≡ granule_seconds self.now.ephemeris number }
        requires kept { AreKept question.now room.old }
        ensures kept { AreKept question.now room.new }
        ensures entry { column.new ≡ entry_of true (asked_of self.now question.now) number }
    {
        column.number = number;
        let span = self.granule_span(number, question.times, divider);
        span.write_along(question, entries, room, &mut column.along);
    }

    // Returns a column's enclosure along an axis, 0 for x, from the entries, or None if these lack the column or axis.
    fn kept_enclosure(
        &self,
        is_centred: bool,
        question: &ColumnQuestion,
        columns: &[ColumnEntry; KEPT_COLUMNS],
        number: usize,
        axis: usize,
    ) -> Option<Enclosure>
        requires entries { AreEntries is_centred (asked_of self.now question.now) columns.now }
        requires axis { axis < 3 }
        ensures right { IfSome result (λ parts. parts
            ≡ column_parts is_centred (asked_of self.now question.now) number axis) }
        ensures made { Contains (kept_columns self.now) number
            → has_axis question.now.axes axis ≡ true → IsSome result }
    {
        let count = self.columns().len().min(KEPT_COLUMNS);
        match find_axis_entries(&columns[..count], number) {
            Some(along) => along.enclosure_along(axis),
            None => None,
        }
    }

    /// Returns a column's enclosure along an axis, 0 for x: from the entries, or evaluated now if it is not among them.
    /// If it is centred, it has the value in the middle of the times; if not, the range stands for that value as well.
    pub(crate) fn column_enclosure(
        &self,
        is_centred: bool,
        question: &ColumnQuestion,
        columns: &[ColumnEntry; KEPT_COLUMNS],
        number: usize,
        axis: usize,
    ) -> Enclosure
        requires fits { Fits self.now question.now.times.now.first question.now.times.now.last }
        requires entries { AreWritten is_centred (asked_of self.now question.now) columns.now }
        requires usable { IsUsable self.now number }
        requires axis { axis < 3 }
        ensures { result ≡ column_parts is_centred (asked_of self.now question.now) number axis }
    {
        if !has_any_axis(question.axes) {
            return self.evaluate_column(is_centred, question, number, axis);
        }
        match self.kept_enclosure(is_centred, question, columns, number, axis) {
            Some(parts) => parts,
            None => self.evaluate_column(is_centred, question, number, axis),
        }
    }

    // Evaluates a column in use along an axis, counted from 0 for x, anew from the granule in which the times lie.
    #[inline(never)]
    fn evaluate_column(
        &self,
        is_centred: bool,
        question: &ColumnQuestion,
        number: usize,
        axis: usize,
    ) -> Enclosure
        requires fits { Fits self.now question.now.times.now.first question.now.times.now.last }
        requires usable { IsUsable self.now number }
        requires axis { axis < 3 }
        ensures { result ≡ column_parts is_centred (asked_of self.now question.now) number axis }
    {
        let divider = divider_of(self.ephemeris, number);
        let span = self.granule_span(number, question.times, &divider);
        if is_centred {
            span.enclosure_by_new_rows(question, axis)
        } else {
            span.range_by_new_rows(question.quantity, axis)
        }
    }

    /// Returns a column's granule in which some times lie, with these times and the divider by the granule's seconds.
    pub(crate) fn granule_span<'a>(
        &'a self,
        number: usize,
        times: &'a TimeSpan,
        divider: &'a Divider,
    ) -> GranuleSpan<'a>
        requires fits { Fits self.now times.now.first times.now.last }
        requires usable { IsUsable self.now number }
        requires divider { divider.now ≡ granule_seconds self.now.ephemeris number }
        ensures times { result.times.now ≡ times.now }
        ensures series { let e = self.now.ephemeris in
            (axis : ℕ) → axis < 3
            → series_of result.granule axis ≡ series_at e number axis times.now.first }
    {
        GranuleSpan {
            granule: self.ephemeris.granule(number, times.first()),
            times,
            divider,
        }
    }
}

// Returns the place in a list of `count` columns that a turn is for: the turns go through all places twice, in order.
#[inline(always)]
fn place_at(turn: usize, count: usize) -> usize
    requires { turn < 2 * count }
    ensures below { result < count }
    ensures first { turn < count → result ≡ turn }
    ensures second { count ≤ turn → count + result ≡ turn }
{
    if turn < count { turn } else { turn - count }
}

// Returns the turn in which a place's column is written: in the second round if it shares no rows (`entries` is 0).
#[inline(always)]
fn writing_turn(place: usize, count: usize, entries: usize) -> usize
    requires place { place < count }
    requires few { count ≤ 4 }
    ensures { result ≡ turn_of count entries place }
{
    match entries {
        0 => count + place,
        _ => place,
    }
}

/// Tells whether a set of axes has at least one axis.
pub(crate) fn has_any_axis(axes: Axes) -> bool
    ensures { result ≡ is_any axes }
{
    axes.x || axes.y || axes.z
}
