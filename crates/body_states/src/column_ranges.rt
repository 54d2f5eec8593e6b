// What the columns in use are over some times, as it is calculated without a look at the middle.
ghost use Rattle.std.specs.Prelude.{◌≡◌, ◌<◌, false, length};
ghost use Rattle.spec_bodies.specs.Reading.{IsUsable};
ghost use Rattle.spec_bodies.specs.Views.{Fits};
ghost use Rattle.body_states.specs.Dividers.{granule_seconds};
ghost use Rattle.body_states.specs.Ranges.{AreWritten, asked_of, column_range, entry_of};

use crate::column_entries::ColumnEntry;
use crate::columns::has_any_axis;
use crate::sources::KEPT_COLUMNS;
use crate::states::BodyStates;
use event_expr::Axes;
use event_expr::rules::TimeSpan;
use granule_values::{ColumnQuestion, RangeRows};
use ival_core::{Divider, Ival};
use spec_bodies::Quantity;
use std::marker::Model;

/// The interval of all values of a quantity, in km or km per unit of time, and that of its changes in one unit of time.
#[derive(Clone, Copy)]
pub struct ColumnRange {
    pub values: Ival,
    pub changes: Ival,
}

/// The ranges of a quantity of the columns in use over some times, and those of its changes in one unit of time.
#[derive(Drop)]
pub struct ColumnRanges<'s, 'e> {
    states: &'s BodyStates<'e>,
    question: ColumnQuestion<'s>,
    columns: [ColumnEntry; KEPT_COLUMNS],
}

impl<'s, 'e> Model for ColumnRanges<'s, 'e> {
    ghost use Rattle.std.specs.Prelude.{◌≡◌, false, length};
    ghost use Rattle.spec_bodies.specs.Views.{Fits};
    ghost use Rattle.body_states.specs.Ranges.{Asked, AreWritten, asked_of};

    ghost Value = { Asked };

    ghost view = { λ r. asked_of r.states.now r.question };

    ghost invariant = { λ r. AreWritten false (asked_of r.states.now r.question) r.columns
        × (length r.columns ≡ 4)
        × Fits r.states.now r.question.times.now.first r.question.times.now.last };
}

impl<'e> BodyStates<'e> {
    /// Returns the ranges of a quantity of the columns in use over some times within one granule of each. The first
    /// four are evaluated at once along `axes`, which are those of the files; all else when it is asked for. Rows that
    /// are needed at once are kept in `rows` for later calls, of any states.
    pub fn column_ranges<'s>(
        &'s self,
        quantity: Quantity,
        axes: Axes,
        times: &'s TimeSpan,
        rows: &mut RangeRows,
    ) -> ColumnRanges<'s, 'e>
        requires { Fits self.now times.now.first times.now.last }
        ensures { result ≡ record {
          view = self.now;
          quantity = quantity;
          axes = axes;
          first = times.now.first;
          last = times.now.last;
        } }
    {
        let question = ColumnQuestion {
            quantity,
            axes,
            times,
        };
        let mut columns = [ColumnEntry::none(); KEPT_COLUMNS];
        self.write_ranges(&question, rows, &mut columns);
        ColumnRanges {
            states: self,
            question,
            columns,
        }
    }

    // Writes the ranges of the first four columns in use along the question's axes, or of all if there are fewer. If the
    // question has no axis, nothing is written, and no row is made.
    fn write_ranges(
        &self,
        question: &ColumnQuestion,
        rows: &mut RangeRows,
        columns: &mut [ColumnEntry; KEPT_COLUMNS],
    )
        requires { Fits self.now question.now.times.now.first question.now.times.now.last }
        ensures entries { AreWritten false (asked_of self.now question.now) columns.new }
        ensures count { length columns.new ≡ 4 }
    {
        if !has_any_axis(question.axes) {
            return;
        }
        let numbers = self.columns();
        let dividers = self.dividers();
        let entries = self.entries();
        let count = numbers.len().min(KEPT_COLUMNS);
        for place in 0..count {
            let column = &mut columns[place];
            self.write_range(
                numbers[place],
                &dividers[place],
                entries[place],
                question,
                rows,
                column,
            );
        }
    }

    // Writes a column's ranges along the question's axes. `divider` divides by the seconds of its granules, and new rows
    // get at least `entries` entries (if at most 32).
    #[inline(always)]
    fn write_range(
        &self,
        number: usize,
        divider: &Divider,
        entries: usize,
        question: &ColumnQuestion,
        rows: &mut RangeRows,
        column: &mut ColumnEntry,
    )
        requires fits { Fits self.now question.now.times.now.first question.now.times.now.last }
        requires usable { IsUsable self.now number }
        requires divider { divider.now ≡ granule_seconds self.now.ephemeris number }
        ensures { column.new ≡ entry_of false (asked_of self.now question.now) number }
    {
        column.number = number;
        let span = self.granule_span(number, question.times, divider);
        span.write_ranges_along(question, entries, rows, &mut column.along);
    }
}

impl<'s, 'e> ColumnRanges<'s, 'e> {
    /// Returns a column's range and changes along an axis, counted from 0 for x, evaluated now if they are not kept.
    pub fn of(&self, number: usize, axis: usize) -> ColumnRange
        requires usable { IsUsable self.now.view number }
        requires axis { axis < 3 }
        ensures { result ≡ column_range self.now number axis }
    {
        let parts = self
            .states
            .column_enclosure(false, &self.question, &self.columns, number, axis);
        ColumnRange {
            values: parts.range,
            changes: parts.step,
        }
    }
}
