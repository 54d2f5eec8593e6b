// The rows that serve the granules of the columns in use over some times.
ghost use Rattle.std.specs.Prelude.{◌≡◌, ◌≤◌, ◌<◌, ℤ, IfSome};
ghost use Rattle.spec_bodies.specs.Views.{Fits};
ghost use Rattle.event_models.specs.Granules.{AreLines, IsAxisModel, IsGranuleOver, IsServed};

use crate::granule_row::GranuleRow;
use crate::granules::column_granule;
use crate::kept_rows::KeptRows;
use crate::length_factors::LengthFactors;
use crate::lines::granule_line;
use crate::row_room::RowRoom;
use crate::rows::Line;
use crate::times::ModelTimes;
use crate::values::axis_model;
use body_states::{BodyStates, Ephemeris, Quantity};
use eph_model::Granule;
use span_models::Model;

/// The most granules whose rows are found. Two bodies and the observer are made of no more columns.
const MAX_GRANULES: usize = 4;

/// The rows of a quantity that are kept, the factors of velocities, and for the first `count` of four granules where
/// their rows are. What is left in the others is not read.
#[derive(Drop)]
pub(crate) struct RowRooms {
    pub kept: KeptRows,
    pub factors: LengthFactors,
    pub granules: [GranuleRow; MAX_GRANULES],
    pub count: usize,
}

impl RowRooms {
    /// Makes room for rows, without a row.
    pub fn new() -> RowRooms {
        let none = GranuleRow {
            start: 0,
            seconds: 0,
            line: Line {
                middle: 0,
                slope: 0,
            },
            place: 0,
        };
        RowRooms {
            kept: KeptRows::new(),
            factors: LengthFactors::new(),
            granules: [none; MAX_GRANULES],
            count: 0,
        }
    }

    /// Finds or writes the rows of the columns in use over some times, or, to save work, none unless `is_read`.
    pub fn write_rows(
        &mut self,
        states: &BodyStates,
        ephemeris: &Ephemeris,
        times: &ModelTimes,
        quantity: Quantity,
        is_read: bool,
    )
        requires same { states.now.ephemeris ≡ ephemeris.now }
        requires fits { Fits states.now times.now.first times.now.last }
        ensures { AreLines times.now.first times.now.last self.new }
    {
        self.count = 0;
        if is_read {
            self.kept.begin_span();
            self.add_rows(states, ephemeris, times, quantity);
        }
    }

    // Adds the rows of a quantity for the columns in use: one row serves all granules that begin and end together.
    fn add_rows(
        &mut self,
        states: &BodyStates,
        ephemeris: &Ephemeris,
        times: &ModelTimes,
        quantity: Quantity,
    )
        requires same { states.now.ephemeris ≡ ephemeris.now }
        requires fits { Fits states.now times.now.first times.now.last }
        requires lines { AreLines times.now.first times.now.last self.old }
        ensures { AreLines times.now.first times.now.last self.new }
    {
        let numbers = states.columns();
        for place in 0..numbers.len() {
            let granule = column_granule(states, ephemeris, numbers[place], times);
            self.add_row(&granule, times, quantity);
        }
    }

    // Adds a granule's row of a quantity over some times, unless a row serves the granule already or there are four.
    fn add_row(&mut self, granule: &Granule, times: &ModelTimes, quantity: Quantity)
        requires granule { IsGranuleOver times.now.first times.now.last granule.now }
        requires lines { AreLines times.now.first times.now.last self.old }
        ensures { AreLines times.now.first times.now.last self.new }
    {
        let count = self.count;
        if count < MAX_GRANULES && self.serving_row(quantity, granule).is_none() {
            let line = granule_line(granule, times);
            let place = self.kept.place_of_row(quantity, &line, granule.n);
            self.factors.keep_for(quantity, granule.seconds);
            self.granules[count] = GranuleRow {
                start: granule.start,
                seconds: granule.seconds,
                line,
                place,
            };
            self.count = count + 1;
        }
    }

    // Returns the first row of a quantity that serves a granule, or None if no row does.
    fn serving_row(&self, quantity: Quantity, granule: &Granule) -> Option<&RowRoom>
        requires few { self.now.count ≤ 4 }
        ensures { (c d : ℤ) → AreLines c d self.now
            → IfSome result (λ room. IsServed quantity c d granule.now room.now) }
    {
        for place in 0..self.count {
            let found = &self.granules[place];
            let room = self.kept.row(found.place);
            if found.is_of(granule) && room.serves(quantity, &found.line, granule.n) {
                return Some(room);
            }
        }
        None
    }

    /// Returns a model of a granule along an axis by the first row that serves it, or None if no row does or gives one.
    pub fn model(
        &self,
        quantity: Quantity,
        granule: &Granule,
        axis: usize,
        times: &ModelTimes,
    ) -> Option<Model>
        requires granule { IsGranuleOver times.now.first times.now.last granule.now }
        requires axis { axis < 3 }
        requires lines { AreLines times.now.first times.now.last self.now }
        ensures { IsAxisModel quantity times.now.first times.now.last granule.now axis result }
    {
        match self.serving_row(quantity, granule) {
            Some(room) => axis_model(quantity, granule, axis, room, times, &self.factors),
            None => None,
        }
    }
}
