// The rows of the columns in use over some times, in room that is lent.
ghost use Rattle.std.specs.Prelude.{◌≡◌, ◌<◌};
ghost use Rattle.spec_bodies.specs.Views.{Fits};
ghost use Rattle.column_steps.specs.Listed.{step_count};
ghost use Rattle.event_models.specs.Granules.{AreLines};
ghost use Rattle.event_models.specs.Spans.{IsSpanSeen};

use crate::rooms::RowRooms;
use crate::times::ModelTimes;
use body_states::{BodyStates, Ephemeris, Quantity};
use column_steps::{MAX_STEPS, StepPlace};
use span_models::Model;

/// Room in which models are made one after the other: the rows of positions and of velocities, and a slot for each
/// step of a list. It is large, so it is made once and lent to each call. Rows and factors stay from one call to the
/// next, each with the line of arguments or the length for which it holds; what a call leaves in slots is not read.
#[derive(Drop)]
pub struct ModelRooms {
    pub(crate) position: RowRooms,
    pub(crate) velocity: RowRooms,
    pub(crate) slots: [Option<Model>; MAX_STEPS],
}

impl ModelRooms {
    /// Makes room for models of any list of steps.
    pub fn new() -> ModelRooms {
        ModelRooms {
            position: RowRooms::new(),
            velocity: RowRooms::new(),
            slots: [None; MAX_STEPS],
        }
    }

    /// Finds or writes the rows over some times of the quantities that a step and those before it read.
    pub(crate) fn write_rows(
        &mut self,
        states: &BodyStates,
        ephemeris: &Ephemeris,
        times: &ModelTimes,
        listed: StepPlace,
    )
        requires same { states.now.ephemeris ≡ ephemeris.now }
        requires fits { Fits states.now times.now.first times.now.last }
        requires step { listed.place < step_count listed.steps.now }
        ensures position { AreLines times.now.first times.now.last self.new.position }
        ensures velocity { AreLines times.now.first times.now.last self.new.velocity }
    {
        let (position, velocity) = (Quantity::Position, Quantity::Velocity);
        let of_position = reads_quantity(listed, position);
        let of_velocity = reads_quantity(listed, velocity);
        self.position
            .write_rows(states, ephemeris, times, position, of_position);
        self.velocity
            .write_rows(states, ephemeris, times, velocity, of_velocity);
    }
}

// Tells whether a step or one before it reads a quantity of columns. No contract says so, as unread rows do no harm.
fn reads_quantity(listed: StepPlace, quantity: Quantity) -> bool
    requires { listed.place < step_count listed.steps.now }
{
    let axes = listed.steps.axes_read(quantity, listed.place);
    axes.x || axes.y || axes.z
}

/// Two bodies over some times, with the rows by which the columns of these bodies are modelled.
#[derive(Clone, Copy)]
pub(crate) struct Span<'s, 'e> {
    pub states: &'s BodyStates<'e>,
    /// The ephemeris that the states read.
    pub ephemeris: &'s Ephemeris,
    pub times: ModelTimes,
    pub position: &'s RowRooms,
    pub velocity: &'s RowRooms,
}

impl<'s, 'e> Span<'s, 'e> {
    /// Returns the rows of a quantity.
    pub fn rows(&self, quantity: Quantity) -> &'s RowRooms
        requires { IsSpanSeen self.now }
        ensures { AreLines self.now.times.first self.now.times.last result.now }
    {
        match quantity {
            Quantity::Position => self.position,
            Quantity::Velocity => self.velocity,
        }
    }
}
