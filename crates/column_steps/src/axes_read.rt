// The axes of the files along which the steps of a list read columns.
ghost use Rattle.std.specs.Prelude.{◌<◌};
ghost use Rattle.column_steps.specs.Listed.{step_count};

use crate::step_list::StepList;
use event_expr::Axes;
use spec_bodies::Quantity;
use spec_steps::Step;

/// The axes of the files along which positions of columns are read, and those along which velocities are.
#[derive(Clone, Copy)]
pub(crate) struct AxesRead {
    position: Axes,
    velocity: Axes,
}

impl StepList {
    /// Returns the axes of the files along which columns are read for a quantity, a position or a velocity, by the
    /// steps up to and with the one at `place`. No contract says which axes these are, and no answer rests on them.
    pub fn axes_read(&self, quantity: Quantity, place: usize) -> Axes
        requires { place < step_count self.now }
    {
        self.axes_upto(place).of(quantity)
    }
}

impl AxesRead {
    /// Returns the axes of steps that read no column.
    pub fn none() -> AxesRead {
        AxesRead {
            position: Axes::none(),
            velocity: Axes::none(),
        }
    }

    /// Returns these axes and those along which one more step reads columns.
    pub fn with(self, step: Step) -> AxesRead {
        match step {
            Step::Column {
                quantity,
                number: _,
                axis,
            } => self.with_axis(quantity, axis),
            _ => self,
        }
    }

    // Returns these axes and one more, counted from 0, of a quantity.
    fn with_axis(self, quantity: Quantity, axis: usize) -> AxesRead {
        let own = one_axis(axis);
        match quantity {
            Quantity::Position => AxesRead {
                position: self.position.union(own),
                velocity: self.velocity,
            },
            Quantity::Velocity => AxesRead {
                position: self.position,
                velocity: self.velocity.union(own),
            },
        }
    }

    // Returns the axes along which a quantity is read.
    fn of(self, quantity: Quantity) -> Axes {
        match quantity {
            Quantity::Position => self.position,
            Quantity::Velocity => self.velocity,
        }
    }
}

// Returns the set of one axis, counted from 0.
fn one_axis(axis: usize) -> Axes {
    Axes {
        x: axis == 0,
        y: axis == 1,
        z: axis == 2,
    }
}
