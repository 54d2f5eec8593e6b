//! Formulas as one straight list of steps over the columns of an ephemeris, in which parts that are equal stand once,
//! and its values over numbered slots.
//!
//! In come what is seen (two targets, an observer and a frame) and formulas of the targets' coordinates, an event's
//! function before its conditions; out comes a list whose steps stand for all their parts (`StepList`). There is one
//! for each formula. An arithmetic (`Arithmetic`) says what the value of a step is, by those of its operands; `fill`
//! writes the values of the first steps into slots, one after the other. `CoordinateSteps`, a list of the targets'
//! coordinates alone, makes the value of a coordinate or of a formula by recursion, without slots. No call allocates.
//! How a body is made of columns is said by `bodies` and `frames` alone.
#![tactic(auto)]

mod arithmetic;
mod axes_read;
mod bodies;
mod coordinate_steps;
mod entering;
mod filling;
mod frames;
mod places;
mod sameness;
mod step_list;
mod step_values;

pub use arithmetic::Arithmetic;
pub use coordinate_steps::CoordinateSteps;
pub use filling::fill;
pub use step_list::{MAX_STEPS, StepList, StepPlace};
