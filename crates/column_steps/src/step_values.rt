// Values of steps by recursion on operands, without slots.
ghost use Rattle.std.specs.Prelude.{◌≡◌, ◌<◌, IsTrue};
ghost use Rattle.column_steps.specs.Listed.{listed_term, step_count};
ghost use Rattle.column_steps.specs.Places.{AreStepValues, AreSteps};

use crate::arithmetic::Arithmetic;
use crate::places::{AxisPlaces, AxisTable};
use crate::step_list::StepList;
use event_expr::Axes;
use spec_steps::Step;

impl StepList {
    /// Returns the value of the step at `place`, by the rules of an arithmetic, by recursion on the step's operands. An
    /// operand that several steps share is made as often as they name it; `fill` makes it once, but needs slots.
    pub(crate) fn value<A: Arithmetic>(&self, arithmetic: &A, place: usize) -> A::Value
        requires ready { A.is_ready arithmetic.now }
        requires sight { A.sight arithmetic.now ≡ self.now.sight }
        requires step { place < step_count self.now }
        ensures { A.is_value arithmetic.now (listed_term self.now place) result }
    {
        match self.step(place) {
            Step::Column {
                quantity,
                number,
                axis,
            } => arithmetic.column(quantity, number, axis),
            Step::Zero => arithmetic.zero(),
            Step::Length(km) => arithmetic.length(km),
            Step::Cosine(number) => arithmetic.cosine(number),
            Step::Scaled(factor, x) => {
                let x = self.value(arithmetic, x);
                arithmetic.scaled(factor, &x)
            }
            Step::Sum(x, y) => {
                let x = self.value(arithmetic, x);
                let y = self.value(arithmetic, y);
                arithmetic.sum(&x, &y)
            }
            Step::Difference(x, y) => {
                let x = self.value(arithmetic, x);
                let y = self.value(arithmetic, y);
                arithmetic.difference(&x, &y)
            }
            Step::Product(x, y) => {
                let x = self.value(arithmetic, x);
                let y = self.value(arithmetic, y);
                arithmetic.product(&x, &y)
            }
            Step::SignedSquare(x) => {
                let x = self.value(arithmetic, x);
                arithmetic.signed_square(&x)
            }
        }
    }
    /// Returns the values of the three steps whose numbers a table has, one for each axis. Along an axis that is not
    /// wanted the value of the constant 0 is returned, to spare work.
    pub(crate) fn axis_values<A: Arithmetic>(
        &self,
        arithmetic: &A,
        places: &AxisPlaces,
        wanted: Axes,
    ) -> AxisTable<A::Value>
        requires ready { A.is_ready arithmetic.now }
        requires sight { A.sight arithmetic.now ≡ self.now.sight }
        requires steps { AreSteps self.now places.now }
        ensures { AreStepValues (A.is_value arithmetic.now) self.now places.now wanted result }
    {
        AxisTable {
            x: self.value_if(arithmetic, places.x, wanted.x),
            y: self.value_if(arithmetic, places.y, wanted.y),
            z: self.value_if(arithmetic, places.z, wanted.z),
        }
    }

    // Returns the value of the step at `place` if the value is wanted, and otherwise the value of the constant 0.
    fn value_if<A: Arithmetic>(&self, arithmetic: &A, place: usize, is_wanted: bool) -> A::Value
        requires ready { A.is_ready arithmetic.now }
        requires sight { A.sight arithmetic.now ≡ self.now.sight }
        requires step { place < step_count self.now }
        ensures { IsTrue is_wanted → A.is_value arithmetic.now (listed_term self.now place) result }
    {
        if is_wanted {
            self.value(arithmetic, place)
        } else {
            arithmetic.zero()
        }
    }
}
