// How the values of steps are written into slots, one after the other.
ghost use Rattle.std.specs.Prelude.{◌≡◌, ◌<◌, ◌≤◌, length};
ghost use Rattle.spec_steps.specs.Steps.{terms_of};
ghost use Rattle.column_steps.specs.Listed.{listed_term, step_count};
ghost use Rattle.column_steps.specs.Values.{AreValues};

use crate::arithmetic::Arithmetic;
use crate::step_list::StepList;
use spec_steps::Step;

/// Writes the values of the steps from number `made` on, up to but without `upto`, into the slots of the same numbers.
/// The slots before `made` must hold their values already; the others may hold anything. Nothing is written if both
/// numbers are equal.
pub fn fill<A: Arithmetic>(
    arithmetic: &A,
    steps: &StepList,
    made: usize,
    upto: usize,
    slots: &mut [A::Value],
)
    requires ready { A.is_ready arithmetic.now }
    requires sight { A.sight arithmetic.now ≡ steps.now.sight }
    requires steps { upto ≤ step_count steps.now }
    requires room { upto ≤ length slots.old }
    requires order { made ≤ upto }
    requires values { AreValues (A.is_value arithmetic.now) (terms_of steps.now.steps) made slots.old }
    ensures room { length slots.new ≡ length slots.old }
    ensures values { AreValues (A.is_value arithmetic.now) (terms_of steps.now.steps) upto slots.new }
{
    for place in made..upto {
        slots[place] = value_from_slots(arithmetic, steps, place, slots);
    }
}

// Returns the value of the step at `place`, by those of its operands, which are earlier steps: their values are read
// from their slots. Slots from `place` on are not read.
fn value_from_slots<A: Arithmetic>(
    arithmetic: &A,
    steps: &StepList,
    place: usize,
    slots: &[A::Value],
) -> A::Value
    requires ready { A.is_ready arithmetic.now }
    requires sight { A.sight arithmetic.now ≡ steps.now.sight }
    requires step { place < step_count steps.now }
    requires room { place ≤ length slots.now }
    requires values { AreValues (A.is_value arithmetic.now) (terms_of steps.now.steps) place slots.now }
    ensures { A.is_value arithmetic.now (listed_term steps.now place) result }
{
    match steps.step(place) {
        Step::Column {
            quantity,
            number,
            axis,
        } => arithmetic.column(quantity, number, axis),
        Step::Zero => arithmetic.zero(),
        Step::Length(km) => arithmetic.length(km),
        Step::Cosine(number) => arithmetic.cosine(number),
        Step::Scaled(factor, x) => arithmetic.scaled(factor, &slots[x]),
        Step::Sum(x, y) => arithmetic.sum(&slots[x], &slots[y]),
        Step::Difference(x, y) => arithmetic.difference(&slots[x], &slots[y]),
        Step::Product(x, y) => arithmetic.product(&slots[x], &slots[y]),
        Step::SignedSquare(x) => arithmetic.signed_square(&slots[x]),
    }
}
