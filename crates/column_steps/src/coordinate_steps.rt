// The steps that stand for each coordinate of both targets.
ghost use Rattle.std.specs.Prelude.{◌≡◌, ◌<◌, IsTrue};
ghost use Rattle.event_expr.specs.Leaves.{has_leaf};
ghost use Rattle.spec_expressions.specs.Term.{IsFormula, IsLeaf, Leaf, position as position_of, term, velocity as velocity_of};
ghost use Rattle.spec_steps.specs.ColumnTerms.{of_leaf, of_term};
ghost use Rattle.column_steps.specs.Places.{AreNamedValues};

use crate::arithmetic::Arithmetic;
use crate::places::{CoordinateTable, LeafPlaces};
use crate::step_list::StepList;
use event_expr::laws::sets_have_what_is_named;
use event_expr::{Axes, Formula, Leaves};
use spec_expressions::Expr;
use spec_steps::Sight;
use std::marker::Model;

/// The steps of all twelve coordinates of both targets: positions and velocities along the three axes of the frame.
/// Contracts see only for which targets, observer and frame the steps are.
#[derive(Drop)]
pub struct CoordinateSteps {
    steps: StepList,
    places: LeafPlaces,
}

impl Model for CoordinateSteps {
    ghost use Rattle.spec_steps.specs.declared.sights.Sight.{Sight};
    ghost use Rattle.column_steps.specs.Places.{AreAllPlaced};

    ghost Value = { Sight };

    ghost view = { λ s. s.steps.sight };

    ghost invariant = { λ s. AreAllPlaced s.steps s.places };
}

impl CoordinateSteps {
    /// Returns the steps of all coordinates of both targets, for given targets, observer and frame.
    pub fn new(sight: Sight) -> CoordinateSteps
        ensures { result ≡ sight }
    {
        let mut steps = StepList::none(sight);
        let places = steps.enter_leaves(&all_coordinates());
        CoordinateSteps { steps, places }
    }

    /// Returns the value of a target's position along an axis of the frame, by the rules of an arithmetic. Targets (0
    /// and 1) and axes (0 to 2) are numbered from 0.
    pub fn position<A: Arithmetic>(&self, arithmetic: &A, target: u8, axis: u8) -> A::Value
        requires ready { A.is_ready arithmetic.now }
        requires sight { A.sight arithmetic.now ≡ self.now }
        requires target { target < 2 }
        requires axis { axis < 3 }
        ensures { A.is_value arithmetic.now (of_leaf self.now (position_of target axis)) result }
    {
        self.steps
            .value(arithmetic, self.places.position(target, axis))
    }

    /// Returns the value of a target's velocity along an axis of the frame, by the rules of an arithmetic. Targets (0
    /// and 1) and axes (0 to 2) are numbered from 0.
    pub fn velocity<A: Arithmetic>(&self, arithmetic: &A, target: u8, axis: u8) -> A::Value
        requires ready { A.is_ready arithmetic.now }
        requires sight { A.sight arithmetic.now ≡ self.now }
        requires target { target < 2 }
        requires axis { axis < 3 }
        ensures { A.is_value arithmetic.now (of_leaf self.now (velocity_of target axis)) result }
    {
        self.steps
            .value(arithmetic, self.places.velocity(target, axis))
    }

    /// Returns the value of a formula of the targets' coordinates, by the rules of an arithmetic. Each coordinate that
    /// the formula names is made once, however often it is named; the others are not made.
    pub fn formula<A: Arithmetic>(&self, arithmetic: &A, formula: &Formula) -> A::Value
        requires ready { A.is_ready arithmetic.now }
        requires sight { A.sight arithmetic.now ≡ self.now }
        ensures { A.is_value arithmetic.now (of_term self.now formula.now) result }
    {
        sets_have_what_is_named();
        let (steps, places, wanted) = (&self.steps, &self.places, formula.leaves());
        let first_position = steps.axis_values(
            arithmetic,
            &places.first_position,
            wanted.first_position,
        );
        let second_position = steps.axis_values(
            arithmetic,
            &places.second_position,
            wanted.second_position,
        );
        let first_velocity = steps.axis_values(
            arithmetic,
            &places.first_velocity,
            wanted.first_velocity,
        );
        let second_velocity = steps.axis_values(
            arithmetic,
            &places.second_velocity,
            wanted.second_velocity,
        );
        let values = CoordinateTable {
            first_position,
            second_position,
            first_velocity,
            second_velocity,
        };
        expression_value(arithmetic, &values, formula.expr())
    }
}

// Returns the value of a formula's expression, or of a part of the expression, by the rules of an arithmetic and the
// values of the coordinates that are named. Values of coordinates that are not named may be anything.
fn expression_value<A: Arithmetic>(
    arithmetic: &A,
    values: &CoordinateTable<A::Value>,
    expr: &Expr,
) -> A::Value
    requires ready { A.is_ready arithmetic.now }
    requires formula { IsFormula (term expr.now) }
    requires named { AreNamedValues (A.is_value arithmetic.now) (A.sight arithmetic.now)
        values.now (term expr.now) }
    ensures { A.is_value arithmetic.now (of_term (A.sight arithmetic.now) (term expr.now)) result }
{
    match expr {
        Expr::Pos { target, axis } => values.position(*target, *axis),
        Expr::Vel { target, axis } => values.velocity(*target, *axis),
        Expr::Length(length) => arithmetic.length(*length),
        Expr::Cosine(cosine) => arithmetic.cosine(*cosine),
        Expr::Add(x, y) => {
            let x = expression_value(arithmetic, values, x);
            let y = expression_value(arithmetic, values, y);
            arithmetic.sum(&x, &y)
        }
        Expr::Sub(x, y) => {
            let x = expression_value(arithmetic, values, x);
            let y = expression_value(arithmetic, values, y);
            arithmetic.difference(&x, &y)
        }
        Expr::Mul(x, y) => {
            let x = expression_value(arithmetic, values, x);
            let y = expression_value(arithmetic, values, y);
            arithmetic.product(&x, &y)
        }
        Expr::SignedSquare(x) => {
            let x = expression_value(arithmetic, values, x);
            arithmetic.signed_square(&x)
        }
    }
}

// Returns the set of all twelve coordinates: position and velocity of both targets along three axes.
fn all_coordinates() -> Leaves
    ensures { (leaf : Leaf) → IsLeaf leaf → IsTrue (has_leaf result leaf) }
{
    let axes = Axes {
        x: true,
        y: true,
        z: true,
    };
    Leaves {
        first_position: axes,
        first_velocity: axes,
        second_position: axes,
        second_velocity: axes,
    }
}
