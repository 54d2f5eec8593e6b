// How formulas are entered into a list of steps.
ghost use Rattle.std.specs.Prelude.{◌≡◌, ◌+◌, ◌<◌, ◌≤◌, IfNone, IfSome};
ghost use Rattle.spec_expressions.specs.Term.{IsFormula, nodes, term};
ghost use Rattle.spec_steps.specs.ColumnTerms.{of_term};
ghost use Rattle.column_steps.specs.Listed.{Enters, Grows, IsMadeAt, step_count};
ghost use Rattle.column_steps.specs.Places.{ArePlaced};

use crate::places::LeafPlaces;
use crate::step_list::{MAX_STEPS, StepList};
use event_expr::Formula;
use event_expr::laws::sets_have_what_is_named;
use spec_expressions::Expr;
use spec_steps::{Sight, Step};

impl StepList {
    /// Returns the steps of a formula, for given targets, observer and frame, and the number of the step that stands
    /// for the formula. There are at most 120 steps for coordinates, and one for each node of the formula.
    pub fn of(sight: Sight, formula: &Formula) -> (StepList, usize)
        ensures sight { result.0.sight ≡ sight }
        ensures made { IsMadeAt result.0 result.1 (of_term sight formula.now) }
        ensures few { step_count result.0 ≤ 120 + nodes formula.now }
    {
        let _expr = formula.expr();
        let mut steps = StepList::none(sight);
        let place = steps.enter_formula(formula);
        (steps, place)
    }

    /// Enters the steps of one more formula, and returns the number of the step that stands for the formula. A step
    /// that the list has already is not added again, and no step changes its number. Returns None if a value of the
    /// step would have no slot: only if the steps so far, 120 for coordinates and the nodes of the formula are more
    /// than 256.
    pub fn add(&mut self, formula: &Formula) -> Option<usize>
        ensures kept { Grows self.old self.new (120 + nodes formula.now) }
        ensures made { IfSome result (λ place. IsMadeAt self.new place
            (of_term self.old.sight formula.now)) }
        ensures room { IfNone result (256 < step_count self.old + (120 + nodes formula.now)) }
    {
        let _expr = formula.expr();
        if self.count() > MAX_STEPS {
            return None;
        }
        let place = self.enter_formula(formula);
        if place < MAX_STEPS { Some(place) } else { None }
    }

    // Enters the steps of the coordinates that a formula names, and then those of the formula's parts. Returns the
    // number of the step that stands for the whole formula.
    fn enter_formula(&mut self, formula: &Formula) -> usize
        requires room { step_count self.old ≤ 256 }
        ensures { Enters self.old self.new (120 + nodes formula.now) result
            (of_term self.old.sight formula.now) }
    {
        sets_have_what_is_named();
        let expr = formula.expr();
        let places = self.enter_leaves(&formula.leaves());
        self.enter_part(expr, &places)
    }

    // Enters the steps of a formula's expression, or of a part of the expression, once those of the coordinates are
    // entered, whose numbers `places` has. Returns the number of the step that stands for the expression.
    fn enter_part(&mut self, expr: &Expr, places: &LeafPlaces) -> usize
        requires formula { IsFormula (term expr.now) }
        requires placed { ArePlaced self.old places.now (term expr.now) }
        requires room { step_count self.old + nodes (term expr.now) ≤ 512 }
        ensures { Enters self.old self.new (nodes (term expr.now)) result
            (of_term self.old.sight (term expr.now)) }
    {
        match expr {
            Expr::Pos { target, axis } => places.position(*target, *axis),
            Expr::Vel { target, axis } => places.velocity(*target, *axis),
            Expr::Length(length) => self.enter(Step::Length(*length)),
            Expr::Cosine(cosine) => self.enter(Step::Cosine(*cosine)),
            Expr::Add(x, y) => {
                let x = self.enter_part(x, places);
                let y = self.enter_part(y, places);
                self.enter(Step::Sum(x, y))
            }
            Expr::Sub(x, y) => {
                let x = self.enter_part(x, places);
                let y = self.enter_part(y, places);
                self.enter(Step::Difference(x, y))
            }
            Expr::Mul(x, y) => {
                let x = self.enter_part(x, places);
                let y = self.enter_part(y, places);
                self.enter(Step::Product(x, y))
            }
            Expr::SignedSquare(x) => {
                let x = self.enter_part(x, places);
                self.enter(Step::SignedSquare(x))
            }
        }
    }
}
