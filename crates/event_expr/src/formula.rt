// Formulas: expressions within the limits that keep their enclosures from overflowing.

ghost use Rattle.std.specs.Prelude.{◌≡◌, ◌↔◌, ◌<◌, ◌≤◌, IfOk, Err};
ghost use Rattle.spec_expressions.specs.Term.{term, nodes, degree, HasConstants, HasLeaves, IsFormula, node_limit, degree_limit};
ghost use Rattle.event_expr.specs.Leaves.{leaves_of};
ghost use Rattle.event_expr.specs.declared.limits.ExprFault.TheVariants.{Nodes, Degree, Constant};

use crate::leaves::{Leaves, leaves_in};
use crate::limits::{ExprFault, check_limits};
use spec_expressions::Expr;
use std::marker::Model;

/// An expression of at most 128 nodes and degree 16, with lengths below 2^36 km and cosines of magnitude at most 1.
#[derive(Drop)]
pub struct Formula {
    expr: Expr,
    leaves: Leaves,
}

impl Model for Formula {
    ghost use Rattle.spec_expressions.specs.Term.{Term, term, IsFormula};
    ghost use Rattle.spec_expressions.specs.Code.{term_code};
    ghost use Rattle.event_expr.specs.Leaves.{leaves_of};
    ghost use Rattle.std.specs.Prelude.{◌≡◌};

    ghost Value = { Term };

    ghost coded = { term_code };

    ghost view = { λ f. term f.expr };

    ghost invariant = { λ f. IsFormula (term f.expr) × (f.leaves ≡ leaves_of (term f.expr)) };
}

impl Formula {
    /// Makes a formula of an expression. Errors: the first limit that it passes, in the order of `ExprFault`.
    pub fn new(expr: Expr) -> Result<Formula, ExprFault>
        requires { HasLeaves (term expr) }
        ensures made { IfOk result (λ formula. formula ≡ term expr) }
        ensures nodes { (result ≡ Err Nodes) ↔ (node_limit < nodes (term expr)) }
        ensures degree { (result ≡ Err Degree)
            ↔ ((nodes (term expr) ≤ node_limit) × (degree_limit < degree (term expr))) }
        ensures constant { (result ≡ Err Constant)
            ↔ ((nodes (term expr) ≤ node_limit) × (degree (term expr) ≤ degree_limit)
            × (HasConstants (term expr) → ⊥)) }
    {
        match check_limits(&expr) {
            Err(fault) => Err(fault),
            Ok(()) => Ok(Formula::of(expr)),
        }
    }

    /// Makes a formula of an expression of which the caller knows that it keeps the limits. Nothing is tested.
    pub fn of(expr: Expr) -> Formula
        requires { IsFormula (term expr) }
        ensures { result ≡ term expr }
    {
        let leaves = leaves_in(&expr);
        Formula { expr, leaves }
    }

    /// Returns the set of the coordinates that the formula names, which was found when the formula was made.
    pub fn leaves(&self) -> Leaves
        ensures { result ≡ leaves_of self.now }
    {
        self.leaves
    }

    /// Returns the formula's expression, which keeps the limits.
    pub fn expr(&self) -> &Expr
        ensures whole { term result.now ≡ self.now }
        ensures formula { IsFormula (term result.now) }
    {
        &self.expr
    }
}
