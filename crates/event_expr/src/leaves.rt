// The set of the coordinates that an expression names.

ghost use Rattle.std.specs.Prelude.{◌≡◌};
ghost use Rattle.spec_expressions.specs.Term.{term, HasLeaves};
ghost use Rattle.spec_expressions.specs.Vectors.{IsVector};
ghost use Rattle.event_expr.specs.Leaves.{no_leaves, only, either_leaves, leaves_of};

use crate::axes::Axes;
use spec_expressions::{Expr, Vector};

/// A set of coordinates of the two targets: for each vector, the axes along which it is named.
#[derive(Clone, Copy)]
pub struct Leaves {
    /// The axes of the position of target 0.
    pub first_position: Axes,
    /// The axes of the velocity of target 0.
    pub first_velocity: Axes,
    /// The axes of the position of target 1.
    pub second_position: Axes,
    /// The axes of the velocity of target 1.
    pub second_velocity: Axes,
}

impl Leaves {
    /// Returns the set of no coordinate.
    pub fn none() -> Leaves
        ensures { result ≡ no_leaves }
    {
        Leaves {
            first_position: Axes::none(),
            first_velocity: Axes::none(),
            second_position: Axes::none(),
            second_velocity: Axes::none(),
        }
    }

    /// Returns the set of the coordinates of one vector along these axes, and no other.
    pub fn only(vector: Vector, axes: Axes) -> Leaves
        requires { IsVector vector }
        ensures { result ≡ only vector axes }
    {
        let mut leaves = Leaves::none();
        match vector {
            Vector::Position(0) => leaves.first_position = axes,
            Vector::Position(_) => leaves.second_position = axes,
            Vector::Velocity(0) => leaves.first_velocity = axes,
            Vector::Velocity(_) => leaves.second_velocity = axes,
        }
        leaves
    }

    /// Returns the coordinates that are in this set, in the other, or in both.
    pub fn union(self, other: Leaves) -> Leaves
        ensures { result ≡ either_leaves self other }
    {
        Leaves {
            first_position: self.first_position.union(other.first_position),
            first_velocity: self.first_velocity.union(other.first_velocity),
            second_position: self.second_position.union(other.second_position),
            second_velocity: self.second_velocity.union(other.second_velocity),
        }
    }
}

/// Returns the set of the coordinates of the targets' positions and velocities that stand in an expression.
pub(crate) fn leaves_in(expr: &Expr) -> Leaves
    requires { HasLeaves (term expr.now) }
    ensures { result ≡ leaves_of (term expr.now) }
{
    match expr {
        Expr::Pos { target, axis } => Leaves::only(Vector::Position(*target), Axes::one(*axis)),
        Expr::Vel { target, axis } => Leaves::only(Vector::Velocity(*target), Axes::one(*axis)),
        Expr::Length(_) | Expr::Cosine(_) => Leaves::none(),
        Expr::Add(x, y) | Expr::Sub(x, y) | Expr::Mul(x, y) => leaves_in(x).union(leaves_in(y)),
        Expr::SignedSquare(x) => leaves_in(x),
    }
}
