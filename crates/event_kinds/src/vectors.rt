// The vectors of an event, and their products in the plane of x and y.
ghost use Rattle.std.specs.Prelude.{◌≡◌, IfOk};
ghost use Rattle.spec_expressions.specs.Term.{term};
ghost use Rattle.spec_expressions.specs.Vectors.{IsVector};
ghost use Rattle.spec_kinds.specs.Vectors.{plane_dot, plane_cross};

use event_expr::builders::{coordinate, difference, product, sum};
use event_expr::{Expr, Vector};
use std::alloc::{AllocError, Global};

/// The position of the target.
pub const TARGET: Vector = Vector::Position(0);

/// The position of the second body.
pub const SECOND: Vector = Vector::Position(1);

/// The velocity of the target.
pub const TARGET_VELOCITY: Vector = Vector::Velocity(0);

/// The velocity of the second body.
pub const SECOND_VELOCITY: Vector = Vector::Velocity(1);

/// Returns the expression `u0 v0 + u1 v1`, the dot product of two vectors in the plane of x and y. The only error is
/// out of memory.
pub fn plane_dot(alloc: Global, u: Vector, v: Vector) -> Result<Expr, AllocError>
    requires u { IsVector u }
    requires v { IsVector v }
    ensures { IfOk result (λ e. term e ≡ plane_dot u v) }
{
    let x = product(alloc, coordinate(u, 0), coordinate(v, 0))?;
    let y = product(alloc, coordinate(u, 1), coordinate(v, 1))?;
    sum(alloc, x, y)
}

/// Returns the expression `u0 v1 - u1 v0`, the cross product of two vectors in the plane of x and y. It is 0 if they
/// have one direction there, or opposite ones. The only error is out of memory.
pub fn plane_cross(alloc: Global, u: Vector, v: Vector) -> Result<Expr, AllocError>
    requires u { IsVector u }
    requires v { IsVector v }
    ensures { IfOk result (λ e. term e ≡ plane_cross u v) }
{
    let ahead = product(alloc, coordinate(u, 0), coordinate(v, 1))?;
    let behind = product(alloc, coordinate(u, 1), coordinate(v, 0))?;
    difference(alloc, ahead, behind)
}
