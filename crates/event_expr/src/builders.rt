// The builders of expressions, from coordinates, constants and other expressions.

ghost use Rattle.std.specs.Prelude.{◌≡◌, ◌<◌, IfOk};
ghost use Rattle.spec_expressions.specs.Term.{position as position_of, velocity as velocity_of, term, leaf, length, cosine, sum, difference, product, signed_square, HasLeaves};
ghost use Rattle.spec_expressions.specs.Vectors.{IsVector, coordinate, dot, squared_length};

use spec_expressions::{Expr, Vector};
use spec_text::Decimal;
use std::alloc::{AllocError, Global};

/// Returns the expression of a coordinate of a target's position, in km, for target 0 or 1 and axis 0, 1 or 2.
pub fn position(target: u8, axis: u8) -> Expr
    requires target { target < 2 }
    requires axis { axis < 3 }
    ensures built { term result ≡ leaf (position_of target axis) }
    ensures leaves { HasLeaves (term result) }
{
    Expr::Pos { target, axis }
}

/// Returns the expression of a coordinate of a target's velocity, in km a tick, for target 0 or 1 and axis 0, 1 or 2.
pub fn velocity(target: u8, axis: u8) -> Expr
    requires target { target < 2 }
    requires axis { axis < 3 }
    ensures built { term result ≡ leaf (velocity_of target axis) }
    ensures leaves { HasLeaves (term result) }
{
    Expr::Vel { target, axis }
}

/// Returns the expression of a vector's coordinate on one axis, 0, 1 or 2.
pub fn coordinate(vector: Vector, axis: u8) -> Expr
    requires vector { IsVector vector }
    requires axis { axis < 3 }
    ensures built { term result ≡ coordinate vector axis }
    ensures leaves { HasLeaves (term result) }
{
    match vector {
        Vector::Position(target) => position(target, axis),
        Vector::Velocity(target) => velocity(target, axis),
    }
}

/// Returns the expression of a constant length, in km. Whether it is in range is tested by `Formula::new`.
pub fn length(km: Decimal) -> Expr
    ensures built { term result ≡ length km }
    ensures leaves { HasLeaves (term result) }
{
    Expr::Length(km)
}

/// Returns the expression of a constant cosine, without a unit. Whether it is in range is tested by `Formula::new`.
pub fn cosine(number: Decimal) -> Expr
    ensures built { term result ≡ cosine number }
    ensures leaves { HasLeaves (term result) }
{
    Expr::Cosine(number)
}

/// Returns the expression of the sum of two expressions. The only error is out of memory.
pub fn sum(alloc: Global, x: Expr, y: Expr) -> Result<Expr, AllocError>
    ensures built { IfOk result (λ e. term e ≡ sum (term x) (term y)) }
    ensures leaves { HasLeaves (term x) → HasLeaves (term y)
        → IfOk result (λ e. HasLeaves (term e)) }
{
    Ok(Expr::Add(Box::new(alloc, x)?, Box::new(alloc, y)?))
}

/// Returns the expression of the first operand less the second. The only error is out of memory.
pub fn difference(alloc: Global, x: Expr, y: Expr) -> Result<Expr, AllocError>
    ensures built { IfOk result (λ e. term e ≡ difference (term x) (term y)) }
    ensures leaves { HasLeaves (term x) → HasLeaves (term y)
        → IfOk result (λ e. HasLeaves (term e)) }
{
    Ok(Expr::Sub(Box::new(alloc, x)?, Box::new(alloc, y)?))
}

/// Returns the expression of the product of two expressions. The only error is out of memory.
pub fn product(alloc: Global, x: Expr, y: Expr) -> Result<Expr, AllocError>
    ensures built { IfOk result (λ e. term e ≡ product (term x) (term y)) }
    ensures leaves { HasLeaves (term x) → HasLeaves (term y)
        → IfOk result (λ e. HasLeaves (term e)) }
{
    Ok(Expr::Mul(Box::new(alloc, x)?, Box::new(alloc, y)?))
}

/// Returns the expression of an operand times its own magnitude, a signed square. The only error is out of memory.
pub fn signed_square(alloc: Global, x: Expr) -> Result<Expr, AllocError>
    ensures built { IfOk result (λ e. term e ≡ signed_square (term x)) }
    ensures leaves { HasLeaves (term x) → IfOk result (λ e. HasLeaves (term e)) }
{
    Ok(Expr::SignedSquare(Box::new(alloc, x)?))
}

/// Returns the expression of the square of a constant length, in square km. The only error is out of memory.
pub fn squared_length(alloc: Global, km: Decimal) -> Result<Expr, AllocError>
    ensures built { IfOk result (λ e. term e ≡ squared_length km) }
    ensures leaves { IfOk result (λ e. HasLeaves (term e)) }
{
    product(alloc, length(km), length(km))
}

/// Returns the expression of a product of two vectors' coordinates on axis 0, 1 or 2. The only error is out of memory.
fn product_on_axis(alloc: Global, u: Vector, v: Vector, axis: u8) -> Result<Expr, AllocError>
    requires u { IsVector u }
    requires v { IsVector v }
    requires axis { axis < 3 }
    ensures built { IfOk result (λ e. term e ≡ product (coordinate u axis) (coordinate v axis)) }
    ensures leaves { IfOk result (λ e. HasLeaves (term e)) }
{
    product(alloc, coordinate(u, axis), coordinate(v, axis))
}

/// Returns the expression `(u0 v0 + u1 v1) + u2 v2`, the dot product of two vectors. The only error is out of memory.
pub fn dot(alloc: Global, u: Vector, v: Vector) -> Result<Expr, AllocError>
    requires u { IsVector u }
    requires v { IsVector v }
    ensures built { IfOk result (λ e. term e ≡ dot u v) }
    ensures leaves { IfOk result (λ e. HasLeaves (term e)) }
{
    let x = product_on_axis(alloc, u, v, 0)?;
    let y = product_on_axis(alloc, u, v, 1)?;
    let z = product_on_axis(alloc, u, v, 2)?;
    let plane = sum(alloc, x, y)?;
    sum(alloc, plane, z)
}
