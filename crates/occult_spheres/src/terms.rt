// The expressions of the function and the guards. Target 0 is in front, target 1 at the back. The only error of each
// call is out of memory.
ghost use Rattle.std.specs.Prelude.{◌≡◌, IfOk};
ghost use Rattle.spec_expressions.specs.Term.{term, difference, product};
ghost use Rattle.spec_expressions.specs.Vectors.{dot, squared_length, IsVector};
ghost use Rattle.spec_kinds.specs.Shadows.{tangents, shadow_function, farther, larger};

use event_expr::builders::{difference, dot, length, product, signed_square, squared_length, sum};
use event_expr::{Expr, Vector};
use spec_kinds::Shadow;
use spec_text::Decimal;
use std::alloc::{AllocError, Global};

/// The position of the body in front.
const FRONT: Vector = Vector::Position(0);

/// The position of the body at the back.
const BACK: Vector = Vector::Position(1);

// Returns an expression: the product of the squared lengths of the tangents from the observer to both spheres, whose
// radii are in km. The only error is out of memory.
fn product_of_squared_tangents(
    alloc: Global,
    front: Decimal,
    back: Decimal,
) -> Result<Expr, AllocError>
    ensures { IfOk result (λ e. term e ≡ tangents front back) }
{
    let near = squared_tangent(alloc, FRONT, front)?;
    let far = squared_tangent(alloc, BACK, back)?;
    product(alloc, near, far)
}

// Returns an expression: the squared length, in square km, of a tangent from the observer to the sphere of this radius
// in km at `place`. It is the squared distance less the squared radius. The only error is out of memory.
fn squared_tangent(alloc: Global, place: Vector, radius: Decimal) -> Result<Expr, AllocError>
    requires { IsVector place }
    ensures { IfOk result (λ e. term e ≡ difference (dot place place) (squared_length radius)) }
{
    let distance = dot(alloc, place, place)?;
    difference(alloc, distance, squared_length(alloc, radius)?)
}

/// Returns the function of an occultation as an expression, which is 0 when the discs touch: a signed square less the
/// product of both squared tangents. Squared is the dot product of the positions, with the product of the radii in km
/// added (`Any`) or subtracted (`Full`, `Annular`). The only error is out of memory.
pub fn occultation_function(
    alloc: Global,
    shadow: Shadow,
    front: Decimal,
    back: Decimal,
) -> Result<Expr, AllocError>
    ensures { IfOk result (λ e. term e ≡ shadow_function shadow front back) }
{
    let places = dot(alloc, FRONT, BACK)?;
    let radii = product(alloc, length(front), length(back))?;
    let between = match shadow {
        Shadow::Any => sum(alloc, places, radii)?,
        Shadow::Full | Shadow::Annular => difference(alloc, places, radii)?,
    };
    let square = signed_square(alloc, between)?;
    difference(
        alloc,
        square,
        product_of_squared_tangents(alloc, front, back)?,
    )
}

/// Returns an expression that is at least 0 while the body at the back is no nearer than the one in front: the squared
/// distance of the first less that of the second, in square km. The only error is out of memory.
pub fn distance_guard(alloc: Global) -> Result<Expr, AllocError>
    ensures { IfOk result (λ e. term e ≡ farther) }
{
    difference(alloc, dot(alloc, BACK, BACK)?, dot(alloc, FRONT, FRONT)?)
}

/// Returns an expression that is at least 0 while the disc in front is no smaller than the one at the back. Radii are
/// in km. The only error is out of memory.
pub fn disc_size_guard(alloc: Global, front: Decimal, back: Decimal) -> Result<Expr, AllocError>
    ensures { IfOk result (λ e. term e ≡ larger front back) }
{
    difference(
        alloc,
        comparable_disc_size(alloc, front, BACK)?,
        comparable_disc_size(alloc, back, FRONT)?,
    )
}

// Returns an expression: a sphere's squared radius times the squared distance of the other sphere, which is at `other`.
// Of two spheres, the one with the greater such product has the larger disc, which is found so without a division. The
// only error is out of memory.
fn comparable_disc_size(alloc: Global, radius: Decimal, other: Vector) -> Result<Expr, AllocError>
    requires { IsVector other }
    ensures { IfOk result (λ e. term e ≡ product (squared_length radius) (dot other other)) }
{
    let square = squared_length(alloc, radius)?;
    product(alloc, square, dot(alloc, other, other)?)
}
