// The functions of the kinds that are no occultations. The only error of each call is out of memory.
ghost use Rattle.std.specs.Prelude.{◌≡◌, ◌<◌, IfOk};
ghost use Rattle.spec_expressions.specs.Term.{term, cosine, product, signed_square, sum};
ghost use Rattle.spec_expressions.specs.Vectors.{IsVector, dot};
ghost use Rattle.spec_kinds.specs.Kinds.{coordinate_function, radius_function, apsis_function, separation_function, dot_change, separation_change};
ghost use Rattle.spec_kinds.specs.Vectors.{target, second, target_velocity, second_velocity};

use crate::vectors::{SECOND, SECOND_VELOCITY, TARGET, TARGET_VELOCITY};
use event_expr::builders::{
    coordinate, cosine, difference, dot, length, product, signed_square, squared_length, sum,
};
use event_expr::{Expr, Vector};
use spec_text::Decimal;
use std::alloc::{AllocError, Global};

/// Returns the function of the kind `coord`: a coordinate of the target less a value, in km. The axis is 0, 1 or 2 for
/// x, y or z. The only error is out of memory.
pub fn coordinate_function(alloc: Global, axis: u8, value: Decimal) -> Result<Expr, AllocError>
    requires { axis < 3 }
    ensures { IfOk result (λ e. term e ≡ coordinate_function axis value) }
{
    difference(alloc, coordinate(TARGET, axis), length(value))
}

/// Returns the function of the kind `radius`: the squared distance of the target from the observer less the square of a
/// distance in km. The only error is out of memory.
pub fn radius_function(alloc: Global, value: Decimal) -> Result<Expr, AllocError>
    ensures { IfOk result (λ e. term e ≡ radius_function value) }
{
    difference(
        alloc,
        dot(alloc, TARGET, TARGET)?,
        squared_length(alloc, value)?,
    )
}

/// Returns the function of the kind `apsis`: half the rate of the target's squared distance from the observer, in
/// square km a tick. It is 0 when that distance is least or greatest. The only error is out of memory.
pub fn apsis_function(alloc: Global) -> Result<Expr, AllocError>
    ensures { IfOk result (λ e. term e ≡ apsis_function) }
{
    dot(alloc, TARGET, TARGET_VELOCITY)
}

/// Returns the function of the kind `sep`, which is 0 when both bodies are seen at the angle of which `angle` is the
/// cosine. It is the signed square of the dot product of their positions less the value of that square at this angle.
/// The only error is out of memory.
pub fn separation_function(alloc: Global, angle: Decimal) -> Result<Expr, AllocError>
    ensures { IfOk result (λ e. term e ≡ separation_function angle) }
{
    let square = signed_square(alloc, dot(alloc, TARGET, SECOND)?)?;
    difference(alloc, square, signed_square_at_angle(alloc, angle)?)
}

// Returns an expression: the signed square of the dot product that the positions of both bodies would have at the angle
// of which `angle` is the cosine, with the distances that they have. The only error is out of memory.
fn signed_square_at_angle(alloc: Global, angle: Decimal) -> Result<Expr, AllocError>
    ensures { IfOk result (λ e. term e
        ≡ product (signed_square (cosine angle)) (product (dot target target) (dot second second))) }
{
    let square = signed_square(alloc, cosine(angle))?;
    product(alloc, square, product_of_squared_distances(alloc)?)
}

// Returns an expression: the product of the squared distances of the target and the second body from the observer. The
// only error is out of memory.
fn product_of_squared_distances(alloc: Global) -> Result<Expr, AllocError>
    ensures { IfOk result (λ e. term e ≡ product (dot target target) (dot second second)) }
{
    product_of_dot_products(alloc, (TARGET, TARGET), (SECOND, SECOND))
}

// Returns an expression: the product of two dot products, each of a pair of vectors. The only error is out of memory.
fn product_of_dot_products(
    alloc: Global,
    one: (Vector, Vector),
    other: (Vector, Vector),
) -> Result<Expr, AllocError>
    requires first { IsVector one.0 }
    requires second { IsVector one.1 }
    requires third { IsVector other.0 }
    requires fourth { IsVector other.1 }
    ensures { IfOk result (λ e. term e ≡ product (dot one.0 one.1) (dot other.0 other.1)) }
{
    let first = dot(alloc, one.0, one.1)?;
    product(alloc, first, dot(alloc, other.0, other.1)?)
}

/// Returns the function of the kind `sepext`: the rate of the cosine of the angle between both bodies, times a positive
/// number. So it passes 0 when the separation is least or greatest. The only error is out of memory.
pub fn separation_extreme_function(alloc: Global) -> Result<Expr, AllocError>
    ensures { IfOk result (λ e. term e ≡ separation_change) }
{
    let turning = part_of_dot_product_rate(alloc)?;
    difference(alloc, turning, part_of_distance_rates(alloc)?)
}

// Returns an expression: what the rate of the positions' dot product adds to the function of `sepext`. It is that rate
// times both squared distances. The only error is out of memory.
fn part_of_dot_product_rate(alloc: Global) -> Result<Expr, AllocError>
    ensures { IfOk result (λ e. term e
        ≡ product dot_change (product (dot target target) (dot second second))) }
{
    let change = dot_product_rate(alloc)?;
    product(alloc, change, product_of_squared_distances(alloc)?)
}

// Returns an expression: the rate at which the dot product of the positions of both bodies changes, in square km a
// tick. The only error is out of memory.
fn dot_product_rate(alloc: Global) -> Result<Expr, AllocError>
    ensures { IfOk result (λ e. term e ≡ dot_change) }
{
    let first = dot(alloc, TARGET_VELOCITY, SECOND)?;
    sum(alloc, first, dot(alloc, TARGET, SECOND_VELOCITY)?)
}

// Returns an expression: what the rates of both distances take from the function of `sepext`. It is half the rate of
// the product of the squared distances, times the dot product of the positions. The only error is out of memory.
fn part_of_distance_rates(alloc: Global) -> Result<Expr, AllocError>
    ensures { IfOk result (λ e. term e ≡ product (dot target second) (sum
        (product (dot target target_velocity) (dot second second))
        (product (dot target target) (dot second second_velocity)))) }
{
    let places = dot(alloc, TARGET, SECOND)?;
    product(alloc, places, half_rate_of_squared_distances(alloc)?)
}

// Returns an expression: half the rate at which the product of the squared distances of both bodies changes, in km^4 a
// tick. The only error is out of memory.
fn half_rate_of_squared_distances(alloc: Global) -> Result<Expr, AllocError>
    ensures { IfOk result (λ e. term e ≡ sum
        (product (dot target target_velocity) (dot second second))
        (product (dot target target) (dot second second_velocity))) }
{
    let first = product_of_dot_products(alloc, (TARGET, TARGET_VELOCITY), (SECOND, SECOND))?;
    sum(
        alloc,
        first,
        product_of_dot_products(alloc, (TARGET, TARGET), (SECOND, SECOND_VELOCITY))?,
    )
}
