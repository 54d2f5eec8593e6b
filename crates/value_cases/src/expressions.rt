// Expressions as the words of a row: an operation stands before its operands.
ghost use Rattle.std.specs.Prelude.{◌<◌, IfOk};
ghost use Rattle.spec_expressions.specs.Term.{term, HasLeaves};
ghost use Rattle.spec_expressions.specs.Vectors.{IsVector};

use crate::fields::{Fields, RowError};
use crate::parts::next_decimal;
use event_expr::builders::{
    coordinate, cosine, difference, dot, length, product, signed_square, squared_length, sum,
};
use event_expr::{Expr, Vector};
use std::alloc::{AllocError, Global};

// The most operations within one another that are read.
const DEEPEST: u32 = 200;

// The number of targets.
const TARGETS: u8 = 2;

// The number of axes.
const AXES: u8 = 3;

// An operation that makes one expression of two.
#[derive(Clone, Copy)]
enum Operation {
    Sum,
    Difference,
    Product,
}

// Reads the number of a target, 0 or 1, and returns its position or its velocity, as the word `quantity` says. Any
// other word is malformed.
fn vector_of_quantity(quantity: &str, fields: &mut Fields<'_>) -> Result<Vector, RowError>
    ensures { IfOk result IsVector }
{
    let target = fields.next_number::<u8>();
    if target >= TARGETS {
        return Err(RowError::Malformed);
    }
    match quantity {
        "position" => Ok(Vector::Position(target)),
        "velocity" => Ok(Vector::Velocity(target)),
        _ => Err(RowError::Malformed),
    }
}

// Reads the number of an axis, 0 to 2. Any other is malformed.
fn next_axis(fields: &mut Fields<'_>) -> Result<u8, RowError>
    ensures { IfOk result (λ axis. axis < 3) }
{
    let axis = fields.next_number::<u8>();
    if axis < AXES {
        Ok(axis)
    } else {
        Err(RowError::Malformed)
    }
}

// Reads a vector: the word `position` or `velocity`, and the number of a target.
fn next_vector(fields: &mut Fields<'_>) -> Result<Vector, RowError>
    ensures { IfOk result IsVector }
{
    vector_of_quantity(fields.next_word(), fields)
}

// Reads two vectors, and returns the expression of their dot product.
fn next_dot_product(alloc: Global, fields: &mut Fields<'_>) -> Result<Expr, RowError>
    ensures { IfOk result (λ expr. HasLeaves (term expr)) }
{
    let first = next_vector(fields)?;
    let second = next_vector(fields)?;
    Ok(dot(alloc, first, second)?)
}

// Reads the rest of an expression that contains no other expression and starts with this word: a constant (`length`,
// `cosine`, `squared_length`), a dot product (`dot`), or a coordinate. Any other word is malformed.
fn rest_of_simple_expression(
    alloc: Global,
    word: &str,
    fields: &mut Fields<'_>,
) -> Result<Expr, RowError>
    ensures { IfOk result (λ expr. HasLeaves (term expr)) }
{
    match word {
        "length" => Ok(length(next_decimal(fields))),
        "cosine" => Ok(cosine(next_decimal(fields))),
        "squared_length" => Ok(squared_length(alloc, next_decimal(fields))?),
        "dot" => next_dot_product(alloc, fields),
        _ => {
            let vector = vector_of_quantity(word, fields)?;
            Ok(coordinate(vector, next_axis(fields)?))
        }
    }
}

// Returns the operation on two expressions that has this name, or none if no such operation has it.
fn operation_of_name(word: &str) -> Option<Operation> {
    match word {
        "sum" => Some(Operation::Sum),
        "difference" => Some(Operation::Difference),
        "product" => Some(Operation::Product),
        _ => None,
    }
}

// Applies an operation to two expressions, and returns the expression of it. The only error is out of memory.
fn expression_of_two(
    alloc: Global,
    operation: Operation,
    x: Expr,
    y: Expr,
) -> Result<Expr, AllocError>
    requires x { HasLeaves (term x) }
    requires y { HasLeaves (term y) }
    ensures { IfOk result (λ expr. HasLeaves (term expr)) }
{
    match operation {
        Operation::Sum => sum(alloc, x, y),
        Operation::Difference => difference(alloc, x, y),
        Operation::Product => product(alloc, x, y),
    }
}

// Reads an expression in which fewer than `room` operations lie within one another. One with more is malformed. The
// bound keeps the recursion from using up the stack.
fn next_expression_within(
    alloc: Global,
    fields: &mut Fields<'_>,
    room: u32,
) -> Result<Expr, RowError>
    ensures { IfOk result (λ expr. HasLeaves (term expr)) }
{
    if room == 0 {
        return Err(RowError::Malformed);
    }
    let word = fields.next_word();
    if word == "signed_square" {
        let x = next_expression_within(alloc, fields, room - 1)?;
        return Ok(signed_square(alloc, x)?);
    }
    match operation_of_name(word) {
        Some(operation) => {
            let x = next_expression_within(alloc, fields, room - 1)?;
            let y = next_expression_within(alloc, fields, room - 1)?;
            Ok(expression_of_two(alloc, operation, x, y)?)
        }
        None => rest_of_simple_expression(alloc, word, fields),
    }
}

/// Reads an expression, in which each operation stands before its operands. One in which 200 operations or more lie
/// within one another is malformed.
pub(crate) fn next_expression(alloc: Global, fields: &mut Fields<'_>) -> Result<Expr, RowError>
    ensures { IfOk result (λ expr. HasLeaves (term expr)) }
{
    next_expression_within(alloc, fields, DEEPEST)
}
