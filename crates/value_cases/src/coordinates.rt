// Rows of the coordinates of bodies, seen from an observer in a frame.
ghost use Rattle.std.specs.Prelude.{◌<◌, IfOk};
ghost use Rattle.spec_bodies.specs.Views.{Fits};

use crate::enclosures::{EnclosureParts, next_enclosure_parts, parts_of_enclosure};
use crate::fields::{Fields, RowError};
use crate::formulas::has_enclosure;
use crate::scenes::{View, next_scene, next_span, states_of_scene};
use body_states::{BodyStates, Quantity, States};
use eph_model::Ephemeris;
use event_expr::Formula;
use event_expr::builders::{position, velocity};

// The number of targets.
const TARGETS: u8 = 2;

// The number of axes.
const AXES: u8 = 3;

// A quantity of a target along an axis. Targets and axes are counted from 0.
#[derive(Clone, Copy)]
struct Coordinate {
    quantity: Quantity,
    target: u8,
    axis: u8,
}

// Returns the quantity that has this name, `position` or `velocity`. Any other word is malformed.
fn quantity_of_name(name: &str) -> Result<Quantity, RowError> {
    match name {
        "position" => Ok(Quantity::Position),
        "velocity" => Ok(Quantity::Velocity),
        _ => Err(RowError::Malformed),
    }
}

// Reads a coordinate: a quantity, the number of a target, 0 or 1, and the number of an axis, 0 to 2.
fn next_coordinate(fields: &mut Fields<'_>) -> Result<Coordinate, RowError>
    ensures target { IfOk result (λ c. c.target < 2) }
    ensures axis { IfOk result (λ c. c.axis < 3) }
{
    let quantity = quantity_of_name(fields.next_word())?;
    let target = fields.next_number::<u8>();
    let axis = fields.next_number::<u8>();
    if target < TARGETS && axis < AXES {
        Ok(Coordinate {
            quantity,
            target,
            axis,
        })
    } else {
        Err(RowError::Malformed)
    }
}

// Returns the numbers of the enclosure that the states give of a coordinate from time `a` to `b`.
fn enclosure_by_states(states: &BodyStates<'_>, c: Coordinate, a: i64, b: i64) -> EnclosureParts
    requires target { c.target < 2 }
    requires axis { c.axis < 3 }
    requires fits { Fits states.now a b }
{
    match c.quantity {
        Quantity::Position => parts_of_enclosure(&states.pos(c.target, c.axis, a, b)),
        Quantity::Velocity => parts_of_enclosure(&states.vel(c.target, c.axis, a, b)),
    }
}

// Returns the formula that consists of one coordinate alone.
fn formula_of_coordinate(c: Coordinate) -> Result<Formula, RowError>
    requires target { c.target < 2 }
    requires axis { c.axis < 3 }
{
    let leaf = match c.quantity {
        Quantity::Position => position(c.target, c.axis),
        Quantity::Velocity => velocity(c.target, c.axis),
    };
    match Formula::new(leaf) {
        Ok(formula) => Ok(formula),
        Err(_) => Err(RowError::Malformed),
    }
}

// Reads a count of columns and their numbers, and tells whether the states use exactly these, in this order.
fn columns_agree(states: &BodyStates<'_>, fields: &mut Fields<'_>) -> bool {
    let columns = states.columns();
    let count = fields.next_number::<usize>();
    let mut agree = columns.len() == count;
    for place in 0..count {
        let number = fields.next_number::<usize>();
        if fields.is_malformed() {
            return false;
        }
        agree = agree && columns.get(place) == Some(&number);
    }
    agree
}

// Reads the enclosure of a coordinate from time `a` to `b`, and tells whether both the states and the formula of the
// coordinate give it.
fn enclosure_agrees(
    states: &BodyStates<'_>,
    c: Coordinate,
    a: i64,
    b: i64,
    fields: &mut Fields<'_>,
) -> Result<bool, RowError>
    requires target { c.target < 2 }
    requires axis { c.axis < 3 }
    requires fits { Fits states.now a b }
{
    let expected = next_enclosure_parts(fields);
    let is_given = enclosure_by_states(states, c, a, b) == expected;
    let formula = formula_of_coordinate(c)?;
    Ok(has_enclosure(&formula, View { states, a, b }, &expected) && is_given)
}

/// Compares a coordinate: the row has two targets, an observer, a frame, a coordinate, the first and the last time,
/// the coordinate's enclosure over these times, and the columns in use.
pub(crate) fn coordinate_agrees(
    ephemeris: &Ephemeris,
    fields: &mut Fields<'_>,
) -> Result<bool, RowError> {
    let scene = next_scene(fields);
    let coordinate = next_coordinate(fields)?;
    let states = states_of_scene(ephemeris, scene)?;
    let (a, b) = next_span(ephemeris, &states, fields)?;
    let is_coordinate = enclosure_agrees(&states, coordinate, a, b, fields)?;
    Ok(columns_agree(&states, fields) && is_coordinate)
}
