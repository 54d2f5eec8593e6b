// Rows of the enclosures of formulas over the states of bodies, and of the limits of formulas.
ghost use Rattle.std.specs.Prelude.{◌≡◌};
ghost use Rattle.spec_bodies.specs.Views.{Fits, state_enclosure};
ghost use Rattle.spec_searches.specs.Search.{enclosure_over};

use crate::enclosures::{EnclosureParts, next_enclosure_parts, parts_of_enclosure};
use crate::expressions::next_expression;
use crate::fields::{Fields, RowError};
use crate::scenes::{View, next_scene, next_span, states_of_scene};
use body_states::BodyStates;
use column_steps::{MAX_STEPS, StepList};
use eph_model::Ephemeris;
use event_expr::{ExprFault, Formula, Leaves, enclose};
use ival_core::Enclosure;
use std::alloc::Global;
use step_enclosures::{StepEnclosures, blank};

// Returns the enclosure of a formula from time `a` to `b` over a snapshot of the states, as searches compute it. The
// columns of the coordinates in `wanted` are made with the snapshot, and others when they are read.
fn enclosure_by_steps(
    formula: &Formula,
    states: &BodyStates<'_>,
    a: i64,
    b: i64,
    wanted: &Leaves,
) -> Enclosure
    requires { Fits states.now a b }
    ensures { result ≡ enclosure_over (state_enclosure states.now) formula.now a b }
{
    let (steps, place) = StepList::of(states.sight(), formula);
    let snapshot = states.at(a, b, wanted);
    let mut slots = [blank(); MAX_STEPS];
    StepEnclosures::new(&snapshot, &steps, &mut slots).enclosure(place)
}

/// Tells whether a formula has the expected enclosure, computed in three ways: over the states themselves, over a
/// snapshot for which all columns of its coordinates are made at once, and over one for which none is.
pub(crate) fn has_enclosure(
    formula: &Formula,
    view: View<'_, '_>,
    expected: &EnclosureParts,
) -> bool
    requires { Fits view.states.now view.a view.b }
{
    let (states, a, b) = (view.states, view.a, view.b);
    let asked = parts_of_enclosure(&enclose(formula, states, a, b));
    let made = parts_of_enclosure(&enclosure_by_steps(formula, states, a, b, &formula.leaves()));
    let read = parts_of_enclosure(&enclosure_by_steps(formula, states, a, b, &Leaves::none()));
    asked == *expected && made == *expected && read == *expected
}

// Reads an expression, and returns it as a formula. An expression that passes a limit of formulas is malformed.
fn next_formula(alloc: Global, fields: &mut Fields<'_>) -> Result<Formula, RowError> {
    match Formula::new(next_expression(alloc, fields)?) {
        Ok(formula) => Ok(formula),
        Err(_) => Err(RowError::Malformed),
    }
}

/// Compares the enclosure of a formula: the row has two targets, an observer, a frame, the first and the last time,
/// the formula and its enclosure over these times.
pub(crate) fn formula_agrees(
    alloc: Global,
    ephemeris: &Ephemeris,
    fields: &mut Fields<'_>,
) -> Result<bool, RowError> {
    let states = states_of_scene(ephemeris, next_scene(fields))?;
    let (a, b) = next_span(ephemeris, &states, fields)?;
    let formula = next_formula(alloc, fields)?;
    let expected = next_enclosure_parts(fields);
    Ok(has_enclosure(
        &formula,
        View {
            states: &states,
            a,
            b,
        },
        &expected,
    ))
}

// Reads the name of a limit of formulas, and returns the limit, or none for `none`. Any other word is malformed.
fn next_limit(fields: &mut Fields<'_>) -> Option<ExprFault> {
    match fields.next_word() {
        "none" => None,
        "nodes" => Some(ExprFault::Nodes),
        "degree" => Some(ExprFault::Degree),
        "constant" => Some(ExprFault::Constant),
        _ => {
            fields.refuse();
            None
        }
    }
}

/// Compares which limit of formulas an expression passes first: the row has the name of the limit, or `none`, and the
/// expression.
pub(crate) fn limit_agrees(alloc: Global, fields: &mut Fields<'_>) -> Result<bool, RowError> {
    let expected = next_limit(fields);
    match Formula::new(next_expression(alloc, fields)?) {
        Ok(_) => Ok(expected.is_none()),
        Err(fault) => Ok(expected == Some(fault)),
    }
}
