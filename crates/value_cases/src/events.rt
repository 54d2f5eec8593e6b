// Rows of the meaning of asks: a function and guards, or a fault.
ghost use Rattle.spec_bodies.specs.Views.{Fits};
ghost use Rattle.spec_kinds.specs.Asks.{IsAsk};

use crate::asks::{next_ask, scene_of_ask};
use crate::enclosures::{EnclosureParts, next_enclosure_parts};
use crate::fields::{Fields, RowError};
use crate::formulas::has_enclosure;
use crate::scenes::{View, next_span, states_of_scene};
use eph_model::Ephemeris;
use event_kinds::{Event, Guard, KindFault, event};
use spec_kinds::Ask;
use std::alloc::Global;

/// Returns the event of an ask: its function, its guards and its direction. An ask with a fault is malformed here.
pub(crate) fn event_of_ask(
    alloc: Global,
    ephemeris: &Ephemeris,
    ask: &Ask,
) -> Result<Event, RowError>
    requires { IsAsk ask.now }
{
    match event(alloc, ephemeris, ask) {
        Ok(event) => Ok(event),
        Err(KindFault::Memory) => Err(RowError::Memory),
        Err(_) => Err(RowError::Malformed),
    }
}

// Tells whether the fault of an ask has this number, as reports of the program print it. Out of memory, which is no
// fault of the ask, stays an error.
fn fault_has_number(fault: KindFault, number: u8) -> Result<bool, RowError> {
    match fault.event_fault() {
        Some(fault) => Ok(fault.number() == number),
        None => Err(RowError::Memory),
    }
}

/// Compares a refusal: the row has an ask, and the number of the fault for which it has no event.
pub(crate) fn refusal_agrees(
    alloc: Global,
    ephemeris: &Ephemeris,
    fields: &mut Fields<'_>,
) -> Result<bool, RowError> {
    let ask = next_ask(fields)?;
    let number = fields.next_number::<u8>();
    match event(alloc, ephemeris, &ask) {
        Ok(_) => Ok(false),
        Err(fault) => fault_has_number(fault, number),
    }
}

// What a row expects of a guard: whether its formula has to be at least 0, or else below 0, and the enclosure of the
// formula.
#[derive(Clone, Copy)]
struct ExpectedGuard {
    at_least: bool,
    enclosure: EnclosureParts,
}

// Reads what a row expects of a guard: `at_least` or `below`, for a formula that has to be at least 0 or below 0, and
// the enclosure of that formula.
fn expected_guard(fields: &mut Fields<'_>) -> ExpectedGuard {
    let side = fields.next_word();
    let at_least = side == "at_least";
    if !at_least && side != "below" {
        fields.refuse();
    }
    let enclosure = next_enclosure_parts(fields);
    ExpectedGuard {
        at_least,
        enclosure,
    }
}

// Tells whether there is a guard, and it has the expected side and enclosure over the times of the view.
fn guard_agrees(guard: Option<&Guard>, view: View<'_, '_>, expected: &ExpectedGuard) -> bool
    requires { Fits view.states.now view.a view.b }
{
    match guard {
        Some(guard) => {
            guard.at_least() == expected.at_least
                && has_enclosure(guard.formula(), view, &expected.enclosure)
        }
        None => false,
    }
}

// Reads a count of guards and what is expected of each, and tells whether the given guards are as many and agree in
// this order.
fn guards_agree(guards: &[Guard], view: View<'_, '_>, fields: &mut Fields<'_>) -> bool
    requires { Fits view.states.now view.a view.b }
{
    let count = fields.next_number::<usize>();
    let mut agree = guards.len() == count;
    for place in 0..count {
        let expected = expected_guard(fields);
        if fields.is_malformed() {
            return false;
        }
        agree = guard_agrees(guards.get(place), view, &expected) && agree;
    }
    agree
}

// Reads the enclosure of a function and those of guards, and tells whether the function and the guards of the event
// have them over the times of the view.
fn formulas_agree(event: &Event, view: View<'_, '_>, fields: &mut Fields<'_>) -> bool
    requires { Fits view.states.now view.a view.b }
{
    let expected = next_enclosure_parts(fields);
    let is_function = has_enclosure(event.function(), view, &expected);
    guards_agree(event.guards(), view, fields) && is_function
}

// Reads what a row expects of the event of an ask: the first and the last time, the enclosure of its function, and its
// guards. Tells whether the event has these over those times, and the direction of the ask.
fn meaning_agrees(
    ephemeris: &Ephemeris,
    ask: &Ask,
    event: &Event,
    fields: &mut Fields<'_>,
) -> Result<bool, RowError> {
    let states = states_of_scene(ephemeris, scene_of_ask(ask))?;
    let (a, b) = next_span(ephemeris, &states, fields)?;
    let are_formulas = formulas_agree(
        event,
        View {
            states: &states,
            a,
            b,
        },
        fields,
    );
    Ok(are_formulas && event.dir() == ask.dir)
}

/// Compares the event of an ask: the row has the ask, the first and the last time, the enclosure of the event's
/// function over these times, and its guards.
pub(crate) fn event_agrees(
    alloc: Global,
    ephemeris: &Ephemeris,
    fields: &mut Fields<'_>,
) -> Result<bool, RowError> {
    let ask = next_ask(fields)?;
    let event = event_of_ask(alloc, ephemeris, &ask)?;
    meaning_agrees(ephemeris, &ask, &event, fields)
}
