// The table of kinds: the event of each.
ghost use Rattle.std.specs.Prelude.{◌≡◌, ◌<◌, [], ◌∷◌, IfOk, IfErr, OnOk, IsTrue, None, map};
ghost use Rattle.spec_expressions.specs.Term.{term, IsFormula};
ghost use Rattle.spec_kinds.specs.Asks.{IsAsk};
ghost use Rattle.spec_kinds.specs.Faults.{is_radius, are_in_range, fault_of};
ghost use Rattle.spec_kinds.specs.Kinds.{event_of};
ghost use Rattle.spec_kinds.specs.Shadows.{shadow_function, shadow_conditions};
ghost use Rattle.spec_kinds.specs.Vectors.{target, second, plane_dot, plane_cross};
ghost use Rattle.occult_spheres.specs.Guards.{condition_of};
ghost use Rattle.event_kinds.specs.Faults.{event_fault_of};

use crate::faults::{KindFault, first_fault};
use crate::guarded::{Event, Guard};
use crate::rows::{
    apsis_function, coordinate_function, radius_function, separation_extreme_function,
    separation_function,
};
use crate::vectors::{SECOND, TARGET, TARGET_VELOCITY, plane_cross, plane_dot};
use eph_model::Ephemeris;
use event_expr::{Expr, Formula};
use occult_spheres::occult;
use spec_events::Dir;
use spec_kinds::{Ask, Kind, Shadow};
use std::alloc::{AllocError, Global};

/// Returns the event of an ask, as formulas of positions in km and velocities in km a tick. Target 0 is the ask's
/// target and target 1 its second body, seen from the observer in the frame. The error is the first fault of the ask,
/// or out of memory if it has no fault.
pub fn event(alloc: Global, eph: &Ephemeris, ask: &Ask) -> Result<Event, KindFault>
    requires { IsAsk ask.now }
    ensures made { IfOk result (λ event. event ≡ event_of ask.now) }
    ensures accepted { OnOk result (fault_of eph.now ask.now ≡ None) }
    ensures refused { IfErr result (λ error. event_fault_of error ≡ fault_of eph.now ask.now) }
{
    match first_fault(eph, *ask) {
        Some(fault) => Err(KindFault::from_event_fault(fault)),
        None => match event_of_kind(alloc, *ask) {
            Ok(event) => Ok(event),
            Err(_) => Err(KindFault::Memory),
        },
    }
}

// Returns the event of an ask that has no fault, by the function and the guards of its kind. The only error is out of
// memory.
fn event_of_kind(alloc: Global, ask: Ask) -> Result<Event, AllocError>
    requires axis { ask.axis < 3 }
    requires in_range { IsTrue (are_in_range ask.kind ask.value1 ask.value2) }
    ensures { IfOk result (λ event. event ≡ event_of ask) }
{
    let f = match ask.kind {
        Kind::Coord => coordinate_function(alloc, ask.axis, ask.value1)?,
        Kind::Radius => radius_function(alloc, ask.value1)?,
        Kind::Apsis => apsis_function(alloc)?,
        Kind::Conj => return alignment_event(alloc, true, ask.dir),
        Kind::Oppo => return alignment_event(alloc, false, ask.dir),
        Kind::Station => plane_cross(alloc, TARGET, TARGET_VELOCITY)?,
        Kind::Sep => separation_function(alloc, ask.value1)?,
        Kind::SepExt => separation_extreme_function(alloc)?,
        Kind::Any => return occultation_event(alloc, Shadow::Any, ask),
        Kind::Full => return occultation_event(alloc, Shadow::Full, ask),
        Kind::Annular => return occultation_event(alloc, Shadow::Annular, ask),
    };
    Ok(unguarded_event(alloc, f, ask.dir))
}

// Returns the event at which the function `f` passes 0 in the given direction, with no guard beside it.
fn unguarded_event(alloc: Global, f: Expr, dir: Dir) -> Event
    requires { IsFormula (term f) }
    ensures { result ≡ record { function = term f; conditions = []; dir = dir } }
{
    Event {
        f: Formula::of(f),
        guards: Vec::new(alloc),
        dir,
    }
}

// Returns the event at which both bodies come into one half plane through the z axis (`one_side`, a conjunction), or
// into opposite ones (an opposition). The only error is out of memory.
fn alignment_event(alloc: Global, one_side: bool, dir: Dir) -> Result<Event, AllocError>
    ensures { IfOk result (λ event. event ≡ record {
      function = plane_cross target second;
      conditions = record { term = plane_dot target second; at_least = one_side } ∷ [];
      dir = dir;
    }) }
{
    let f = Formula::of(plane_cross(alloc, TARGET, SECOND)?);
    let g = Formula::of(plane_dot(alloc, TARGET, SECOND)?);
    let mut guards = Vec::new(alloc);
    guards.push(Guard {
        g,
        at_least: one_side,
    })?;
    Ok(Event { f, guards, dir })
}

// Returns the event of an occultation of the second body by the target. The numbers of the ask are the radii of both in
// km, first the target's. The only error is out of memory.
fn occultation_event(alloc: Global, shadow: Shadow, ask: Ask) -> Result<Event, AllocError>
    requires front { IsTrue (is_radius ask.value1) }
    requires back { IsTrue (is_radius ask.value2) }
    ensures { IfOk result (λ event. event ≡ record {
      function = shadow_function shadow ask.value1 ask.value2;
      conditions = shadow_conditions shadow ask.value1 ask.value2;
      dir = ask.dir;
    }) }
{
    let parts = occult(alloc, shadow, ask.value1, ask.value2)?;
    let guards = guards_of_pairs(alloc, parts.guards)?;
    Ok(Event {
        f: parts.f,
        guards,
        dir: ask.dir,
    })
}

// Converts pairs to guards, in their order. A pair is a formula, and whether it has to be at least 0 (true) or below 0
// (false). The only error is out of memory.
fn guards_of_pairs(alloc: Global, pairs: Vec<(Formula, bool)>) -> Result<Vec<Guard>, AllocError>
    ensures { IfOk result (λ guards. guards.items ≡ map condition_of pairs.items) }
{
    let mut guards = Vec::new(alloc);
    for (g, at_least) in pairs {
        guards.push(Guard { g, at_least })?;
    }
    Ok(guards)
}
