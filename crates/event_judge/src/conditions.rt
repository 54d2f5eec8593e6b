// The signs of conditions over one span of times.
ghost use Rattle.std.specs.Prelude.{◌≡◌};
ghost use Rattle.std.specs.List.{list_all, list_any};
ghost use Rattle.spec_events.specs.Verdict.{certifies, is_certified, is_refuted};
ghost use Rattle.body_states.specs.Moments.{enclosure_in};
ghost use Rattle.event_judge.specs.Listed.{AreGuardsAt, IsSlotOf};
ghost use Rattle.event_judge.specs.Moments.{finding_in, sign_in};

use crate::listed_event::ListedEvent;
use body_states::Snapshot;
use column_steps::{MAX_STEPS, StepList};
use event_expr::Formula;
use event_kinds::Guard;
use ival_core::{Enclosure, Sign};
use step_enclosures::{StepEnclosures, blank};

// Tells whether a sign shows that a condition holds: that its formula is at least 0, or below 0 if not `at_least`.
#[inline(always)]
fn sign_certifies(at_least: bool, sign: Sign) -> bool
    ensures { result ≡ certifies at_least sign }
{
    match sign {
        Sign::Yes => at_least,
        Sign::No => !at_least,
        Sign::Open => false,
    }
}

// Returns the enclosure of a formula over the times of a snapshot, by steps made for it alone. It stands apart
// (`inline(never)`), so that its slots are cleared only when it is called.
#[inline(never)]
fn enclosure_by_own_steps(formula: &Formula, states: &Snapshot) -> Enclosure
    ensures { result ≡ enclosure_in states.now formula.now }
{
    let mut slots = [blank(); MAX_STEPS];
    let (steps, place) = StepList::of(states.sight(), formula);
    StepEnclosures::new(states, &steps, &mut slots).enclosure(place)
}

// Returns the sign of a condition's formula, by the event's step with this number, or by steps of its own without one.
#[inline(always)]
fn condition_sign(guard: &Guard, number: Option<usize>, made: &mut StepEnclosures) -> Sign
    requires listed { IsSlotOf made.old.steps made.old.room guard.now.term number }
    ensures sign { result ≡ sign_in made.old.moment guard.now.term }
    ensures same { made.new ≡ made.old }
{
    match number {
        Some(place) => made.enclosure(place).range.sign(),
        None => enclosure_by_own_steps(guard.formula(), made.states())
            .range
            .sign(),
    }
}

// Tells whether a condition is known to hold at each of the times of the enclosures.
#[inline(always)]
fn is_certified(guard: &Guard, number: Option<usize>, made: &mut StepEnclosures) -> bool
    requires listed { IsSlotOf made.old.steps made.old.room guard.now.term number }
    ensures certified { result ≡ is_certified (finding_in made.old.moment guard.now) }
    ensures same { made.new ≡ made.old }
{
    sign_certifies(guard.at_least(), condition_sign(guard, number, made))
}

// Tells whether a condition is known to be false at each of the times of the enclosures.
#[inline(always)]
fn is_refuted(guard: &Guard, number: Option<usize>, made: &mut StepEnclosures) -> bool
    requires listed { IsSlotOf made.old.steps made.old.room guard.now.term number }
    ensures refuted { result ≡ is_refuted (finding_in made.old.moment guard.now) }
    ensures same { made.new ≡ made.old }
{
    sign_certifies(!guard.at_least(), condition_sign(guard, number, made))
}

/// Tells whether each condition is known to hold at each of the times of the enclosures. Without conditions it is true.
pub(crate) fn are_certified(
    guards: &[Guard],
    listed: &ListedEvent,
    made: &mut StepEnclosures,
) -> bool
    requires listed { AreGuardsAt made.old.steps made.old.room guards.now listed.now }
    ensures certified { result
        ≡ list_all (λ guard. is_certified (finding_in made.old.moment guard)) guards.now }
    ensures same { made.new ≡ made.old }
{
    for place in 0..guards.len() {
        if !is_certified(&guards[place], listed.guard_step(place), made) {
            return false;
        }
    }
    true
}

/// Tells whether some condition is known to be false at each time of the enclosures, so that no event is there.
pub(crate) fn is_one_refuted(
    guards: &[Guard],
    listed: &ListedEvent,
    made: &mut StepEnclosures,
) -> bool
    requires listed { AreGuardsAt made.old.steps made.old.room guards.now listed.now }
    ensures refuted { result
        ≡ list_any (λ guard. is_refuted (finding_in made.old.moment guard)) guards.now }
    ensures same { made.new ≡ made.old }
{
    for place in 0..guards.len() {
        if is_refuted(&guards[place], listed.guard_step(place), made) {
            return true;
        }
    }
    false
}
