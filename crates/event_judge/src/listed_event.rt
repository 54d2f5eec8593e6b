// The function and the conditions of an event as one list of steps.
ghost use Rattle.std.specs.Prelude.{◌≡◌, ◌<◌, ◌≤◌, IfSome};
ghost use Rattle.event_judge.specs.Listed.{AreStepsOf, IsGuardAt, KeepsSteps, place_of};

use crate::slot_count::SlotCount;
use column_steps::StepList;
use event_kinds::{Event, Guard};
use spec_steps::Sight;

/// The steps of an event's function and first two conditions, and their numbers: none for a condition without room.
#[derive(Drop)]
pub(crate) struct ListedEvent {
    pub steps: StepList,
    pub function: usize,
    pub first: Option<usize>,
    pub second: Option<usize>,
    pub slots: SlotCount,
}

impl ListedEvent {
    /// Makes the list of the steps of an event's function and then of its first two conditions, for what is seen.
    pub fn new(event: &Event, sight: Sight) -> ListedEvent
        ensures { AreStepsOf sight event.now result }
    {
        let guards = event.guards();
        let (mut steps, function) = StepList::of(sight, event.function());
        let first = add_guard(&mut steps, guards, 0);
        let second = add_guard(&mut steps, guards, 1);
        ListedEvent {
            steps,
            function,
            first,
            second,
            slots: SlotCount::fewest_for_step(greater_step_number(
                greater_step_number(function, first),
                second,
            )),
        }
    }

    /// Returns the number of the step for the condition at a place, counted from 0, or none if the list has none.
    #[inline(always)]
    pub fn guard_step(&self, place: usize) -> Option<usize>
        ensures { result ≡ place_of self.now place }
    {
        match place {
            0 => self.first,
            1 => self.second,
            _ => None,
        }
    }
}

// Adds the condition at a place, counted from 0, and returns its step's number, or none without a condition or room.
fn add_guard(steps: &mut StepList, guards: &[Guard], place: usize) -> Option<usize>
    ensures kept { KeepsSteps steps.old steps.new }
    ensures made { IsGuardAt steps.new guards.now place result }
    ensures slot { IfSome result (λ k. k < 256) }
{
    if place < guards.len() {
        steps.add(guards[place].formula())
    } else {
        None
    }
}

// Returns the greater of a step's number and another's, if there is one: the slots have to reach to the greatest.
fn greater_step_number(place: usize, other: Option<usize>) -> usize
    requires place { place < 256 }
    requires other { IfSome other (λ k. k < 256) }
    ensures few { result < 256 }
    ensures place { place ≤ result }
    ensures other { IfSome other (λ k. k ≤ result) }
{
    match other {
        Some(other) if other > place => other,
        _ => place,
    }
}
