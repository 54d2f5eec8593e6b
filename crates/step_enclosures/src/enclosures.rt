// The enclosures of the steps of a list over the times of a snapshot, each made when first asked for.
ghost use Rattle.std.specs.Prelude.{◌≡◌, ◌<◌, ◌≤◌, length};
ghost use Rattle.spec_expressions.specs.Term.{Term};
ghost use Rattle.spec_steps.specs.ColumnTerms.{of_term, sight_of};
ghost use Rattle.column_steps.specs.Listed.{IsMadeAt, listed_term, step_count};
ghost use Rattle.body_states.specs.Moments.{enclosure_in, meant_in};

use body_states::Snapshot;
use column_steps::{StepList, fill};
use ival_core::Enclosure;
use std::marker::Model;

/// The enclosures of a list's steps over a snapshot's times, each made once, with all before it, when first asked for.
#[derive(Drop)]
pub struct StepEnclosures<'w, 'r, 's, 'e> {
    states: &'r Snapshot<'s, 'e>,
    steps: &'r StepList,
    slots: &'w mut [Enclosure],
    /// The number of the first steps whose enclosures stand in their slots.
    made: usize,
}

impl<'w, 'r, 's, 'e> Model for StepEnclosures<'w, 'r, 's, 'e> {
    ghost use Rattle.std.specs.Prelude.{◌≡◌, ◌≤◌, length};
    ghost use Rattle.spec_steps.specs.ColumnTerms.{sight_of};
    ghost use Rattle.column_steps.specs.Listed.{step_count};
    ghost use Rattle.step_enclosures.specs.Moments.{AreMade, StepMoment};

    ghost Value = { StepMoment };

    ghost view = { λ s. record {
      moment = s.states.now;
      steps = s.steps.now;
      room = length s.slots.now;
    } };

    ghost invariant = { λ s. (sight_of s.states.now.view ≡ s.steps.now.sight)
        × (s.made ≤ step_count s.steps.now) × (s.made ≤ length s.slots.now)
        × AreMade s.states.now s.steps.now s.made s.slots.now };
}

impl<'w, 'r, 's, 'e> StepEnclosures<'w, 'r, 's, 'e> {
    /// Returns the enclosures of a list's steps over a snapshot's times, none made so far. Slots may hold anything.
    #[inline(always)]
    pub fn new(
        states: &'r Snapshot<'s, 'e>,
        steps: &'r StepList,
        slots: &'w mut [Enclosure],
    ) -> StepEnclosures<'w, 'r, 's, 'e>
        requires sight { sight_of states.now.view ≡ steps.now.sight }
        ensures { result ≡ record {
          moment = states.now;
          steps = steps.now;
          room = length slots.old;
        } }
    {
        StepEnclosures {
            states,
            steps,
            slots,
            made: 0,
        }
    }

    /// Returns the snapshot over whose times the enclosures are made.
    #[inline(always)]
    pub fn states(&self) -> &'r Snapshot<'s, 'e>
        ensures { result.now ≡ self.now.moment }
    {
        self.states
    }

    /// Returns the enclosure of the step at `place`: read from its slot, or made now together with those before it.
    #[inline(always)]
    pub fn enclosure(&mut self, place: usize) -> Enclosure
        requires step { place < step_count self.old.steps }
        requires room { place < self.old.room }
        ensures enclosure { (e : Term) → IsMadeAt self.old.steps place (of_term self.old.steps.sight e)
            → result ≡ enclosure_in self.old.moment e }
        ensures same { self.new ≡ self.old }
    {
        if place < self.made {
            self.slots[place]
        } else {
            self.make(place)
        }
    }

    // Makes the enclosures still missing up to `place`, and returns that one. Not inlined, so that reading stays short.
    #[inline(never)]
    fn make(&mut self, place: usize) -> Enclosure
        requires step { place < step_count self.old.steps }
        requires room { place < self.old.room }
        ensures enclosure { result ≡ meant_in self.old.moment (listed_term self.old.steps place) }
        ensures same { self.new ≡ self.old }
    {
        let upto = self.made.max(place + 1);
        fill(self.states, self.steps, self.made, upto, self.slots);
        self.made = upto;
        self.slots[place]
    }
}
