// A list of steps in an array of fixed length.
ghost use Rattle.std.specs.Prelude.{◌≡◌, ◌+◌, ◌<◌, ◌≤◌, ◌++◌, ◌∷◌, [], IfSome, IsTrue, length};
ghost use Rattle.spec_steps.specs.Parts.{IsPart};
ghost use Rattle.spec_steps.specs.Steps.{IsStepOf, step_term, terms_of};
ghost use Rattle.column_steps.specs.Listed.{CanEnter, Enters, Stands, listed_term, step_count};
ghost use Rattle.column_steps.specs.Squares.{HasZeroFactor, IsSquareAlone, IsZeroCosine};

use crate::axes_read::AxesRead;
use crate::sameness::is_same_step;
use spec_steps::step_laws::{one_step_more, steps_stand_for_terms};
use spec_steps::{Sight, Step};
use std::marker::Model;

/// How many steps of a list have values at most, which is how many slots for values are needed.
pub const MAX_STEPS: usize = 256;

/// The most steps of a list: twice `MAX_STEPS`, so that a formula can be entered before its step is known to have a
/// slot.
const ROOM: usize = 512;

/// A list of steps for given targets, observer and frame. The operands of a step are earlier steps, and each step
/// stands for a part of a formula or of a coordinate.
#[derive(Drop)]
pub struct StepList {
    pub(crate) sight: Sight,
    steps: [Step; ROOM],
    /// For each step the axes that it and the steps before it read.
    read: [AxesRead; ROOM],
    count: usize,
}

/// A list of steps, with the number of one of the steps: of that which stands for a formula, say.
#[derive(Clone, Copy)]
pub struct StepPlace<'s> {
    /// The list of steps.
    pub steps: &'s StepList,
    /// The number of the step in the list, counted from 0.
    pub place: usize,
}

impl Model for StepList {
    ghost use Rattle.std.specs.Prelude.{◌≡◌, ◌≤◌, length, take};
    ghost use Rattle.spec_steps.specs.Steps.{AreParts, AreSteps, terms_of};
    ghost use Rattle.column_steps.specs.Listed.{Listed};

    ghost Value = { Listed };

    ghost view = { λ s. record { sight = s.sight; steps = take s.count s.steps } };

    ghost invariant = { λ s. (s.count ≤ 512) × (length s.steps ≡ 512) × AreSteps (take s.count s.steps)
        × AreParts s.sight (terms_of (take s.count s.steps)) };
}

impl StepList {
    /// Returns a list without steps, for given targets, observer and frame.
    pub(crate) fn none(sight: Sight) -> StepList
        ensures { result ≡ record { sight = sight; steps = [] } }
    {
        StepList {
            sight,
            steps: [Step::Zero; ROOM],
            read: [AxesRead::none(); ROOM],
            count: 0,
        }
    }

    /// Returns how many steps the list has, at most 512.
    pub(crate) fn count(&self) -> usize
        ensures count { result ≡ step_count self.now }
        ensures few { result ≤ 512 }
    {
        self.count
    }

    /// Returns the step with a number, which counts from 0.
    pub(crate) fn step(&self, place: usize) -> Step
        requires { place < step_count self.now }
        ensures step { IsStepOf (terms_of self.now.steps) place result }
        ensures part { IsPart self.now.sight (step_term (terms_of self.now.steps) result) }
    {
        steps_stand_for_terms();
        let steps = &self.steps;
        steps[place]
    }

    // Returns the number of the first step of the list that is the same as a step given, or None if there is no such
    // step.
    fn place_of(&self, step: &Step) -> Option<usize>
        ensures { IfSome result (λ place. Stands self.now place
            (step_term (terms_of self.now.steps) step.now)) }
    {
        steps_stand_for_terms();
        for place in 0..self.count {
            if is_same_step(&self.steps[place], step) {
                return Some(place);
            }
        }
        None
    }

    // Adds a step at the end of the list, whether or not the list has the same step already.
    fn push(&mut self, step: Step)
        requires room { step_count self.old < 512 }
        requires step { CanEnter self.old step }
        ensures { self.new ≡ record { sight = self.old.sight; steps = self.old.steps ++ step ∷ [] } }
    {
        one_step_more();
        self.read[self.count] = self.last_axes().with(step);
        self.steps[self.count] = step;
        self.count += 1;
    }

    // Returns the axes that all steps read, which are those of the last one.
    fn last_axes(&self) -> AxesRead {
        if self.count == 0 {
            AxesRead::none()
        } else {
            self.axes_upto(self.count - 1)
        }
    }

    /// Returns the axes that the step with a number and those before it read.
    pub(crate) fn axes_upto(&self, place: usize) -> AxesRead
        requires { place < step_count self.now }
    {
        let _few = self.count();
        self.read[place]
    }

    /// Returns the number that a step has in the list. The step is added at the end if the list has no step that is the
    /// same.
    pub(crate) fn enter(&mut self, step: Step) -> usize
        requires room { step_count self.old + 1 ≤ 512 }
        requires step { CanEnter self.old step }
        ensures { Enters self.old self.new 1 result (step_term (terms_of self.old.steps) step) }
    {
        one_step_more();
        if let Some(place) = self.place_of(&step) {
            return place;
        }
        let place = self.count;
        self.push(step);
        place
    }

    /// Returns the number of the step whose signed square the step at `place` has for its value, and nothing else: of a
    /// signed square it takes a product with the signed square of the cosine 0, which is 0. None is returned if it is not
    /// made so.
    pub fn squared_step(&self, place: usize) -> Option<usize>
        requires { place < step_count self.now }
        ensures { IfSome result (IsSquareAlone self.now place) }
    {
        let Step::Difference(square, product) = self.step(place) else {
            return None;
        };
        let Step::SignedSquare(x) = self.step(square) else {
            return None;
        };
        if self.has_zero_factor(product) {
            Some(x)
        } else {
            None
        }
    }

    // Tells whether a step is a product with the signed square of the cosine 0.
    fn has_zero_factor(&self, place: usize) -> bool
        requires { place < step_count self.now }
        ensures { IsTrue result → HasZeroFactor (listed_term self.now place) }
    {
        let Step::Product(square, _) = self.step(place) else {
            return false;
        };
        let Step::SignedSquare(cosine) = self.step(square) else {
            return false;
        };
        self.is_zero_cosine(cosine)
    }

    // Tells whether a step is the cosine 0.
    fn is_zero_cosine(&self, place: usize) -> bool
        requires { place < step_count self.now }
        ensures { IsTrue result → IsZeroCosine (listed_term self.now place) }
    {
        match self.step(place) {
            Step::Cosine(number) => number.mant == 0,
            _ => false,
        }
    }
}
