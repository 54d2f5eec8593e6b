// How the coordinates of the targets along the axes of a frame are entered as steps.
ghost use Rattle.std.specs.Prelude.{◌≡◌, ◌+◌, ◌<◌, ◌≤◌, ◌||◌, IsTrue};
ghost use Rattle.spec_bodies.specs.declared.frame.Frame.TheVariants.{Eq as OfFiles, Ecl as OfEcliptic};
ghost use Rattle.spec_bodies.specs.declared.quantity.Quantity.TheVariants.{Position as OfPosition, Velocity as OfVelocity};
ghost use Rattle.spec_steps.specs.ColumnTerms.{ColumnTerm};
ghost use Rattle.column_steps.specs.Listed.{AreListed, Enters, Grows, Stands, combination, step_count, turned};
ghost use Rattle.column_steps.specs.Places.{AreTargetPlaces, IsDisplaced};

use crate::places::{AxisPlaces, LeafPlaces};
use crate::step_list::StepList;
use event_expr::{Axes, Leaves};
use spec_bodies::{Factor, Frame, Quantity};
use spec_steps::Step;

impl StepList {
    /// Enters the steps of the wanted coordinates of both targets, along the axes of the frame, at most 120. Returns a
    /// table of the steps' numbers, in which the entry of a coordinate that is not wanted has no meaning.
    pub(crate) fn enter_leaves(&mut self, wanted: &Leaves) -> LeafPlaces
        requires room { step_count self.old + 120 ≤ 512 }
        ensures grown { Grows self.old self.new 120 }
        ensures first_position { AreTargetPlaces self.new OfPosition 0
            wanted.now.first_position result.first_position }
        ensures second_position { AreTargetPlaces self.new OfPosition 1
            wanted.now.second_position result.second_position }
        ensures first_velocity { AreTargetPlaces self.new OfVelocity 0
            wanted.now.first_velocity result.first_velocity }
        ensures second_velocity { AreTargetPlaces self.new OfVelocity 1
            wanted.now.second_velocity result.second_velocity }
    {
        let first_position = self.enter_target(Quantity::Position, 0, &wanted.first_position);
        let second_position = self.enter_target(Quantity::Position, 1, &wanted.second_position);
        let first_velocity = self.enter_target(Quantity::Velocity, 0, &wanted.first_velocity);
        let second_velocity = self.enter_target(Quantity::Velocity, 1, &wanted.second_velocity);
        LeafPlaces {
            first_position,
            second_position,
            first_velocity,
            second_velocity,
        }
    }

    // Enters the steps of a target's position or velocity along the wanted axes of the frame, at most 30. Returns the
    // steps' numbers; that of an axis that is not wanted has no meaning.
    fn enter_target(&mut self, quantity: Quantity, target: u8, wanted: &Axes) -> AxisPlaces
        requires target { target < 2 }
        requires room { step_count self.old + 30 ≤ 512 }
        ensures grown { Grows self.old self.new 30 }
        ensures made { AreTargetPlaces self.new quantity target wanted.now result }
    {
        match self.sight.frame {
            Frame::Eq => self.enter_along_files(quantity, target, wanted),
            Frame::Ecl => self.enter_along_ecliptic(quantity, target, wanted),
        }
    }

    // Enters the steps of a target's position or velocity along the wanted axes of the files. Returns the steps'
    // numbers; that of an axis that is not wanted is 0 and has no meaning.
    fn enter_along_files(&mut self, quantity: Quantity, target: u8, wanted: &Axes) -> AxisPlaces
        requires target { target < 2 }
        requires frame { self.old.sight.frame ≡ OfFiles }
        requires room { step_count self.old + 30 ≤ 512 }
        ensures grown { Grows self.old self.new 30 }
        ensures made { AreTargetPlaces self.new quantity target wanted.now result }
    {
        let x = self.enter_displacement_if(wanted.x, quantity, target, 0);
        let y = self.enter_displacement_if(wanted.y, quantity, target, 1);
        let z = self.enter_displacement_if(wanted.z, quantity, target, 2);
        AxisPlaces { x, y, z }
    }

    // Enters the steps of a target's position or velocity along the wanted axes of the ecliptic: x, y' = c y + s z and
    // z' = c z - s y, with the cosine and the sine of the obliquity. Returns the steps' numbers; that of an axis that
    // is not wanted is 0 and has no meaning.
    fn enter_along_ecliptic(&mut self, quantity: Quantity, target: u8, wanted: &Axes) -> AxisPlaces
        requires target { target < 2 }
        requires frame { self.old.sight.frame ≡ OfEcliptic }
        requires room { step_count self.old + 30 ≤ 512 }
        ensures grown { Grows self.old self.new 30 }
        ensures made { AreTargetPlaces self.new quantity target wanted.now result }
    {
        let turned = is_either_wanted(wanted.y, wanted.z);
        let x = self.enter_displacement_if(wanted.x, quantity, target, 0);
        let own_y = self.enter_displacement_if(turned, quantity, target, 1);
        let own_z = self.enter_displacement_if(turned, quantity, target, 2);
        let y = self.enter_turned_if(wanted.y, true, own_y, own_z);
        let z = self.enter_turned_if(wanted.z, false, own_z, own_y);
        AxisPlaces { x, y, z }
    }

    // Enters the steps of a coordinate relative to the observer along an axis of the files, if the coordinate is
    // wanted. Returns the number of the step that stands for the coordinate; if none is wanted, 0, which has no meaning
    // then.
    fn enter_displacement_if(
        &mut self,
        wanted: bool,
        quantity: Quantity,
        target: u8,
        axis: usize,
    ) -> usize
        requires target { target < 2 }
        requires axis { axis < 3 }
        requires room { step_count self.old + 8 ≤ 512 }
        ensures grown { Grows self.old self.new 8 }
        ensures made { IsTrue wanted → IsDisplaced self.new quantity target axis result }
    {
        if wanted {
            self.enter_displacement(quantity, target, axis)
        } else {
            0
        }
    }

    // Enters the steps of `c x + s y`, or of `c x - s y` if `sums` is false, with the obliquity's cosine c and sine s and
    // the numbers of the steps of x and y, and returns the number of the last step. If the result is not wanted, it
    // enters nothing and returns 0, which has no meaning then.
    fn enter_turned_if(&mut self, wanted: bool, sums: bool, x: usize, y: usize) -> usize
        requires room { step_count self.old + 3 ≤ 512 }
        requires operands { IsTrue wanted → AreListed self.old x y (turned sums) }
        ensures grown { Grows self.old self.new 3 }
        ensures made { IsTrue wanted → (p q : ColumnTerm) → Stands self.old x p → Stands self.old y q
            → Stands self.new result (turned sums p q) }
    {
        if wanted {
            self.enter_turned(sums, x, y)
        } else {
            0
        }
    }

    // Enters the steps of `c x + s y`, or of `c x - s y` if `sums` is false, by the numbers of the steps of x and y. c
    // is the cosine of the obliquity and s its sine. Returns the number of the last step.
    fn enter_turned(&mut self, sums: bool, x: usize, y: usize) -> usize
        requires room { step_count self.old + 3 ≤ 512 }
        requires operands { AreListed self.old x y (turned sums) }
        ensures { (p q : ColumnTerm) → Stands self.old x p → Stands self.old y q
            → Enters self.old self.new 3 result (turned sums p q) }
    {
        let first = self.enter(Step::Scaled(Factor::Cosine, x));
        let second = self.enter(Step::Scaled(Factor::Sine, y));
        self.enter(combining_step(sums, first, second))
    }
}

// Returns the step of the sum of two steps with the numbers given or, if `sums` is false, of the first less the second.
fn combining_step(sums: bool, first: usize, second: usize) -> Step
    ensures { result ≡ combination sums first second }
{
    if sums {
        Step::Sum(first, second)
    } else {
        Step::Difference(first, second)
    }
}

// Tells whether at least one of two axes is wanted. As a call of its own its result can be named in proofs.
fn is_either_wanted(a: bool, b: bool) -> bool
    ensures { result ≡ (a || b) }
{
    a || b
}
