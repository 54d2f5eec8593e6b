// How the coordinates of a body are entered as steps over columns: relative to the barycentre of the solar system, and
// relative to an observer, along the axes of the files.
ghost use Rattle.std.specs.Prelude.{◌≡◌, ◌+◌, ◌<◌, ◌≤◌};
ghost use Rattle.spec_bodies.specs.declared.factor.Factor.TheVariants.{MoonShare as MoonShareOf};
ghost use Rattle.spec_bodies.specs.declared.source.Source.TheVariants.{EarthOfPair as FromEarth, MoonOfPair as FromMoon};
ghost use Rattle.spec_bodies.specs.Coordinates.{barycentric_coordinate, displacement, earth, less, moon, of_column, times};
ghost use Rattle.spec_steps.specs.ColumnTerms.{of_coordinate, target_of, zero_term};
ghost use Rattle.spec_steps.specs.Parts.{IsSeen};
ghost use Rattle.column_steps.specs.Listed.{Enters, step_count};
ghost use Rattle.column_steps.specs.Places.{displacement_of, steps_of};

use crate::step_list::StepList;
use spec_bodies::{EMB_COLUMN, Factor, MOON_COLUMN, Quantity, Source};
use spec_steps::{Sight, Step};

// Returns the columns that a target is made of: the first target for number 0, the second for 1.
fn source_of(sight: &Sight, target: u8) -> Source
    requires { target < 2 }
    ensures { result ≡ target_of sight.now target }
{
    match target {
        0 => sight.first,
        _ => sight.second,
    }
}

impl StepList {
    /// Enters the steps of a position or velocity of a target relative to the observer, along an axis of the files. At
    /// most 8 steps are added. Returns the number of the step that stands for the coordinate.
    pub(crate) fn enter_displacement(
        &mut self,
        quantity: Quantity,
        target: u8,
        axis: usize,
    ) -> usize
        requires target { target < 2 }
        requires axis { axis < 3 }
        requires room { step_count self.old + 8 ≤ 512 }
        ensures { Enters self.old self.new 8 result
            (of_coordinate quantity (displacement_of self.old.sight target axis)) }
    {
        let source = source_of(&self.sight, target);
        match self.sight.observer {
            Source::OwnColumn(number) => self.enter_difference(
                quantity,
                source,
                Source::OwnColumn(number),
                axis,
            ),
            Source::EarthOfPair => self.enter_displacement_from_earth(quantity, source, axis),
            Source::MoonOfPair => self.enter_displacement_from_moon(quantity, source, axis),
            Source::Origin => self.enter_barycentric(quantity, source, axis),
        }
    }

    // Enters the steps of a coordinate of a source relative to the Earth, and returns the number of the step that
    // stands for the coordinate. For the Moon one step is enough, since the column of the Moon is relative to the
    // Earth.
    fn enter_displacement_from_earth(
        &mut self,
        quantity: Quantity,
        source: Source,
        axis: usize,
    ) -> usize
        requires room { step_count self.old + 8 ≤ 512 }
        requires seen { IsSeen self.old.sight (displacement source FromEarth axis) }
        ensures { Enters self.old self.new 8 result
            (of_coordinate quantity (displacement source FromEarth axis)) }
    {
        let earth = Source::EarthOfPair;
        match source {
            Source::OwnColumn(number) => self.enter_difference(
                quantity,
                Source::OwnColumn(number),
                earth,
                axis,
            ),
            Source::EarthOfPair => self.enter_difference_from_itself(quantity, earth, axis),
            Source::MoonOfPair => self.enter_column(quantity, MOON_COLUMN, axis),
            Source::Origin => self.enter_difference(quantity, Source::Origin, earth, axis),
        }
    }

    // Enters the steps of a coordinate of a source relative to the Moon, and returns the number of the step that stands
    // for the coordinate. That of the Earth is 0 less the column of the Moon, which is relative to the Earth.
    fn enter_displacement_from_moon(
        &mut self,
        quantity: Quantity,
        source: Source,
        axis: usize,
    ) -> usize
        requires room { step_count self.old + 8 ≤ 512 }
        requires seen { IsSeen self.old.sight (displacement source FromMoon axis) }
        ensures { Enters self.old self.new 8 result
            (of_coordinate quantity (displacement source FromMoon axis)) }
    {
        let moon = Source::MoonOfPair;
        match source {
            Source::OwnColumn(number) => self.enter_difference(
                quantity,
                Source::OwnColumn(number),
                moon,
                axis,
            ),
            Source::EarthOfPair => {
                let column = Source::OwnColumn(MOON_COLUMN);
                self.enter_difference(quantity, Source::Origin, column, axis)
            }
            Source::MoonOfPair => self.enter_difference_from_itself(quantity, moon, axis),
            Source::Origin => self.enter_difference(quantity, Source::Origin, moon, axis),
        }
    }

    // Enters the steps of a coordinate of a source less that of an observer, both relative to the barycentre of the
    // solar system, and then the step of their difference. Returns the number of the last.
    fn enter_difference(
        &mut self,
        quantity: Quantity,
        source: Source,
        observer: Source,
        axis: usize,
    ) -> usize
        requires room { step_count self.old + 8 ≤ 512 }
        requires few { steps_of source + steps_of observer + 1 ≤ 8 }
        requires seen { IsSeen self.old.sight
            (less (barycentric_coordinate source axis) (barycentric_coordinate observer axis)) }
        ensures { Enters self.old self.new 8 result (of_coordinate quantity
            (less (barycentric_coordinate source axis) (barycentric_coordinate observer axis))) }
    {
        let own = self.enter_barycentric(quantity, source, axis);
        let other = self.enter_barycentric(quantity, observer, axis);
        self.enter(Step::Difference(own, other))
    }

    // Enters the steps of a coordinate of a source relative to itself, and returns the number of their difference,
    // which is 0 in value. The steps of the source are entered once, as two times those of the Moon may be too many.
    fn enter_difference_from_itself(
        &mut self,
        quantity: Quantity,
        source: Source,
        axis: usize,
    ) -> usize
        requires room { step_count self.old + 8 ≤ 512 }
        requires seen { IsSeen self.old.sight
            (less (barycentric_coordinate source axis) (barycentric_coordinate source axis)) }
        ensures { Enters self.old self.new 8 result (of_coordinate quantity
            (less (barycentric_coordinate source axis) (barycentric_coordinate source axis))) }
    {
        let own = self.enter_barycentric(quantity, source, axis);
        self.enter(Step::Difference(own, own))
    }

    // Enters the steps of a coordinate of a source relative to the barycentre of the solar system. Returns the number
    // of the step that stands for the coordinate. The barycentre itself takes the step of 0.
    fn enter_barycentric(&mut self, quantity: Quantity, source: Source, axis: usize) -> usize
        requires room { step_count self.old + steps_of source ≤ 512 }
        requires seen { IsSeen self.old.sight (barycentric_coordinate source axis) }
        ensures { Enters self.old self.new (steps_of source) result
            (of_coordinate quantity (barycentric_coordinate source axis)) }
    {
        match source {
            Source::OwnColumn(number) => self.enter_column(quantity, number, axis),
            Source::EarthOfPair => self.enter_earth(quantity, axis),
            Source::MoonOfPair => self.enter_moon(quantity, axis),
            Source::Origin => self.enter_zero(),
        }
    }

    // Enters the steps of a coordinate of the Moon relative to the barycentre of the solar system: the Earth's, plus
    // that of the Moon relative to the Earth. Returns the number of the sum.
    fn enter_moon(&mut self, quantity: Quantity, axis: usize) -> usize
        requires room { step_count self.old + 6 ≤ 512 }
        requires seen { IsSeen self.old.sight (moon axis) }
        ensures { Enters self.old self.new 6 result (of_coordinate quantity (moon axis)) }
    {
        let earth = self.enter_earth(quantity, axis);
        let moon = self.enter_column(quantity, MOON_COLUMN, axis);
        self.enter(Step::Sum(earth, moon))
    }

    // Enters the steps of a coordinate of the Earth relative to the barycentre of the solar system: that of the
    // barycentre of the Earth and the Moon, less the Moon's share of the way to the Moon. Returns the number of the
    // difference.
    fn enter_earth(&mut self, quantity: Quantity, axis: usize) -> usize
        requires room { step_count self.old + 4 ≤ 512 }
        requires seen { IsSeen self.old.sight (earth axis) }
        ensures { Enters self.old self.new 4 result (of_coordinate quantity (earth axis)) }
    {
        let pair = self.enter_column(quantity, EMB_COLUMN, axis);
        let share = self.enter_moons_share(quantity, axis);
        self.enter(Step::Difference(pair, share))
    }

    // Enters the steps of a coordinate of the Moon relative to the Earth, times the Moon's share of their mass: how far
    // their barycentre is from the Earth. Returns the number of the product.
    fn enter_moons_share(&mut self, quantity: Quantity, axis: usize) -> usize
        requires room { step_count self.old + 2 ≤ 512 }
        requires seen { IsSeen self.old.sight (times MoonShareOf (of_column MOON_COLUMN axis)) }
        ensures { Enters self.old self.new 2 result
            (of_coordinate quantity (times MoonShareOf (of_column MOON_COLUMN axis))) }
    {
        let moon = self.enter_column(quantity, MOON_COLUMN, axis);
        self.enter(Step::Scaled(Factor::MoonShare, moon))
    }

    // Enters the step of a position or velocity of a column along an axis of the files, and returns the step's number.
    // Columns are numbered from 1, axes from 0.
    fn enter_column(&mut self, quantity: Quantity, number: usize, axis: usize) -> usize
        requires room { step_count self.old + 1 ≤ 512 }
        requires seen { IsSeen self.old.sight (of_column number axis) }
        ensures { Enters self.old self.new 1 result (of_coordinate quantity (of_column number axis)) }
    {
        self.enter(Step::Column {
            quantity,
            number,
            axis,
        })
    }

    // Enters the step of the constant 0, which stands for each coordinate of the barycentre of the solar system.
    // Returns the step's number.
    fn enter_zero(&mut self) -> usize
        requires room { step_count self.old + 1 ≤ 512 }
        ensures { Enters self.old self.new 1 result zero_term }
    {
        self.enter(Step::Zero)
    }
}
