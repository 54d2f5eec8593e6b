// Tables with an entry for each coordinate of the targets, and the steps that stand for coordinates.
ghost use Rattle.std.specs.Prelude.{◌≡◌, ◌<◌};
ghost use Rattle.spec_expressions.specs.Term.{position as position_of, velocity as velocity_of};
ghost use Rattle.column_steps.specs.Places.{entry_along, entry_of};

/// A table with one entry for each of the three axes of a frame.
#[derive(Clone, Copy)]
pub(crate) struct AxisTable<T> {
    pub x: T,
    pub y: T,
    pub z: T,
}

/// A table with one entry for each of twelve coordinates: position and velocity of both targets along three axes.
#[derive(Clone, Copy)]
pub(crate) struct CoordinateTable<T> {
    pub first_position: AxisTable<T>,
    pub second_position: AxisTable<T>,
    pub first_velocity: AxisTable<T>,
    pub second_velocity: AxisTable<T>,
}

/// The numbers of the steps for a target's coordinates along three axes. The entry of a coordinate that was not wanted
/// may be any number.
pub(crate) type AxisPlaces = AxisTable<usize>;

/// The numbers of the steps for the twelve coordinates, the leaves of a formula's tree.
pub(crate) type LeafPlaces = CoordinateTable<usize>;

impl<T: Copy> AxisTable<T> {
    // Returns the entry of an axis: x for 0, y for 1, z for 2.
    fn entry_along(&self, axis: u8) -> T
        requires { axis < 3 }
        ensures { result ≡ entry_along self.now axis }
    {
        match axis {
            0 => self.x,
            1 => self.y,
            _ => self.z,
        }
    }
}

impl<T: Copy> CoordinateTable<T> {
    /// Returns the entry of a target's position along an axis. Targets (0 and 1) and axes (0 to 2) count from 0.
    pub fn position(&self, target: u8, axis: u8) -> T
        requires target { target < 2 }
        requires axis { axis < 3 }
        ensures { result ≡ entry_of self.now (position_of target axis) }
    {
        match target {
            0 => self.first_position.entry_along(axis),
            _ => self.second_position.entry_along(axis),
        }
    }

    /// Returns the entry of a target's velocity along an axis. Targets (0 and 1) and axes (0 to 2) count from 0.
    pub fn velocity(&self, target: u8, axis: u8) -> T
        requires target { target < 2 }
        requires axis { axis < 3 }
        ensures { result ≡ entry_of self.now (velocity_of target axis) }
    {
        match target {
            0 => self.first_velocity.entry_along(axis),
            _ => self.second_velocity.entry_along(axis),
        }
    }
}
