// Sets of axes.

ghost use Rattle.std.specs.Prelude.{◌≡◌, ◌<◌, ◌||◌};
ghost use Rattle.event_expr.specs.Leaves.{no_axes, one_axis, either_axes, has_axis};

/// A set of axes, which are numbered 0, 1 and 2.
#[derive(Clone, Copy)]
pub struct Axes {
    /// Whether the axis 0 is in the set.
    pub x: bool,
    /// Whether the axis 1 is in the set.
    pub y: bool,
    /// Whether the axis 2 is in the set.
    pub z: bool,
}

impl Axes {
    /// Returns the set of no axis.
    pub fn none() -> Axes
        ensures { result ≡ no_axes }
    {
        Axes {
            x: false,
            y: false,
            z: false,
        }
    }

    /// Returns the set of one axis alone: 0, 1 or 2. Any other number gives the empty set.
    pub fn one(axis: u8) -> Axes
        ensures { result ≡ one_axis axis }
    {
        Axes {
            x: axis == 0,
            y: axis == 1,
            z: axis == 2,
        }
    }

    /// Returns the axes that are in this set, in the other, or in both.
    pub fn union(self, other: Axes) -> Axes
        ensures { result ≡ either_axes self other }
    {
        Axes {
            x: disjunction(self.x, other.x),
            y: disjunction(self.y, other.y),
            z: disjunction(self.z, other.z),
        }
    }

    /// Tells whether an axis, 0, 1 or 2, is in the set.
    pub fn has(self, axis: usize) -> bool
        requires { axis < 3 }
        ensures { result ≡ has_axis self axis }
    {
        match axis {
            0 => self.x,
            1 => self.y,
            _ => self.z,
        }
    }
}

// Tells whether at least one of two conditions holds. The helper gives each axis of `union` a contract of its own.
fn disjunction(a: bool, b: bool) -> bool
    ensures { result ≡ (a || b) }
{
    a || b
}
