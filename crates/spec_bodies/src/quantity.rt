// What is known of a body along an axis.

/// A quantity of a body along an axis: its position or its velocity.
#[derive(Clone, Copy, PartialEq, Eq)]
pub enum Quantity {
    /// A position, in km.
    Position,
    /// A velocity, in km per second or per tick, as the ephemeris counts times.
    Velocity,
}
