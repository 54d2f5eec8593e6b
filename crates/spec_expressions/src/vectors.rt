// The vectors of the targets.

/// Three coordinates of a target, which is numbered 0 or 1, by the axes 0, 1 and 2.
#[derive(Clone, Copy)]
pub enum Vector {
    /// The target's position, in km.
    Position(u8),
    /// The target's velocity, in km a tick.
    Velocity(u8),
}
