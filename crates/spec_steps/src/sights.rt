// What is seen.

use spec_bodies::{Frame, Source};

/// Two targets seen from an observer, along the axes of a frame.
#[derive(Clone, Copy)]
pub struct Sight {
    /// Target 0.
    pub first: Source,
    /// Target 1.
    pub second: Source,
    /// From where they are seen.
    pub observer: Source,
    /// The axes.
    pub frame: Frame,
}
