// The bodies that a search can name.

/// A body of the solar system, or a point of it.
#[derive(Clone, Copy, PartialEq, Eq)]
pub enum Body {
    Mercury,
    Venus,
    /// The barycentre of the Earth and the Moon.
    Emb,
    Mars,
    Jupiter,
    Saturn,
    Uranus,
    Neptune,
    Pluto,
    Moon,
    Sun,
    Earth,
    /// The barycentre of the solar system.
    Ssb,
}
