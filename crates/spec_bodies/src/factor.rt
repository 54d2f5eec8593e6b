// The constant factors in the formulas of bodies.

/// A constant by which a coordinate is multiplied.
#[derive(Clone, Copy, PartialEq, Eq)]
pub enum Factor {
    /// The mass of the Moon over that of the Earth and the Moon, by the header's EMRAT: `1 / (1 + EMRAT)`.
    MoonShare,
    /// The cosine of the obliquity of the ecliptic of J2000.
    Cosine,
    /// The sine of the obliquity of the ecliptic of J2000.
    Sine,
}
