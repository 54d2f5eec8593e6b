// The kinds of occultations.

/// How the disc of the front body lies over that of the back body, as by SPICE's `gfoclt` for two spheres.
#[derive(Clone, Copy, PartialEq, Eq)]
pub enum Shadow {
    /// The discs overlap.
    Any,
    /// The back disc lies within the front disc.
    Full,
    /// The front disc lies within the back disc.
    Annular,
}
