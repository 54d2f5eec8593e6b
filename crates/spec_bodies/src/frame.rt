// The frames in which coordinates are given.

/// The axes along which coordinates are measured.
#[derive(Clone, Copy, PartialEq, Eq)]
pub enum Frame {
    /// The frame of the files: the mean equator and equinox of J2000.
    Eq,
    /// The frame of the files, turned round its x axis by the obliquity of the ecliptic of J2000, as SPICE's
    /// ECLIPJ2000 is: 84381.448 arc seconds, of the IAU 1976 system of constants.
    Ecl,
}
