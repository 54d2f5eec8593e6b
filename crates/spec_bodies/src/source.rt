// How a body is read from the columns of an ephemeris.
ghost use Rattle.std.specs.Prelude.{◌≡◌};
ghost use Rattle.spec_bodies.specs.Sources.{source_of, needed_columns};

use spec_ephemeris::Body;
use std::slice;

/// The number of the column of the barycentre of the Earth and the Moon.
pub const EMB_COLUMN: usize = 3;

/// The number of the column of the Moon seen from the Earth.
pub const MOON_COLUMN: usize = 10;

/// The number of the column of the Sun.
pub const SUN_COLUMN: usize = 11;

/// From which columns the coordinates of a body come.
#[derive(Clone, Copy, PartialEq, Eq)]
pub enum Source {
    /// Its own column, counted from 1, relative to the barycentre of the solar system.
    OwnColumn(usize),
    /// The Earth: the columns of the Earth-Moon barycentre and of the Moon.
    EarthOfPair,
    /// The Moon: the columns of the Earth-Moon barycentre and of the Moon too.
    MoonOfPair,
    /// The barycentre of the solar system, from which the others are measured.
    Origin,
}

impl Source {
    /// Returns from which columns the coordinates of a body are read. Planets, Pluto, the Earth-Moon barycentre and the
    /// Sun have columns of their own; Earth and Moon share two, and the barycentre of the solar system is the origin.
    pub fn of(body: Body) -> Source
        ensures { result ≡ source_of body }
    {
        match body {
            Body::Mercury => Source::OwnColumn(1),
            Body::Venus => Source::OwnColumn(2),
            Body::Emb => Source::OwnColumn(EMB_COLUMN),
            Body::Mars => Source::OwnColumn(4),
            Body::Jupiter => Source::OwnColumn(5),
            Body::Saturn => Source::OwnColumn(6),
            Body::Uranus => Source::OwnColumn(7),
            Body::Neptune => Source::OwnColumn(8),
            Body::Pluto => Source::OwnColumn(9),
            Body::Moon => Source::MoonOfPair,
            Body::Sun => Source::OwnColumn(SUN_COLUMN),
            Body::Earth => Source::EarthOfPair,
            Body::Ssb => Source::Origin,
        }
    }

    /// Returns the numbers of the columns that an ephemeris must have for a body with this source, counted from 1 and
    /// in order: its own, or 3 and 10 for Earth and Moon, or none for the origin.
    pub fn needed_columns(&self) -> &[usize]
        ensures { result.now ≡ needed_columns self.now }
    {
        match self {
            Source::OwnColumn(number) => slice::from_ref(number),
            Source::EarthOfPair | Source::MoonOfPair => &[EMB_COLUMN, MOON_COLUMN],
            Source::Origin => &[],
        }
    }
}
