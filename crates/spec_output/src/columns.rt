// What the columns of a header are of.

use spec_ephemeris::Body;

/// The bodies of the first columns, in their order: the positions of the Moon are from the Earth, and all others from
/// the barycentre of the solar system. Two columns follow that hold angles, nutations and librations, and perhaps two
/// more that are not read.
pub const COLUMN_BODIES: [Body; 11] = [
    Body::Mercury,
    Body::Venus,
    Body::Emb,
    Body::Mars,
    Body::Jupiter,
    Body::Saturn,
    Body::Uranus,
    Body::Neptune,
    Body::Pluto,
    Body::Moon,
    Body::Sun,
];
