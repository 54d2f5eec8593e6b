// What is asked.

use crate::kind::Kind;
use spec_bodies::Frame;
use spec_ephemeris::Body;
use spec_events::Dir;
use spec_text::Decimal;

/// Which events are wanted.
#[derive(Clone, Copy, PartialEq, Eq)]
pub struct Ask {
    /// The kind.
    pub kind: Kind,
    /// The body whose events they are; in an occultation the one in front.
    pub target: Body,
    /// The other body, for the kinds that take one; in an occultation the one at the back.
    pub second: Option<Body>,
    /// The observer, from whom both bodies are seen.
    pub observer: Body,
    /// The axes along which coordinates are measured.
    pub frame: Frame,
    /// For `Coord`, the coordinate: 0, 1 or 2 for x, y or z.
    pub axis: u8,
    /// For `Coord` and `Radius` the value that is passed, in km; for `Sep` the cosine of the angle; for an occultation
    /// the radius of the target, in km.
    pub value1: Decimal,
    /// For an occultation the radius of the second body, in km.
    pub value2: Decimal,
    /// Which turns are wanted.
    pub dir: Dir,
}
