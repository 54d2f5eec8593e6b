// Why an ask is refused.
ghost use Rattle.std.specs.Prelude.{◌≡◌};

use spec_faults::{BODY_ABSENT, REFERENCE_RANGE, SAME_BODY};

/// Why an ephemeris does not serve an ask, or a number of it is out of range: the first of these that applies.
#[derive(Clone, Copy, PartialEq, Eq)]
pub enum EventFault {
    /// Fault 50: a column is absent that the target, the second body or the observer needs.
    BodyAbsent,
    /// Fault 51: two of the target, the second body and the observer are one body.
    SameBody,
    /// Fault 52: a cosine is past 1 in magnitude, a coordinate's value is at least 2^36 km in magnitude, or a distance
    /// or a radius is negative or at least 2^36 km.
    ReferenceRange,
}

impl EventFault {
    ghost use Rattle.spec_kinds.specs.Faults.{number_of};

    /// Returns the number under which this fault is reported: 50 for an absent body, 51 for a body that is named twice,
    /// 52 for a number out of range.
    pub fn number(self) -> u8
        ensures { result ≡ number_of self }
    {
        match self {
            EventFault::BodyAbsent => BODY_ABSENT,
            EventFault::SameBody => SAME_BODY,
            EventFault::ReferenceRange => REFERENCE_RANGE,
        }
    }
}
