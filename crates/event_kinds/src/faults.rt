// The faults of asks: why an ask has no event in an ephemeris.
ghost use Rattle.std.specs.Prelude.{◌≡◌, [], Some};
ghost use Rattle.std.specs.List.{list_all};
ghost use Rattle.spec_kinds.specs.Asks.{before, bodies_of};
ghost use Rattle.spec_kinds.specs.Faults.{has_body, has_twice, is_same, is_distance, is_cosine, is_radius, is_in_range, are_in_range, fault_of};
ghost use Rattle.event_kinds.specs.Faults.{event_fault_of};

use eph_model::{Body, Ephemeris};
use ival_core::{is_cosine as is_cosine_size, is_distance as is_distance_size};
use spec_bodies::Source;
use spec_kinds::{Ask, EventFault, Range};
use spec_text::Decimal;
use thiserror::Error;

/// Why an ask has no event: the first fault, in this order, that applies, or out of memory.
#[derive(Clone, Copy, Debug, PartialEq, Eq, Error)]
pub enum KindFault {
    /// Fault 50: a column is absent that the target, the second body or the observer needs.
    #[error("a column of a body is absent")]
    BodyAbsent,
    /// Fault 51: two of the target, the second body and the observer are one body.
    #[error("two of the bodies are one")]
    SameBody,
    /// Fault 52: a number is out of range.
    #[error("a number is out of range")]
    ReferenceRange,
    /// Memory ran out.
    #[error("out of memory")]
    Memory,
}

impl KindFault {
    /// Returns the fault of the ask that the error stands for, or none if the error is out of memory.
    pub fn event_fault(self) -> Option<EventFault>
        ensures { result ≡ event_fault_of self }
    {
        match self {
            KindFault::BodyAbsent => Some(EventFault::BodyAbsent),
            KindFault::SameBody => Some(EventFault::SameBody),
            KindFault::ReferenceRange => Some(EventFault::ReferenceRange),
            KindFault::Memory => None,
        }
    }

    /// Converts a fault of an ask to the error that stands for it.
    pub(crate) fn from_event_fault(fault: EventFault) -> KindFault
        ensures { event_fault_of result ≡ Some fault }
    {
        match fault {
            EventFault::BodyAbsent => KindFault::BodyAbsent,
            EventFault::SameBody => KindFault::SameBody,
            EventFault::ReferenceRange => KindFault::ReferenceRange,
        }
    }
}

/// Returns the first fault of an ask over an ephemeris, or none. First come absent bodies, then one body named twice,
/// then numbers out of range. It does not allocate.
pub fn first_fault(eph: &Ephemeris, ask: Ask) -> Option<EventFault>
    ensures { result ≡ fault_of eph.now ask }
{
    if !has_bodies(eph, ask) {
        return Some(EventFault::BodyAbsent);
    }
    if names_body_twice(ask) {
        return Some(EventFault::SameBody);
    }
    if !are_numbers_in_range(ask) {
        return Some(EventFault::ReferenceRange);
    }
    None
}

// Tells whether the ephemeris has all columns that the target, the second body and the observer of an ask need.
fn has_bodies(eph: &Ephemeris, ask: Ask) -> bool
    ensures { result ≡ list_all (has_body eph.now) (bodies_of ask) }
{
    has_body(eph, ask.target) && has_second_body(eph, ask.second) && has_body(eph, ask.observer)
}

// Tells whether the ephemeris has all columns that the second body of an ask needs. It needs none if there is no such
// body.
fn has_second_body(eph: &Ephemeris, second: Option<Body>) -> bool
    ensures { result ≡ list_all (has_body eph.now) (before second []) }
{
    match second {
        None => true,
        Some(body) => has_body(eph, body),
    }
}

// Tells whether the ephemeris has all columns of coefficients from which the position of a body is made.
fn has_body(eph: &Ephemeris, body: Body) -> bool
    ensures { result ≡ has_body eph.now body }
{
    let source = Source::of(body);
    source
        .needed_columns()
        .iter()
        .all(|number| eph.has(*number))
}

// Tells whether two of the target, the second body and the observer of an ask are one body.
fn names_body_twice(ask: Ask) -> bool
    ensures { result ≡ has_twice (bodies_of ask) }
{
    match ask.second {
        None => are_same_body(ask.target, ask.observer),
        Some(second) => {
            are_same_body(ask.target, second)
                || are_same_body(ask.target, ask.observer)
                || are_same_body(second, ask.observer)
        }
    }
}

// Tells whether two bodies are the same.
fn are_same_body(one: Body, other: Body) -> bool
    ensures { result ≡ is_same one other }
{
    one == other
}

// Tells whether the numbers of an ask are in the range of its kind. They are two radii in km for an occultation, else a
// reference value.
fn are_numbers_in_range(ask: Ask) -> bool
    ensures { result ≡ are_in_range ask.kind ask.value1 ask.value2 }
{
    if ask.kind.takes_radii() {
        is_radius(ask.value1) && is_radius(ask.value2)
    } else {
        is_value_in_range(ask.kind.range(), ask.value1)
    }
}

// Tells whether a reference value is in a range: a length in km below 2^36 in magnitude, such a distance that is at
// least 0, a cosine of at most 1 in magnitude, or any number.
fn is_value_in_range(range: Range, value: Decimal) -> bool
    ensures { result ≡ is_in_range range value }
{
    match range {
        Range::Length => is_bounded_length(value),
        Range::Distance => is_radius(value),
        Range::Cosine => is_cosine(value),
        Range::Free => true,
    }
}

// Tells whether a length in km is below 2^36 in magnitude.
fn is_bounded_length(km: Decimal) -> bool
    ensures { result ≡ is_distance km }
{
    is_distance_size(km.mant, km.exp)
}

// Tells whether a number is at most 1 in magnitude, as a cosine is.
fn is_cosine(number: Decimal) -> bool
    ensures { result ≡ is_cosine number }
{
    is_cosine_size(number.mant, number.exp)
}

// Tells whether a length in km is at least 0 and below 2^36, as a radius or a distance is.
fn is_radius(km: Decimal) -> bool
    ensures { result ≡ is_radius km }
{
    km.mant >= 0 && is_bounded_length(km)
}
