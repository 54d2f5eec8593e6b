// Names in rows. A name is looked up in the table by which words and reports write it; one that is not there is malformed.
use crate::fields::Fields;
use spec_bodies::Frame;
use spec_ephemeris::Body;
use spec_events::Dir;
use spec_kinds::{KINDS, Kind};
use spec_requests::{BODIES, CUTS, DIRS, FRAMES};
use spec_trees::CutRule;

// The name of no second body.
const NO_BODY: &str = "-";

// Returns the value that stands beside a name in a table, or none if the name is not in the table.
fn value_beside_name<T: Copy>(table: &[(&'static str, T)], name: &str) -> Option<T> {
    for (other, value) in table {
        if *other == name {
            return Some(*value);
        }
    }
    None
}

// Reads a name, and returns the value that stands beside it in a table. A name that is not in the table is malformed, and
// `other` stands for its value.
fn next_value<T: Copy>(fields: &mut Fields<'_>, table: &[(&'static str, T)], other: T) -> T {
    match value_beside_name(table, fields.next_word()) {
        Some(value) => value,
        None => {
            fields.refuse();
            other
        }
    }
}

/// Reads the name of a body, as words of the command line write it, and returns the body.
pub(crate) fn next_body(fields: &mut Fields<'_>) -> Body {
    next_value(fields, &BODIES, Body::Ssb)
}

/// Reads the name of a second body, and returns the body, or none for `-`.
pub(crate) fn next_second_body(fields: &mut Fields<'_>) -> Option<Body> {
    let name = fields.next_word();
    let body = value_beside_name(&BODIES, name);
    if body.is_none() && name != NO_BODY {
        fields.refuse();
    }
    body
}

/// Reads the name of a frame, as words of the command line write it, and returns the frame.
pub(crate) fn next_frame(fields: &mut Fields<'_>) -> Frame {
    next_value(fields, &FRAMES, Frame::Eq)
}

/// Reads the name of a kind of event, as words of the command line write it, and returns the kind.
pub(crate) fn next_kind(fields: &mut Fields<'_>) -> Kind {
    match value_beside_name(&KINDS, fields.next_word()) {
        Some(row) => row.kind,
        None => {
            fields.refuse();
            Kind::Coord
        }
    }
}

/// Reads the name of a direction of events, as words of the command line write it, and returns the direction.
pub(crate) fn next_direction(fields: &mut Fields<'_>) -> Dir {
    next_value(fields, &DIRS, Dir::Any)
}

/// Reads the name of a rule by which nodes are cut, as words of the command line write it, and returns the rule.
pub(crate) fn next_cut_rule(fields: &mut Fields<'_>) -> CutRule {
    next_value(fields, &CUTS, CutRule::Half)
}
