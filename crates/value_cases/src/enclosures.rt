// Enclosures, as the nine numbers that rows have.
use crate::fields::Fields;
use crate::parts::{Parts, next_interval_parts};
use ival_core::Enclosure;

/// The numbers of mid, range and step, three of each.
pub(crate) type EnclosureParts = [Parts; 3];

/// Reads the nine numbers of an enclosure: the three of each of its intervals mid, range and step.
pub(crate) fn next_enclosure_parts(fields: &mut Fields<'_>) -> EnclosureParts {
    let mid = next_interval_parts(fields);
    let range = next_interval_parts(fields);
    let step = next_interval_parts(fields);
    [mid, range, step]
}

/// Returns the nine numbers of an enclosure that the code made, in the order in which rows have them: mid, range and
/// step.
pub(crate) fn parts_of_enclosure(enclosure: &Enclosure) -> EnclosureParts {
    [
        enclosure.mid.parts(),
        enclosure.range.parts(),
        enclosure.step.parts(),
    ]
}
