// The kinds of rows, each compared with what the code gives.
use crate::bases::{argument_agrees, basis_agrees};
use crate::building::built_ephemeris_agrees;
use crate::coordinates::coordinate_agrees;
use crate::events::{event_agrees, refusal_agrees};
use crate::fields::{Fields, RowError};
use crate::formulas::{formula_agrees, limit_agrees};
use crate::granules::granule_agrees;
use crate::intervals::operation_agrees;
use crate::lines::lines_agree;
use crate::ranges::ranges_agree;
use crate::text_rows::{generated_text_agrees, text_agrees};
use crate::texts::ephemeris_of_file;
use crate::verdicts::verdict_agrees;
use crate::words::{date_agrees, decimal_agrees, time_agrees};
use eph_model::Ephemeris;
use std::alloc::Global;

// Tells whether the code agrees with the rest of a row of the given kind, over the ephemeris of the file that the row
// names. A word that is no kind of row is malformed.
fn fields_agree_over_ephemeris(
    alloc: Global,
    ephemeris: &Ephemeris,
    kind: &str,
    fields: &mut Fields<'_>,
) -> Result<bool, RowError> {
    match kind {
        "coordinate" => coordinate_agrees(ephemeris, fields),
        "event" => event_agrees(alloc, ephemeris, fields),
        "formula" => formula_agrees(alloc, ephemeris, fields),
        "refusal" => refusal_agrees(alloc, ephemeris, fields),
        "verdict" => verdict_agrees(alloc, ephemeris, fields),
        _ => Err(RowError::Malformed),
    }
}

// Reads the name of a file, and tells whether the code agrees with the rest of a row of the given kind over the
// ephemeris of that file.
fn fields_agree_in_file(
    rt: &HostRuntime,
    kind: &str,
    fields: &mut Fields<'_>,
) -> Result<bool, RowError> {
    let ephemeris = ephemeris_of_file(rt, fields.next_word())?;
    fields_agree_over_ephemeris(rt.alloc(), &ephemeris, kind, fields)
}

/// Takes the fields of a row, the first of which names the kind of the row, and tells whether the code gives the
/// values that the row expects. A row that cannot be read is malformed.
pub fn fields_agree(rt: &HostRuntime, fields: &mut Fields<'_>) -> Result<bool, RowError> {
    match fields.next_word() {
        "argument" => argument_agrees(fields),
        "basis" => basis_agrees(fields),
        "built" => built_ephemeris_agrees(rt, fields),
        "date" => date_agrees(rt.alloc(), fields),
        "decimal" => decimal_agrees(rt.alloc(), fields),
        "generated" => generated_text_agrees(rt.alloc(), fields),
        "granule" => granule_agrees(rt, fields),
        "interval" => operation_agrees(fields),
        "limit" => limit_agrees(rt.alloc(), fields),
        "lines" => lines_agree(rt.alloc(), fields),
        "ranges" => ranges_agree(rt.alloc(), fields),
        "text" => text_agrees(rt, fields),
        "time" => time_agrees(rt.alloc(), fields),
        kind => fields_agree_in_file(rt, kind, fields),
    }
}
