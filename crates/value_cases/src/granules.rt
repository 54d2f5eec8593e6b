// Rows of the granules of an ephemeris, and of the borders between them.
ghost use Rattle.std.specs.Prelude.{◌<◌, IsTrue};
ghost use Rattle.spec_ephemeris.specs.Header.{has_column};

use crate::fields::{Fields, RowError};
use crate::parts::{next_decimal, next_pair};
use crate::texts::ephemeris_of_file;
use eph_model::Ephemeris;
use spec_text::Decimal;

// What is known of a granule: its first time and its length in seconds, the number of coefficients of each component,
// the number of components, and the first coefficient.
type Shape = ((i64, i64), usize, usize, Decimal);

// Reads what a row expects of a granule.
fn expected_shape(fields: &mut Fields<'_>) -> Shape {
    let start_and_seconds = next_pair(fields);
    let coefficients = fields.next_number::<usize>();
    let components = fields.next_number::<usize>();
    let first = next_decimal(fields);
    (start_and_seconds, coefficients, components, first)
}

// Returns what rows have of the granule of a column that holds a time. The ephemeris has this column and a block at
// least; a time outside of it is malformed.
fn shape_of_granule_at(ephemeris: &Ephemeris, column: usize, t: i64) -> Result<Shape, RowError>
    requires present { IsTrue (has_column ephemeris.now.header column) }
    requires block { 0 < ephemeris.now.blocks }
{
    if t < ephemeris.start() || ephemeris.end() < t {
        return Err(RowError::Malformed);
    }
    let granule = ephemeris.granule(column, t);
    match granule.coefs.first() {
        Some(first) => Ok((
            (granule.start, granule.seconds),
            granule.n,
            granule.comps,
            *first,
        )),
        None => Err(RowError::Malformed),
    }
}

// Returns the granule border of a column that is nearest to the middle of the times from `a` to `b`, or none if no
// border is among them. A span that is empty or leaves the ephemeris is malformed.
fn border_in_span(
    ephemeris: &Ephemeris,
    column: usize,
    a: i64,
    b: i64,
) -> Result<Option<i64>, RowError>
    requires { IsTrue (has_column ephemeris.now.header column) }
{
    if a < ephemeris.start() || b <= a || ephemeris.end() < b {
        return Err(RowError::Malformed);
    }
    Ok(ephemeris.border_near(&[column], a, b))
}

/// Compares a granule of a given ephemeris: the row has a column and a time, what is known of the granule there, a
/// span, and the border of the column that is nearest to the middle of the span, or `none`.
pub(crate) fn granule_of_column_agrees(
    ephemeris: &Ephemeris,
    fields: &mut Fields<'_>,
) -> Result<bool, RowError> {
    let column = fields.next_number::<usize>();
    if ephemeris.blocks() == 0 || !ephemeris.has(column) {
        return Err(RowError::Malformed);
    }
    let shape = shape_of_granule_at(ephemeris, column, fields.next_number::<i64>())?;
    let expected = expected_shape(fields);
    let (a, b) = next_pair(fields);
    let border = border_in_span(ephemeris, column, a, b)?;
    let is_border = fields.next_number_or_none::<i64>() == border;
    Ok(is_border && shape == expected)
}

/// Compares a granule: the row has the file of an ephemeris, a column and a time, what is known of the granule there,
/// a span, and the border of the column that is nearest to the middle of the span, or `none`.
pub(crate) fn granule_agrees(rt: &HostRuntime, fields: &mut Fields<'_>) -> Result<bool, RowError> {
    let ephemeris = ephemeris_of_file(rt, fields.next_word())?;
    granule_of_column_agrees(&ephemeris, fields)
}
