// The sizes of the coefficients of generated blocks.
ghost use Rattle.std.specs.Prelude.{◌≡◌, ◌+◌, ◌<◌, ◌^◌, ◌-ℤ◌, ◌*ℤ◌, length, pos};
ghost use Rattle.spec_ephemeris.specs.declared.limits.TheConstants.{MAX_COEFFICIENTS};
ghost use Rattle.spec_files.specs.BlockRules.{is_place};
ghost use Rattle.spec_generated.specs.Coefficients.{columns_of, millionths, term_among, term_at};

use eph_model::{is_present, place_after_column};
use spec_ephemeris::Column;
use spec_generated::{COLUMNS, CoefficientShape};

/// Returns the shape of the coefficient at a place of a block, counted from 1: the scale of its column, and the
/// degree of its polynomial. A place of no column has the scale 0 and the degree 0.
pub fn shape_at(place: u32) -> CoefficientShape
    ensures term { result ≡ term_at place }
    ensures low { result.degree < MAX_COEFFICIENTS }
{
    shape_among_columns(1, &COLUMNS, place)
}

// Returns the shape of the coefficient at a place of a block, counted from 1, by the first of these columns that has
// the place. The first column is number `number`. If no column has the place, scale and degree are 0.
fn shape_among_columns(
    number: usize,
    columns: &[(u32, u32, u32, u32)],
    place: u32,
) -> CoefficientShape
    requires { number + length columns.now < 2 ^ 32 }
    ensures { result ≡ term_among number (columns_of columns.now) place }
{
    match columns {
        [(start, coefs, granules, scale), rest @ ..] => {
            let column = Column {
                start: *start,
                coefs: *coefs,
                granules: *granules,
            };
            if is_place_of_column(number, column, place) {
                CoefficientShape {
                    scale: *scale,
                    degree: (place - column.start) % column.coefs,
                }
            } else {
                shape_among_columns(number + 1, rest, place)
            }
        }
        [] => CoefficientShape {
            scale: 0,
            degree: 0,
        },
    }
}

// Tells whether a place of a block, counted from 1, belongs to this column, which has this number.
fn is_place_of_column(number: usize, column: Column, place: u32) -> bool
    ensures { result ≡ is_place number column place }
{
    is_present(column)
        && column.start <= place
        && u128::from(place) < place_after_column(number, column)
}

// Returns a draw, moved to the range from -2^31 to 2^31 - 1, times a scale. Divided by a power of its degree it is a
// coefficient.
fn scaled_draw(draw: u32, scale: u32) -> i64
    ensures { result ≡ (pos draw -ℤ pos (2 ^ 31)) *ℤ pos scale }
{
    (i64::from(draw) - 0x8000_0000) * i64::from(scale)
}

/// Returns the coefficient of this shape that a draw makes, in millionths of a km, rounded towards zero. It is
/// divided by 4 for each degree, so that the terms of a series shrink.
pub fn coefficient_in_millionths(term: CoefficientShape, draw: u32) -> i64
    requires { term.degree < MAX_COEFFICIENTS }
    ensures { result ≡ millionths term draw }
{
    let divisor = 4_i64.pow(term.degree);
    scaled_draw(draw, term.scale) / divisor
}
