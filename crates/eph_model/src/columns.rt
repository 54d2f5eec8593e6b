// The sizes of columns, and where their numbers stand in a block.
ghost use Rattle.std.specs.Prelude.{◌≡◌, ◌+◌, ◌≤◌};
ghost use Rattle.spec_ephemeris.specs.Header.{column_size, components, is_present};

use spec_ephemeris::{Column, NUTATIONS};

/// Tells whether a column has numbers: at least one coefficient and one granule. A header may list a column with
/// none.
pub fn is_present(column: Column) -> bool
    ensures { result ≡ is_present column }
{
    column.coefs > 0 && column.granules > 0
}

/// Returns how many components the column of this number has. Nutations, column 12, have two; every other column has
/// three: x, y and z, or three angles.
pub fn component_count(number: usize) -> usize
    ensures value { result ≡ components number }
    ensures few { result ≤ 3 }
{
    if number == NUTATIONS { 2 } else { 3 }
}

/// Returns the place in a block after the last number of a column, counted from 1: the column's start and its size,
/// which is the product of its components, the coefficients of each and the granules of a block.
pub fn place_after_column(number: usize, column: Column) -> u128
    ensures { result ≡ column.start + column_size number column }
{
    let granule = component_count(number) as u128 * u128::from(column.coefs);
    u128::from(column.start) + granule * u128::from(column.granules)
}
