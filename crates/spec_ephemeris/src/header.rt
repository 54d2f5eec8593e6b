// What the header of a file says.
ghost use Rattle.std.specs.Prelude.{◌≡◌, ◌<◌};

use spec_text::Decimal;
use std::marker::Model;

/// Where a block holds the Chebyshev coefficients of one column, for each component and each granule. A column whose
/// `coefs` or `granules` is 0 is absent.
#[derive(Clone, Copy, PartialEq, Eq)]
pub struct Column {
    /// The place of the column's first number in a block, counted from 1.
    pub start: u32,
    /// The number of coefficients of one component over one granule.
    pub coefs: u32,
    /// The number of granules in a block, all of one length.
    pub granules: u32,
}

/// A list of columns.
#[derive(Drop)]
pub struct Columns {
    items: Vec<Column>,
}

impl Model for Columns {
    ghost use Rattle.std.specs.Prelude.{List};
    ghost use Rattle.spec_ephemeris.specs.declared.header.Column.{Column};

    ghost Value = { List Column };

    ghost view = { λ c. c.items.items };
}

impl Columns {
    /// Makes a list of the columns of a vector, in its order, without allocating. Contracts see the list of the
    /// columns.
    pub fn new(items: Vec<Column>) -> Self
        ensures { result ≡ items.items }
    {
        Columns { items }
    }

    /// Returns the columns of the list in their order: column 1 of a header stands at index 0.
    pub fn as_slice(&self) -> &[Column]
        ensures { result.now ≡ self.now }
    {
        &self.items
    }
}

/// The facts of a header that later work rests on.
#[derive(Drop)]
pub struct Header {
    /// The number of numbers in a block.
    pub ncoeff: u32,
    /// The length of a block: in seconds of TDB as it is read, in ticks if its ephemeris counts ticks.
    pub block_seconds: i64,
    /// The mass of the Earth over that of the Moon.
    pub emrat: Decimal,
    /// The columns in the order of the file: column 1 first.
    pub columns: Columns,
}
