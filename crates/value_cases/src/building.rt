// Rows of ephemerides that are built block by block.
ghost use Rattle.std.specs.Prelude.{◌≡◌, All, IfOk};
ghost use Rattle.spec_ephemeris.specs.Ephemeris.{IsBodyNumber};

use crate::fields::{Fields, RowError};
use crate::granules::granule_of_column_agrees;
use crate::parts::next_decimal;
use crate::texts::ephemeris_of_file;
use eph_model::{Columns, Ephemeris, Header, rounded};
use spec_ephemeris::MAX_BLOCKS;
use spec_text::Decimal;
use std::alloc::Global;

// The least exponent of ten of a number of a body.
const LEAST_EXPONENT: i16 = -140;

// Returns a copy of a header, for an ephemeris that is built beside the one that it belongs to.
fn copy_of_header(alloc: Global, header: &Header) -> Result<Header, RowError>
    ensures { IfOk result (λ copy. copy ≡ header.now) }
{
    let columns = header.columns.as_slice().to_vec(alloc)?;
    Ok(Header {
        ncoeff: header.ncoeff,
        block_seconds: header.block_seconds,
        emrat: header.emrat,
        columns: Columns::new(columns),
    })
}

// Makes an ephemeris without blocks that has the header and the first time of another.
fn ephemeris_without_blocks(alloc: Global, ephemeris: &Ephemeris) -> Result<Ephemeris, RowError> {
    let header = copy_of_header(alloc, ephemeris.header())?;
    Ok(Ephemeris::empty(alloc, header, ephemeris.start()))
}

// Reads a decimal that a block may have for a body, in km: its exponent of ten is at least -140, and it is below 2^36
// in magnitude. Any other is malformed.
fn next_body_number(fields: &mut Fields<'_>) -> Result<Decimal, RowError>
    ensures { IfOk result IsBodyNumber }
{
    let number = next_decimal(fields);
    if fields.is_malformed() || number.exp < LEAST_EXPONENT {
        return Err(RowError::Malformed);
    }
    match rounded(number) {
        Some(_) => Ok(number),
        None => Err(RowError::Malformed),
    }
}

// Reads `count` decimals, in km, each of which a block may have for a body.
fn next_body_numbers(
    alloc: Global,
    fields: &mut Fields<'_>,
    count: u32,
) -> Result<Vec<Decimal>, RowError>
    ensures { IfOk result (λ numbers. All IsBodyNumber numbers.items) }
{
    let mut numbers = Vec::new(alloc);
    for _ in 0..count {
        let number = next_body_number(fields)?;
        numbers.push(number)?;
    }
    Ok(numbers)
}

// Adds a block of these numbers to the ephemeris. It is malformed if there are not as many numbers as the header says,
// or if the ephemeris has the greatest number of blocks.
fn add_block(ephemeris: &mut Ephemeris, numbers: &[Decimal]) -> Result<(), RowError>
    requires { All IsBodyNumber numbers.now }
{
    let size = ephemeris.header().ncoeff as usize;
    if ephemeris.blocks() >= MAX_BLOCKS {
        return Err(RowError::Malformed);
    }
    if numbers.len() != size {
        return Err(RowError::Malformed);
    }
    ephemeris.push_block(numbers)?;
    Ok(())
}

// Reads the numbers of a block, as many as the header says, and adds the block to the ephemeris.
fn add_next_block(
    alloc: Global,
    ephemeris: &mut Ephemeris,
    fields: &mut Fields<'_>,
) -> Result<(), RowError> {
    let count = ephemeris.header().ncoeff;
    let numbers = next_body_numbers(alloc, fields, count)?;
    add_block(ephemeris, &numbers)
}

// Reads a number of blocks and the numbers of each, and builds the ephemeris of these blocks that has the header and
// the first time of `from`.
fn built_ephemeris(
    alloc: Global,
    from: &Ephemeris,
    fields: &mut Fields<'_>,
) -> Result<Ephemeris, RowError> {
    let mut ephemeris = ephemeris_without_blocks(alloc, from)?;
    for _ in 0..fields.next_number::<u32>() {
        add_next_block(alloc, &mut ephemeris, fields)?;
    }
    Ok(ephemeris)
}

/// Compares a granule of an ephemeris that is built block by block: the row has a file, of which the header and the
/// first time are taken, the number of blocks with all their numbers, and then what a row of a granule has after its
/// file.
pub(crate) fn built_ephemeris_agrees(
    rt: &HostRuntime,
    fields: &mut Fields<'_>,
) -> Result<bool, RowError> {
    let from = ephemeris_of_file(rt, fields.next_word())?;
    let ephemeris = built_ephemeris(rt.alloc(), &from, fields)?;
    granule_of_column_agrees(&ephemeris, fields)
}
