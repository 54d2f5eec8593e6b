// Tables of rows, compared row by row.
use crate::fields::{Fields, RowError};
use crate::rows::fields_agree;
use std::process::ExitCode;
use std::{env, fs, io, str};

// The status where a row differs.
const DIFFERENT: u8 = 1;

// The status where a table cannot be read.
const NOT_READ: u8 = 2;

// A count of the rows of a table, and of those that differ.
#[derive(Clone, Copy)]
struct Tally {
    rows: u64,
    differing: u64,
}

// Tells whether the code gives the values that a row expects. A row with a field left over, or one that cannot be read,
// is malformed.
fn row_agrees(rt: &HostRuntime, row: &str) -> Result<bool, RowError> {
    let mut fields = Fields::new(row);
    let agrees = fields_agree(rt, &mut fields)?;
    if fields.are_taken() {
        Ok(agrees)
    } else {
        Err(RowError::Malformed)
    }
}

// Tells whether a line of a table is a row: it is not empty, and does not start with `#`.
fn is_row(line: &str) -> bool {
    !line.is_empty() && !line.starts_with('#')
}

// Compares a row with what the code gives, and returns the counts with this row added. A row that differs is printed.
// None if the row cannot be read, which is printed too.
fn compare_row(rt: &HostRuntime, row: &str, tally: Tally) -> io::Result<Option<Tally>> {
    let rows = tally.rows.saturating_add(1);
    match row_agrees(rt, row) {
        Ok(true) => Ok(Some(Tally { rows, ..tally })),
        Ok(false) => {
            println!(rt; "differs: {row}")?;
            Ok(Some(Tally {
                rows,
                differing: tally.differing.saturating_add(1),
            }))
        }
        Err(RowError::Malformed) => {
            println!(rt; "is no row: {row}")?;
            Ok(None)
        }
        Err(RowError::Memory) => Err(io::ErrorKind::OutOfMemory.into()),
    }
}

// Compares the rows of a table, and returns how many there are and how many differ. None if a row cannot be read.
fn tally_of_table(rt: &HostRuntime, text: &str) -> io::Result<Option<Tally>> {
    let mut tally = Tally {
        rows: 0,
        differing: 0,
    };
    for line in text.lines() {
        if is_row(line) {
            let Some(next) = compare_row(rt, line, tally)? else {
                return Ok(None);
            };
            tally = next;
        }
    }
    Ok(Some(tally))
}

// Compares the rows of the table in the file of this name, and returns how many there are and how many differ. None if
// the file is not UTF-8, or a row cannot be read.
fn tally_of_file(rt: &HostRuntime, name: &str) -> io::Result<Option<Tally>> {
    let bytes = fs::read(rt, name)?;
    match str::from_utf8(&bytes) {
        Ok(text) => tally_of_table(rt, text),
        Err(_) => Ok(None),
    }
}

// Compares the table of this name, prints how many rows it has and how many differ, and tells whether any differs.
// None if it cannot be read as a table.
fn table_differs(rt: &HostRuntime, name: &str) -> io::Result<Option<bool>> {
    let Some(tally) = tally_of_file(rt, name)? else {
        eprintln!(rt; "{name} can't be read as a table")?;
        return Ok(None);
    };
    let Tally { rows, differing } = tally;
    println!(rt; "{name}: {rows} rows, {differing} differ")?;
    Ok(Some(differing != 0))
}

/// Compares the tables that the words of the command line name, and prints the rows that differ and how many rows
/// there are. The status is 0 if no row differs, 1 if one does, and 2 if a table cannot be read, after which no
/// further table is compared.
pub fn compare_tables(rt: &HostRuntime) -> io::Result<ExitCode> {
    let mut status = 0u8;
    for name in env::args(rt)?.skip(1) {
        match table_differs(rt, &name)? {
            Some(true) => status = DIFFERENT,
            Some(false) => {}
            None => return Ok(ExitCode::from(NOT_READ)),
        }
    }
    Ok(ExitCode::from(status))
}
