//! The program that shows that values are those of an exact reference: what texts are read as, enclosures, and what is
//! judged.
//!
//! In come tables of rows, by the names that the command line has: texts in which each line that is not empty and does not
//! begin with `#` is a row of fields, separated by one blank, the first of which says the kind of the row (`rows`). Out go the
//! rows that differ, and how many rows each table has. A row that cannot be read is an error, and is never skipped.
//!
//! The expected values were made by another program, which computes with exact fractions and shares no code, and no
//! definition, with this repository: the proofs say that the code does what the definitions say, and these rows show
//! that the definitions say what they should.
#![tactic(auto)]

mod asks;
mod bases;
mod building;
mod coordinates;
mod enclosures;
mod escapes;
mod events;
mod expressions;
mod fields;
mod formulas;
mod granules;
mod intervals;
mod lines;
mod names;
mod parts;
mod ranges;
mod rows;
mod scenes;
mod tables;
mod text_rows;
mod texts;
mod verdicts;
mod words;

use std::io;
use std::process::ExitCode;
use tables::compare_tables;

// Compares the tables of rows that the command line names, and exits with 0 if no row differs, 1 if one does, or 2 if
// a table cannot be read.
fn main(rt: HostRuntime) -> io::Result<ExitCode> {
    compare_tables(&rt)
}
