// Rows of texts, and of what they are read as.
use crate::fields::{Fields, RowError};
use crate::parts::{next_decimal, next_pair};
use crate::texts::ephemeris_of_text;
use eph_gen::generate;
use eph_model::Ephemeris;
use gf_files::FilesError;
use spec_generated::MAX_GENERATED;
use spec_text::{Decimal, Fault};
use std::alloc::Global;
use std::{fs, str};

// The summary of an ephemeris: the numbers in a block, the seconds of a block, the mass ratio, the number of blocks, and
// the first and the last time.
type Summary = (u32, i64, Decimal, u32, i64, i64);

// What a text is read as: the summary of its ephemeris, or the fault of its files.
type Outcome = Result<Summary, Fault>;

// Returns what rows of texts have of an ephemeris.
fn summary_of(ephemeris: &Ephemeris) -> Summary {
    let header = ephemeris.header();
    (
        header.ncoeff,
        header.block_seconds,
        header.emrat,
        ephemeris.blocks(),
        ephemeris.start(),
        ephemeris.end(),
    )
}

// Reads the fault that a row expects of a text: the number of its line, the number of the fault, and a detail.
fn expected_fault(fields: &mut Fields<'_>) -> Fault {
    Fault {
        line: fields.next_number::<u32>(),
        number: fields.next_number::<u8>(),
        detail: fields.next_number::<u16>(),
    }
}

// Reads the summary that a row expects of an ephemeris.
fn expected_summary(fields: &mut Fields<'_>) -> Summary {
    let ncoeff = fields.next_number::<u32>();
    let block_seconds = fields.next_number::<i64>();
    let emrat = next_decimal(fields);
    let blocks = fields.next_number::<u32>();
    let (start, end) = next_pair(fields);
    (ncoeff, block_seconds, emrat, blocks, start, end)
}

// Reads what a row expects of a text: the word `fault` and a fault, or the word `ephemeris` and a summary.
fn expected_outcome(fields: &mut Fields<'_>) -> Result<Outcome, RowError> {
    match fields.next_word() {
        "fault" => Ok(Err(expected_fault(fields))),
        "ephemeris" => Ok(Ok(expected_summary(fields))),
        _ => Err(RowError::Malformed),
    }
}

// Reads a text as the files of an ephemeris, and returns the summary of the ephemeris or the fault of the text. Any
// other refusal of the reader, except out of memory, is malformed.
fn outcome_of_text(alloc: Global, text: Vec<u8>) -> Result<Outcome, RowError> {
    match ephemeris_of_text(alloc, text)? {
        Ok(ephemeris) => Ok(Ok(summary_of(&ephemeris))),
        Err(FilesError::Fault { fault, .. }) => Ok(Err(fault)),
        Err(_) => Err(RowError::Malformed),
    }
}

// A line that replaces another one, which its number names.
#[derive(Drop)]
struct Change {
    number: usize,
    line: Vec<u8>,
}

// Reads the number of a line of the row's file, counted from 1, and the line that replaces it.
fn next_change(alloc: Global, fields: &mut Fields<'_>) -> Result<Change, RowError> {
    let number = fields.next_number::<usize>();
    let line = fields.next_bytes(alloc)?;
    Ok(Change { number, line })
}

// Reads a count, and as many lines that replace others, each after the number of the line that it replaces.
fn next_changes(alloc: Global, fields: &mut Fields<'_>) -> Result<Vec<Change>, RowError> {
    let mut changes = Vec::new(alloc);
    for _ in 0..fields.next_number::<usize>() {
        changes.push(next_change(alloc, fields)?)?;
    }
    Ok(changes)
}

// Returns the line that replaces `line`, which has this number, or `line` itself if no change names the number.
fn line_after_changes<'a>(changes: &'a [Change], number: usize, line: &'a [u8]) -> &'a [u8] {
    for change in changes {
        if change.number == number {
            return &change.line;
        }
    }
    line
}

// Returns a text in which some lines are replaced, each line with a line end after it. A text that is not UTF-8 is
// malformed.
fn changed_text(alloc: Global, text: &[u8], changes: &[Change]) -> Result<Vec<u8>, RowError> {
    let Ok(text) = str::from_utf8(text) else {
        return Err(RowError::Malformed);
    };
    let mut made = Vec::new(alloc);
    let mut number = 0usize;
    for line in text.lines() {
        number = number.saturating_add(1);
        made.extend_from_slice(line_after_changes(changes, number, line.as_bytes()))?;
        made.push(b'\n')?;
    }
    Ok(made)
}

// Returns the text of the file of this name with some of its lines replaced. A file that cannot be read is malformed.
fn changed_text_of_file(
    rt: &HostRuntime,
    name: &str,
    changes: &[Change],
) -> Result<Vec<u8>, RowError> {
    match fs::read(rt, name) {
        Ok(text) => changed_text(rt.alloc(), &text, changes),
        Err(_) => Err(RowError::Malformed),
    }
}

/// Compares what a text is read as: the row has a name, which only tells rows apart, a file, the lines of it that are
/// replaced, and the fault or the summary of the ephemeris.
pub(crate) fn text_agrees(rt: &HostRuntime, fields: &mut Fields<'_>) -> Result<bool, RowError> {
    let _name = fields.next_word();
    let file = fields.next_word();
    let changes = next_changes(rt.alloc(), fields)?;
    let expected = expected_outcome(fields)?;
    let text = changed_text_of_file(rt, file, &changes)?;
    Ok(outcome_of_text(rt.alloc(), text)? == expected)
}

// Returns the checksum that rows have of a generated text: from 0 on, for each byte in order, 31 times the sum so far
// plus the byte, modulo 2^32.
fn text_checksum(text: &[u8]) -> u32 {
    let mut sum: u32 = 0;
    for byte in text {
        sum = sum.wrapping_mul(31).wrapping_add(u32::from(*byte));
    }
    sum
}

/// Compares a generated text: the row has a number of blocks, a seed, and the length in bytes and the checksum of the
/// text. A number of blocks that cannot be generated is malformed.
pub(crate) fn generated_text_agrees(
    alloc: Global,
    fields: &mut Fields<'_>,
) -> Result<bool, RowError> {
    let blocks = fields.next_number::<u32>();
    let seed = fields.next_number::<u64>();
    let length = fields.next_number::<usize>();
    let sum = fields.next_number::<u32>();
    if blocks == 0 || blocks > MAX_GENERATED {
        return Err(RowError::Malformed);
    }
    match generate(alloc, blocks, seed) {
        Ok(text) => Ok(text.len() == length && text_checksum(&text) == sum),
        Err(_) => Err(RowError::Memory),
    }
}
