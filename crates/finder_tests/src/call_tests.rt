// Tests of the program's call: which files it opens, and that files and reports larger than in any case are answered.
use crate::calls::{Answer, call_program};
use crate::inputs::{BLOCK, HEADER, NotingShelf};
use gf_edges::{MemoryShelf, OpenGate};
use gf_find::{
    CERTIFICATE_REFUSED, EVENT_REFUSED, FILES_REFUSED, NOT_READ, REPORTED, SPAN_REFUSED,
    WORDS_REFUSED,
};
use std::alloc::{AllocError, Global};
use std::sync::Wait;
use std::test::Fail;
use std::thread::Threads;

// The rows of a block after its first two, which are zeros.
const ZERO_ROWS: usize = 7;

// Appends to a file the block of the 32 days from this Julian date on. Its coefficients of Mercury's x are those of
// `row`, and all other numbers are 0. The only error is out of memory.
fn add_block(alloc: Global, text: &mut Vec<u8>, day: i64, row: &str) -> Result<(), AllocError> {
    let next = day.saturating_add(32);
    let first_rows = format!(in alloc; "1 26\n{day}.5 {next}.5 0.0\n{row}\n")?;
    text.extend_from_slice(first_rows.as_bytes())?;
    for _ in 0..ZERO_ROWS {
        text.extend_from_slice(b"0.0 0.0 0.0\n")?;
    }
    Ok(())
}

// Returns the text of a file with a header and `count` blocks, in each of which the coefficients of Mercury's x are
// those of `row`. The only error is out of memory.
fn text_of_blocks(alloc: Global, count: i64, row: &str) -> Result<Vec<u8>, AllocError> {
    let mut text = HEADER.as_bytes().to_vec(alloc)?;
    for number in 0..count {
        let day = number.saturating_mul(32).saturating_add(2_451_544);
        add_block(alloc, &mut text, day, row)?;
    }
    Ok(text)
}

// Makes a shelf in memory with one file, named `a`, of these bytes. The only error is out of memory.
fn shelf_with_file(alloc: Global, file: Vec<u8>) -> Result<MemoryShelf, AllocError> {
    let mut files = Vec::with_capacity(alloc, 1)?;
    files.push((String::from_str(alloc, "a")?, file))?;
    Ok(MemoryShelf::new(files, 4096, Vec::new(alloc)))
}

// Calls the program with the words of a line, over the file `a` of `count` blocks. In each block the coefficients of
// Mercury's x are those of `row`. Returns the status and what was written. The only error is out of memory.
fn call_over_blocks<R: Threads + Wait + Sync>(
    rt: &R,
    alloc: Global,
    line: &str,
    count: i64,
    row: &str,
) -> Result<Answer, AllocError> {
    let mut shelf = shelf_with_file(alloc, text_of_blocks(alloc, count, row)?)?;
    call_program(rt, alloc, line, &mut shelf, 65_536, &OpenGate)
}

// Shows that a file of 16,385 blocks is refused, at the block past the limit of 16,384.
#[test]
fn too_many_blocks_are_refused(rt: HostRuntime) -> Result<(), Fail> {
    let answer = call_over_blocks(&rt, rt.alloc(), "check a", 16_385, "0.0 0.0 0.0")?;
    assert!(rt; answer.status == FILES_REFUSED);
    assert!(rt; answer.err.bytes() == "finder: file a line 163858: 38 TooManyBlocks\n".as_bytes());
    Ok(())
}

// Shows that a report of 1,199 windows is written whole. In a file of 600 blocks Mercury's x rises in the middle of
// each block, and falls at the time at which the next one starts.
#[test]
fn a_report_of_many_windows_is_whole(rt: HostRuntime) -> Result<(), Fail> {
    let line = "find --kind coord --target mercury --axis x --width 1000000 a";
    let row = "0.138240000000000000D+07 0.0 0.0";
    let answer = call_over_blocks(&rt, rt.alloc(), line, 600, row)?;
    assert!(rt; answer.status == REPORTED);
    assert!(rt;
        answer
            .out
            .bytes()
            .ends_with("END certain 1199 undecided 0\n".as_bytes())
    );
    Ok(())
}

// Words over three files, of which `a` is a header, `b` a block, and `c` is empty; the call of the shelf that fails;
// the status, and the names that are opened. These are those of the words, in their order, up to the first file that
// cannot be read or has a fault. A certificate is opened after them, if its search could be made.
const OPENED: [(&str, u64, u8, &str); 16] = [
    (
        "find --kind coord --target mercury --axis x a b c",
        0,
        REPORTED,
        "a b c ",
    ),
    ("check a b", 0, REPORTED, "a b "),
    ("check c b a", 0, FILES_REFUSED, "c b "),
    ("check a a b", 0, FILES_REFUSED, "a a "),
    ("check a d b", 0, NOT_READ, "a d "),
    ("check a b c", 4, NOT_READ, "a b "),
    (
        "find --kind coord --target venus --axis x a b",
        0,
        EVENT_REFUSED,
        "a b ",
    ),
    (
        "find --kind coord --target mercury --axis x --to 2721601 a b",
        0,
        SPAN_REFUSED,
        "a b ",
    ),
    (
        "find --kind coord --target mercury a b",
        0,
        WORDS_REFUSED,
        "",
    ),
    (
        "verify --kind coord --target venus --axis x --cert c a b",
        0,
        EVENT_REFUSED,
        "a b ",
    ),
    (
        "verify --kind coord --target mercury --axis x --to 2721601 --cert c a b",
        0,
        SPAN_REFUSED,
        "a b ",
    ),
    (
        "verify --kind coord --target mercury --axis x --cert c a b",
        0,
        CERTIFICATE_REFUSED,
        "a b c ",
    ),
    (
        "verify --kind coord --target mercury --axis x --cert d a b",
        0,
        NOT_READ,
        "a b d ",
    ),
    ("gen 405 1 7", 0, REPORTED, ""),
    (
        "set --kind coord --target mercury --axis x --relation less a b",
        0,
        REPORTED,
        "a b ",
    ),
    ("scalar --quad 1,0,-4 --from 0 --to 9", 0, REPORTED, ""),
];

// Tells whether the program ends with the status of a row for its words, and opens the files that the row names and no
// other. The only error is out of memory.
fn opens_named_files<R: Threads + Wait + Sync>(
    rt: &R,
    alloc: Global,
    row: &(&str, u64, u8, &str),
) -> Result<bool, AllocError> {
    let (line, failing, status, opened) = *row;
    let mut shelf = NotingShelf::new(alloc, [HEADER, BLOCK, ""], failing)?;
    let answer = call_program(rt, alloc, line, &mut shelf, 4096, &OpenGate)?;
    Ok(answer.status == status && shelf.opened_names() == opened.as_bytes())
}

// Shows that the program opens only the files that its words name, in their order, as the rows of `OPENED` say.
#[test]
fn the_named_files_alone_are_opened(rt: HostRuntime) -> Result<(), Fail> {
    for row in &OPENED {
        let line = row.0;
        assert!(rt; opens_named_files(&rt, rt.alloc(), row)?, "{line}");
    }
    Ok(())
}
