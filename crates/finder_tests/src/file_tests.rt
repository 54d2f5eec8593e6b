// Tests of the reading of files: which are opened, and how much is read of one.
use crate::inputs::{BLOCK, HEADER, NotingShelf, words_of_line};
use gf_edges::{Failed, Shelf};
use gf_files::{FilesError, read_files};
use spec_faults::FILE_TOO_LARGE;
use spec_text::Fault;
use std::alloc::{AllocError, Global};
use std::test::Fail;

// A shelf with one file that has no end. It counts the bytes that were read.
#[derive(Drop)]
struct EndlessShelf {
    given: usize,
}

impl Shelf for EndlessShelf {
    ghost use Rattle.std.specs.Prelude.{None};

    ghost files = { λ _. None };

    ghost left = { λ _. None };

    ghost ready = { λ _. Unit {0} };

    ghost faults = { λ _. 0 };

    // Opens the endless file, whatever its name.
    fn open(&mut self, _name: &str) -> Result<(), Failed> {
        Ok(())
    }

    // Fills the whole buffer, as a file without an end does, and counts its bytes.
    fn read(&mut self, buf: &mut [u8]) -> Result<usize, Failed> {
        self.given = self.given.saturating_add(buf.len());
        Ok(buf.len())
    }
}

// A row of the table: three files, the call of the shelf that fails, the names that are opened, and the error.
#[derive(Clone, Copy)]
struct Row {
    texts: [&'static str; 3],
    failing: u64,
    opened: &'static str,
    error: Option<FilesError>,
}

// The rows: the fault at which the reading stops, if there is one, and which files were opened until then.
const ROWS: [Row; 5] = [
    Row {
        texts: [HEADER, BLOCK, ""],
        failing: 0,
        opened: "a b c ",
        error: None,
    },
    Row {
        texts: [HEADER, "1\n", BLOCK],
        failing: 0,
        opened: "a b ",
        error: Some(FilesError::Fault {
            file: 1,
            fault: Fault {
                line: 1,
                number: 30,
                detail: 0,
            },
        }),
    },
    Row {
        texts: [HEADER, BLOCK, "1 26\n"],
        failing: 0,
        opened: "a b c ",
        error: Some(FilesError::Fault {
            file: 2,
            fault: Fault {
                line: 2,
                number: 36,
                detail: 0,
            },
        }),
    },
    Row {
        texts: [HEADER, BLOCK, ""],
        failing: 4,
        opened: "a b ",
        error: Some(FilesError::NotRead { file: 1 }),
    },
    Row {
        texts: [HEADER, BLOCK, ""],
        failing: 5,
        opened: "a b ",
        error: Some(FilesError::NotRead { file: 1 }),
    },
];

// Tells whether the files of these names are read as an ephemeris of one block, if `error` is none, or else are refused
// with this error.
fn has_outcome<S: Shelf>(
    alloc: Global,
    shelf: &mut S,
    names: &[String],
    error: Option<FilesError>,
) -> bool {
    if names.is_empty() {
        return false;
    }
    match read_files(alloc, shelf, names) {
        Ok(found) => error.is_none() && found.ephemeris.blocks() == 1 && found.end_line == 1,
        Err(found) => error == Some(found),
    }
}

// Tells whether the files of a row are read or refused as the row says, and only those that it names are opened. The
// only error is out of memory.
fn has_outcome_of_row(alloc: Global, row: &Row) -> Result<bool, AllocError> {
    let names = words_of_line(alloc, "a b c")?;
    let mut shelf = NotingShelf::new(alloc, row.texts, row.failing)?;
    let is_answered = has_outcome(alloc, &mut shelf, &names, row.error);
    Ok(is_answered && shelf.opened_names() == row.opened.as_bytes())
}

// Shows that no file is opened after the first one that cannot be read or has a fault, as the rows of `ROWS` say.
#[test]
fn no_file_is_opened_after_the_first_that_fails(rt: HostRuntime) -> Result<(), Fail> {
    for (number, row) in ROWS.iter().enumerate() {
        assert!(rt; has_outcome_of_row(rt.alloc(), row)?, "row {number}");
    }
    Ok(())
}

// Shows that the reading of a file without an end stops one byte past the limit of 268,435,456 bytes.
#[test]
fn one_byte_past_the_limit_is_read_of_a_file(rt: HostRuntime) -> Result<(), Fail> {
    let names = words_of_line(rt.alloc(), "a")?;
    let mut shelf = EndlessShelf { given: 0 };
    let fault = Fault {
        line: 0,
        number: FILE_TOO_LARGE,
        detail: 0,
    };
    let error = Some(FilesError::Fault { file: 0, fault });
    assert!(rt; has_outcome(rt.alloc(), &mut shelf, &names, error));
    assert_eq!(rt; shelf.given, 268_435_457);
    Ok(())
}
