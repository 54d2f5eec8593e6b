// The texts and files that rows name.
use crate::fields::RowError;
use eph_model::Ephemeris;
use gf_edges::MemoryShelf;
use gf_files::{FilesError, read_files};
use std::alloc::Global;
use std::{fs, slice};

// The most bytes of a text that are read at a time.
const PIECE: usize = 4096;

// The name under which a text stands on its shelf.
const NAME: &str = "text";

// Makes a shelf in memory with one file, which has this text and the name `text`.
fn shelf_of_text(alloc: Global, text: Vec<u8>) -> Result<MemoryShelf, RowError> {
    let mut files = Vec::new(alloc);
    files.push((String::from_str(alloc, NAME)?, text))?;
    Ok(MemoryShelf::new(files, PIECE, Vec::new(alloc)))
}

/// Reads a text as the one file of an ephemeris, and returns the ephemeris, or why the text is none. The outer error
/// is out of memory.
pub fn ephemeris_of_text(
    alloc: Global,
    text: Vec<u8>,
) -> Result<Result<Ephemeris, FilesError>, RowError> {
    let mut shelf = shelf_of_text(alloc, text)?;
    let name = String::from_str(alloc, NAME)?;
    match read_files(alloc, &mut shelf, slice::from_ref(&name)) {
        Ok(found) => Ok(Ok(found.ephemeris)),
        Err(FilesError::Memory) => Err(RowError::Memory),
        Err(error) => Ok(Err(error)),
    }
}

/// Returns the ephemeris of the file of this name. A file that cannot be read, or whose text is no ephemeris, is
/// malformed.
pub fn ephemeris_of_file(rt: &HostRuntime, name: &str) -> Result<Ephemeris, RowError> {
    let Ok(text) = fs::read(rt, name) else {
        return Err(RowError::Malformed);
    };
    match ephemeris_of_text(rt.alloc(), text)? {
        Ok(ephemeris) => Ok(ephemeris),
        Err(_) => Err(RowError::Malformed),
    }
}
