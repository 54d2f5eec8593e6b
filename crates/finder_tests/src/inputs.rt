// The inputs of the tests: words, and three small files in memory that note which of them are opened.
use gf_edges::{Failed, MemoryShelf, Shelf};
use std::alloc::{AllocError, Global};

/// The header of an ephemeris, as a file of its own.
pub(crate) const HEADER: &str = "KSIZE= 52 NCOEFF= 26
GROUP 1010
E1 TEST EPHEMERIS
GROUP 1030
2451544.50 2451576.50 32.
GROUP 1040
1
EMRAT
GROUP 1041
1
0.810000000000000000D+02
GROUP 1050
3 9 9 15 15 15 15 15 15 15 21 27 27
2 0 2 0 0 0 0 0 0 2 2 0 0
1 0 1 0 0 0 0 0 0 1 1 0 0
GROUP 1070
";

/// The first block after `HEADER`, in which Mercury's x rises through 0 in the middle.
pub(crate) const BLOCK: &str = "1 26
0.245154450000000000D+07 0.245157650000000000D+07 0.0
0.138240000000000000D+07 0.0 0.0
0.0 0.0 0.0
0.0 0.0 0.0
0.0 0.0 0.0
0.0 0.0 0.0
0.0 0.0 0.0
0.0 0.0 0.0
0.0 0.0 0.0
";

/// Splits a line at its blanks into words. The only error is out of memory.
pub(crate) fn words_of_line(alloc: Global, line: &str) -> Result<Vec<String>, AllocError> {
    let mut words = Vec::new(alloc);
    for word in line.split_ascii_whitespace() {
        words.push(String::from_str(alloc, word)?)?;
    }
    Ok(words)
}

/// A shelf of files in memory that notes the names that were opened, each before a blank.
#[derive(Drop)]
pub(crate) struct NotingShelf {
    files: MemoryShelf,
    opened: Vec<u8>,
}

// Returns a file in memory, as its name and its bytes. The only error is out of memory.
fn memory_file(alloc: Global, name: &str, text: &str) -> Result<(String, Vec<u8>), AllocError> {
    let bytes = text.as_bytes().to_vec(alloc)?;
    Ok((String::from_str(alloc, name)?, bytes))
}

/// Returns files in memory: `a`, `b` and `c`, with these texts. The only error is out of memory.
pub(crate) fn three_files(
    alloc: Global,
    texts: [&str; 3],
) -> Result<Vec<(String, Vec<u8>)>, AllocError> {
    let mut files = Vec::new(alloc);
    for (name, text) in [("a", texts[0]), ("b", texts[1]), ("c", texts[2])] {
        files.push(memory_file(alloc, name, text)?)?;
    }
    Ok(files)
}

impl NotingShelf {
    /// Makes a shelf of the files `a`, `b` and `c` with these texts. Of the calls of the shelf, the one with the number
    /// `failing` fails, counted from 1; none does if it is 0. The only error is out of memory.
    pub(crate) fn new(alloc: Global, texts: [&str; 3], failing: u64) -> Result<Self, AllocError> {
        let failing = [failing].to_vec(alloc)?;
        let files = three_files(alloc, texts)?;
        Ok(NotingShelf {
            files: MemoryShelf::new(files, 4096, failing),
            opened: Vec::new(alloc),
        })
    }

    /// Returns the names that `open` was asked for, in the order of the calls, each with a blank after it.
    pub(crate) fn opened_names(&self) -> &[u8] {
        self.opened.as_slice()
    }
}

impl Shelf for NotingShelf {
    ghost use Rattle.std.specs.Prelude.{IsSome, Some};

    ghost files = { λ s. Some s.files.files };

    ghost left = { λ s. s.files.left };

    ghost ready = { λ s. IsSome s.files.left };

    ghost faults = { λ s. s.files.faults };

    // Notes the name, then opens the file, so that a call that fails is noted too. If memory runs out, the note is cut
    // short and the test fails.
    fn open(&mut self, name: &str) -> Result<(), Failed> {
        let _ = self.opened.extend_from_slice(name.as_bytes());
        let _ = self.opened.push(b' ');
        self.files.open(name)
    }

    // Reads the next bytes of the open file into the buffer, and returns how many.
    fn read(&mut self, buf: &mut [u8]) -> Result<usize, Failed> {
        self.files.read(buf)
    }
}
