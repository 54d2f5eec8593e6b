// Files in memory that are opened by their names.
ghost use Rattle.std.specs.Prelude.{◌≡◌};
ghost use Rattle.gf_edges.specs.Entries.{entries};

use crate::OpenNamed;
use crate::memory_shelf::{index_of_file, unread_bytes};
use std::io;
use std::marker::Model;

/// Files in memory, each a name with its bytes. Contracts know all of them, and that each of them opens.
#[derive(Drop)]
pub struct MemoryFiles<'a> {
    files: &'a [(String, Vec<u8>)],
}

impl<'a> Model for MemoryFiles<'a> {
    ghost use Rattle.gf_edges.specs.Edges.{Files};
    ghost use Rattle.gf_edges.specs.Entries.{entries};

    ghost Value = { Files };

    ghost view = { λ s. entries s.files.now };
}

impl<'a> MemoryFiles<'a> {
    /// Makes an opener of these files. Of two with one name the first counts.
    pub fn new(files: &'a [(String, Vec<u8>)]) -> Self
        ensures { result ≡ entries files.now }
    {
        MemoryFiles { files }
    }
}

impl<'a> OpenNamed for MemoryFiles<'a> {
    ghost use Rattle.std.specs.Prelude.{Some, true};

    type File = &'a [u8];

    ghost texts = { λ s. Some s };

    ghost opens_all = { λ _. true };

    fn open_named(&self, name: &str) -> io::Result<&'a [u8]> {
        match index_of_file(self.files, name) {
            Some(index) => Ok(unread_bytes(self.files, index, 0)),
            None => Err(io::Error::from(io::ErrorKind::NotFound)),
        }
    }
}
