// A shelf of the files of a call. It fails only at a name that is not there.
ghost use Rattle.std.specs.Prelude.{◌≡◌, IfNone, IfSome, None, Some};
ghost use Rattle.gf_edges.specs.Edges.{file_of};
ghost use Rattle.finder_c.specs.Layout.{entries};

use crate::layout::NamedBytes;
use gf_edges::{Failed, Shelf};
use std::marker::Model;

/// A shelf of the files of a call, and what is left of the open one.
#[derive(Drop)]
pub(crate) struct CallShelf<'a> {
    files: Vec<NamedBytes<'a>>,
    left: Option<&'a [u8]>,
}

impl<'a> Model for CallShelf<'a> {
    ghost use Rattle.finder_c.specs.Shelves.{CallFiles, left_of};
    ghost use Rattle.finder_c.specs.Layout.{entries};

    ghost Value = { CallFiles };

    ghost view = { λ s. record { files = entries s.files.items; left = left_of s.left } };
}

impl<'a> CallShelf<'a> {
    /// Makes a shelf of these files, with no file open. Of two with one name the first counts.
    pub(crate) fn new(files: Vec<NamedBytes<'a>>) -> Self
        ensures files { result.files ≡ entries files.entry.items }
        ensures closed { result.left ≡ None }
    {
        CallShelf { files, left: None }
    }
}

// Returns the bytes of the first file with this name, or `None` if no file has it.
fn bytes_of_file<'a>(files: &[NamedBytes<'a>], name: &str) -> Option<&'a [u8]>
    ensures absent { IfNone result (file_of name.now (entries files.now) ≡ None) }
    ensures there { IfSome result (λ bytes. file_of name.now (entries files.now) ≡ Some bytes.now) }
{
    for file in files.iter() {
        if file.name == name {
            return Some(file.bytes);
        }
    }
    None
}

impl<'a> Shelf for CallShelf<'a> {
    ghost use Rattle.std.specs.Prelude.{Some, IsSome};

    ghost files = { λ s. Some s.files };

    ghost left = { λ s. s.left };

    ghost ready = { λ s. IsSome s.left };

    ghost faults = { λ s. 0 };

    // Opens the first file of this name.
    fn open(&mut self, name: &str) -> Result<(), Failed> {
        match bytes_of_file(&self.files, name) {
            Some(bytes) => {
                self.left = Some(bytes);
                Ok(())
            }
            None => {
                self.left = None;
                Err(Failed)
            }
        }
    }

    // Reads as many bytes as are left, or as the buffer holds.
    fn read(&mut self, buf: &mut [u8]) -> Result<usize, Failed> {
        let Some(left) = self.left else {
            return Ok(0);
        };
        let count = left.len().min(buf.len());
        buf[..count].copy_from_slice(&left[..count]);
        self.left = Some(&left[count..]);
        Ok(count)
    }
}
