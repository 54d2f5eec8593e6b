// A shelf of files in memory, with a list of calls that fail.
ghost use Rattle.std.specs.Prelude.{◌≡◌, ◌+◌, ◌^◌, ◌<◌, ◌≤◌, IfNone, IfSome, None, Some, drop, length};
ghost use Rattle.gf_edges.specs.Edges.{file_of};
ghost use Rattle.gf_edges.specs.Entries.{bytes_at, entries};

use crate::calls::Calls;
use crate::{Failed, Shelf};
use std::marker::Model;

/// The place of a reader: which file is open, and how many of its bytes were read.
#[derive(Clone, Copy)]
pub(crate) struct Place {
    pub(crate) index: usize,
    pub(crate) at: usize,
}

/// A shelf that keeps its files in memory. The calls of `open` and `read` are numbered from 1 over both, and those
/// whose numbers are listed fail.
#[derive(Drop)]
pub struct MemoryShelf {
    files: Vec<(String, Vec<u8>)>,
    place: Option<Place>,
    piece: usize,
    calls: Calls,
}

impl Model for MemoryShelf {
    ghost use Rattle.std.specs.Prelude.{◌≤◌};
    ghost use Rattle.gf_edges.specs.States.{ShelfState};
    ghost use Rattle.gf_edges.specs.Entries.{entries, left_from};

    ghost Value = { ShelfState };

    ghost view = { λ s. record {
      files = entries s.files.items;
      left = left_from s.files.items s.place;
      piece = s.piece;
      failing = s.calls.failing.items;
      calls = s.calls.made;
      faults = s.calls.faults;
    } };

    ghost invariant = { λ s. 1 ≤ s.piece };
}

// Returns the index of the first file with this name, or `None` if no file has it. It is apart from `open` because its
// loop needs an invariant.
pub(crate) fn index_of_file(files: &[(String, Vec<u8>)], name: &str) -> Option<usize>
    ensures absent { IfNone result (file_of name.now (entries files.now) ≡ None) }
    ensures there { IfSome result (λ i.
        file_of name.now (entries files.now) ≡ Some (bytes_at files.now i)) }
{
    for (i, entry) in files.iter().enumerate() {
        if entry.0.as_str() == name {
            return Some(i);
        }
    }
    None
}

// Returns the bytes from byte `at` on of the file at an index, or none if there is no such file or byte. The clause
// `fits` lets the reader add what it read to `at` without overflow.
pub(crate) fn unread_bytes(files: &[(String, Vec<u8>)], index: usize, at: usize) -> &[u8]
    ensures bytes { result.now ≡ drop at (bytes_at files.now index) }
    ensures fits { 0 < length result.now → at + length result.now < 2 ^ 64 }
{
    match files.get(index) {
        Some(entry) => {
            let bytes = entry.1.as_slice();
            &bytes[at.min(bytes.len())..]
        }
        None => &[],
    }
}

impl MemoryShelf {
    /// Makes a shelf of these files, each a name with its bytes, with no file open. Of two files with one name the
    /// first counts. A read gives at most `piece` bytes. The calls whose numbers, from 1, are in `failing` fail.
    pub fn new(files: Vec<(String, Vec<u8>)>, piece: usize, failing: Vec<u64>) -> Self
        requires { 1 ≤ piece }
        ensures files { result.files ≡ entries files.items }
        ensures closed { result.left ≡ None }
        ensures piece { result.piece ≡ piece }
        ensures failing { result.failing ≡ failing.items }
        ensures at_start { (result.calls ≡ 0) × (result.faults ≡ 0) }
    {
        MemoryShelf {
            files,
            place: None,
            piece,
            calls: Calls::new(failing),
        }
    }

    /// Returns how many calls of this shelf have failed because their numbers were listed. It stays at 2^64 - 1.
    pub fn faults(&self) -> u64
        ensures { result ≡ self.now.faults }
    {
        self.calls.faults
    }
}

impl Shelf for MemoryShelf {
    ghost use Rattle.std.specs.Prelude.{◌≡◌, ◌⊎◌, ◌<◌, ◌≤◌, ◌^◌, ◌↔◌, IfOk, IfSome, IsErr, IsSome, OnErr, OnOk, None, Some};
    ghost use Rattle.std.specs.Io.{ReadsAtMost};
    ghost use Rattle.std.specs.Io.KnownBytes.{ReadConsumes};
    ghost use Rattle.gf_edges.specs.Edges.{HasCause, Lacks, Opens, Rose, file_of, raised};
    ghost use Rattle.gf_edges.specs.States.{IsToFail, RisesWhere, given};

    ghost files = { λ s. Some s.files };

    ghost left = { λ s. s.left };

    ghost ready = { λ s. IsSome s.left };

    ghost faults = { λ s. s.faults };

    /// Opens the first file of this name. It fails exactly if the call's number is listed or no file has this name, and
    /// then leaves no file open. The count of faults rises exactly at a listed call.
    fn open(&mut self, name: &str) -> Result<(), Failed>
        ensures ready { OnOk result (IsSome self.new.left) }
        ensures bytes { OnOk result (Opens (Some self.old.files) name.now self.new.left) }
        ensures failed { OnErr result (Rose self.old.faults self.new.faults
            ⊎ Lacks (Some self.old.files) name.now) }
        ensures closed { OnErr result (IsSome self.new.left → ⊥) }
        ensures files { Some self.new.files ≡ Some self.old.files }
        ensures later { self.old.faults ≤ self.new.faults }
        ensures count { self.new.faults < 2 ^ 64 }
        ensures fails { IsErr result ↔ (IsToFail self.old.failing self.old.calls
            ⊎ (file_of name.now self.old.files ≡ None)) }
        ensures faults { RisesWhere (IsToFail self.old.failing self.old.calls)
            self.old.faults self.new.faults }
        ensures calls { self.new.calls ≡ raised self.old.calls }
        ensures piece { self.new.piece ≡ self.old.piece }
        ensures failing { self.new.failing ≡ self.old.failing }
    {
        self.place = None;
        self.calls.count_call()?;
        match index_of_file(&self.files, name) {
            Some(index) => {
                self.place = Some(Place { index, at: 0 });
                Ok(())
            }
            None => Err(Failed),
        }
    }

    /// Reads as many bytes as are left, as the buffer holds and as one read may give, whichever is least, and returns
    /// how many. It fails exactly at a listed call, and exactly there the count of faults rises; no byte is read then.
    fn read(&mut self, buf: &mut [u8]) -> Result<usize, Failed>
        requires { IsSome self.old.left }
        ensures ready { IsSome self.new.left }
        ensures bound { ReadsAtMost result buf.new }
        ensures bytes { ReadConsumes self.old.left self.new.left result buf.new }
        ensures files { Some self.new.files ≡ Some self.old.files }
        ensures cause { HasCause self.old.faults self.new.faults result }
        ensures count { self.new.faults < 2 ^ 64 }
        ensures fails { IsErr result ↔ IsToFail self.old.failing self.old.calls }
        ensures gives { IfOk result (λ n.
            IfSome self.old.left (λ left. n ≡ given left buf.old self.old.piece)) }
        ensures faults { RisesWhere (IsToFail self.old.failing self.old.calls)
            self.old.faults self.new.faults }
        ensures calls { self.new.calls ≡ raised self.old.calls }
        ensures piece { self.new.piece ≡ self.old.piece }
        ensures failing { self.new.failing ≡ self.old.failing }
    {
        self.calls.count_call()?;
        let Some(place) = self.place else {
            return Ok(0);
        };
        let left = unread_bytes(&self.files, place.index, place.at);
        let count = left.len().min(buf.len()).min(self.piece);
        buf[..count].copy_from_slice(&left[..count]);
        self.place = Some(Place {
            index: place.index,
            at: place.at + count,
        });
        Ok(count)
    }
}
