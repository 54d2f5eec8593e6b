// A shelf of files that are opened by their names. Contracts know of the files what their opener reports. Each call that
// fails is counted.
ghost use Rattle.std.specs.Prelude.{◌≡◌, Bool, Option, IfOk, IsTrue, OnErr, false};
ghost use Rattle.gf_edges.specs.Edges.{Files, Lacks, Opens};

use crate::interrupts::read_through_interrupts;
use crate::{Failed, Shelf};
use std::io;
use std::io::Read;
use std::marker::Model;

/// Files that are opened by a name and read from their first byte on.
pub trait OpenNamed {
    /// A file that was opened.
    type File: Read + Drop;

    /// The files, by name, or `None` if contracts do not know them.
    ghost texts: { Self → Option Files };

    /// Whether each of the known files opens.
    ghost opens_all: { Self → Bool };

    /// Opens the file of this name before its first byte. If the files are known, it is one of them, and all of its
    /// bytes are left to read. If each of them opens, this fails only if they lack the name.
    fn open_named(&self, name: &str) -> io::Result<Self::File>
        ensures bytes { IfOk result (λ file.
            Opens (texts self.now) name.now (Self.File.remaining file)) }
        ensures fails { OnErr result (IsTrue (opens_all self.now) → Lacks (texts self.now) name.now) };
}

/// A shelf of the files that an opener gives by their names, with a count of its failures.
#[derive(Drop)]
pub struct FileShelf<N: OpenNamed + Drop> {
    opener: N,
    file: Option<N::File>,
    faults: u64,
}

impl<N: OpenNamed + Drop> Model for FileShelf<N> {
    ghost use Rattle.std.specs.Prelude.{◌<◌, ◌^◌, is_some};
    ghost use Rattle.gf_edges.specs.States.{FilesState, left_of};

    ghost Value = { FilesState };

    ghost view = { λ s. record {
      files = N.texts s.opener;
      opens_all = N.opens_all s.opener;
      is_open = is_some s.file;
      left = left_of N.File.remaining s.file;
      faults = s.faults;
    } };

    ghost invariant = { λ s. s.faults < 2 ^ 64 };
}

impl<N: OpenNamed + Drop> FileShelf<N> {
    /// Makes a shelf of the files that this opener gives, with no file open and no fault counted.
    pub fn new(opener: N) -> Self
        ensures files { result.files ≡ N.texts opener }
        ensures opens_all { result.opens_all ≡ N.opens_all opener }
        ensures closed { result.is_open ≡ false }
        ensures at_start { result.faults ≡ 0 }
    {
        FileShelf {
            opener,
            file: None,
            faults: 0,
        }
    }
}

impl<N: OpenNamed + Drop> Shelf for FileShelf<N> {
    ghost use Rattle.std.specs.Prelude.{◌⊎◌, ◌<◌, ◌≤◌, ◌^◌, IsErr, IsTrue, OnErr, OnOk};
    ghost use Rattle.std.specs.Io.{ReadsAtMost};
    ghost use Rattle.std.specs.Io.KnownBytes.{ReadConsumes};
    ghost use Rattle.gf_edges.specs.Edges.{HasCause, Lacks, Opens, Rose};
    ghost use Rattle.gf_edges.specs.States.{RisesWhere};

    ghost files = { λ s. s.files };

    ghost left = { λ s. s.left };

    ghost ready = { λ s. IsTrue s.is_open };

    ghost faults = { λ s. s.faults };

    /// Opens the file of this name before its first byte, and closes the one that was open. The count of faults rises
    /// exactly if this fails, and no file is open then.
    fn open(&mut self, name: &str) -> Result<(), Failed>
        ensures ready { OnOk result (IsTrue self.new.is_open) }
        ensures bytes { OnOk result (Opens self.old.files name.now self.new.left) }
        ensures failed { OnErr result (Rose self.old.faults self.new.faults
            ⊎ Lacks self.old.files name.now) }
        ensures closed { OnErr result (IsTrue self.new.is_open → ⊥) }
        ensures files { self.new.files ≡ self.old.files }
        ensures fails { OnErr result (IsTrue self.old.opens_all → Lacks self.old.files name.now) }
        ensures opens_all { self.new.opens_all ≡ self.old.opens_all }
        ensures later { self.old.faults ≤ self.new.faults }
        ensures count { self.new.faults < 2 ^ 64 }
        ensures faults { RisesWhere (IsErr result) self.old.faults self.new.faults }
    {
        match self.opener.open_named(name) {
            Ok(file) => {
                self.file = Some(file);
                Ok(())
            }
            Err(_) => {
                self.file = None;
                self.faults = self.faults.saturating_add(1);
                Err(Failed)
            }
        }
    }

    /// Reads the next bytes of the open file into the front of the buffer, and returns how many. A read that a signal
    /// interrupts is made again. The count of faults rises exactly if this fails; the file stays open then.
    fn read(&mut self, buf: &mut [u8]) -> Result<usize, Failed>
        requires { IsTrue self.old.is_open }
        ensures ready { IsTrue self.new.is_open }
        ensures bound { ReadsAtMost result buf.new }
        ensures bytes { ReadConsumes self.old.left self.new.left result buf.new }
        ensures files { self.new.files ≡ self.old.files }
        ensures opens_all { self.new.opens_all ≡ self.old.opens_all }
        ensures cause { HasCause self.old.faults self.new.faults result }
        ensures count { self.new.faults < 2 ^ 64 }
        ensures faults { RisesWhere (IsErr result) self.old.faults self.new.faults }
    {
        if let Some(file) = &mut self.file {
            if let Ok(count) = read_through_interrupts(file, buf) {
                return Ok(count);
            }
        }
        self.faults = self.faults.saturating_add(1);
        Err(Failed)
    }
}
