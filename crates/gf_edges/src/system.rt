// The files and the streams of the system. Contracts know of their content what the system reports, which is nothing of
// a file or of standard output. Each call of a stream that fails is counted.
ghost use Rattle.std.specs.Prelude.{◌≡◌};

use crate::interrupts::write_through_interrupts;
use crate::{Failed, OpenNamed, Sink};
use std::io::Write;
use std::marker::Model;
use std::rt::{Stderr, Stdout};
use std::{fs, io};

/// The files of the system, by their paths.
#[derive(Drop)]
pub struct SystemFiles<'a, R: std::rt::Files> {
    files: &'a R,
}

impl<'a, R: std::rt::Files> SystemFiles<'a, R> {
    /// Makes an opener of the files that this runtime reaches, by their paths.
    pub fn new(files: &'a R) -> Self {
        SystemFiles { files }
    }
}

// `open_named` is one call of the system. No contract says which file it opens, or that the bytes of that file are the
// ones that are read: this line is trusted.
impl<'a, R: std::rt::Files> OpenNamed for SystemFiles<'a, R> {
    ghost use Rattle.std.specs.Prelude.{None, false};

    type File = R::File;

    ghost texts = { λ _. None };

    ghost opens_all = { λ _. false };

    fn open_named(&self, name: &str) -> io::Result<R::File> {
        fs::open(self.files, name)
    }
}

/// An output stream of the system, with a count of its failures.
#[derive(Drop)]
pub struct StdSink<W: Write + Drop> {
    stream: W,
    faults: u64,
}

impl<W: Write + Drop> Model for StdSink<W> {
    ghost use Rattle.std.specs.Prelude.{◌<◌, ◌^◌};
    ghost use Rattle.gf_edges.specs.States.{StreamState};

    ghost Value = { StreamState };

    ghost view = { λ s. record {
      bytes = W.contents s.stream;
      faults = s.faults;
    } };

    ghost invariant = { λ s. s.faults < 2 ^ 64 };
}

impl StdSink<Stdout> {
    /// Makes a sink that writes to standard output, with no fault counted.
    pub fn out(rt: &HostRuntime) -> Self
        ensures at_start { result.faults ≡ 0 }
    {
        StdSink::new(rt.stdout())
    }
}

impl StdSink<Stderr> {
    /// Makes a sink that writes to standard error, with no fault counted.
    pub fn err(rt: &HostRuntime) -> Self
        ensures at_start { result.faults ≡ 0 }
    {
        StdSink::new(rt.stderr())
    }
}

impl<W: Write + Drop> StdSink<W> {
    /// Makes a sink that appends to a stream, with no fault counted. The bytes that the stream holds already stay.
    pub fn new(stream: W) -> Self
        ensures bytes { result.bytes ≡ W.contents stream }
        ensures at_start { result.faults ≡ 0 }
    {
        StdSink { stream, faults: 0 }
    }
}

impl<W: Write + Drop> Sink for StdSink<W> {
    ghost use Rattle.std.specs.Prelude.{◌≡◌, ◌<◌, ◌^◌, length, IfOk};
    ghost use Rattle.std.specs.Io.{WritesAtMost};
    ghost use Rattle.std.specs.Io.KnownBytes.{WriteAppends};
    ghost use Rattle.gf_edges.specs.Edges.{HasCause, Rose};
    ghost use Rattle.gf_edges.specs.States.{IsFruitless, RisesWhere};

    ghost bytes = { λ s. s.bytes };

    ghost faults = { λ s. s.faults };

    // Writes bytes from the front of the piece to the stream, and returns how many it took. A write that a signal
    // interrupts is made again. The count of faults rises exactly if this fails, or takes none of a piece that has some.
    fn write(&mut self, piece: &[u8]) -> Result<usize, Failed>
        ensures bound { WritesAtMost result piece.now }
        ensures bytes { WriteAppends self.old.bytes self.new.bytes result piece.now }
        ensures stuck { IfOk result (λ n. n ≡ 0 → 0 < length piece.now
            → Rose self.old.faults self.new.faults) }
        ensures cause { HasCause self.old.faults self.new.faults result }
        ensures count { self.new.faults < 2 ^ 64 }
        ensures faults { RisesWhere (IsFruitless result piece.now) self.old.faults self.new.faults }
    {
        match write_through_interrupts(&mut self.stream, piece) {
            Ok(0) if !piece.is_empty() => {
                self.faults = self.faults.saturating_add(1);
                Ok(0)
            }
            Ok(count) => Ok(count),
            Err(_) => {
                self.faults = self.faults.saturating_add(1);
                Err(Failed)
            }
        }
    }
}
