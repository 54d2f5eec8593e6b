// What a search asks of files, of an output and of a scheduler.
ghost use Rattle.std.specs.Prelude.{◌≡◌, ◌⊎◌, ◌<◌, ◌≤◌, ◌^◌, List, ℕ, Option, length, IfOk, OnOk, OnErr};
ghost use Rattle.std.specs.Io.{ReadsAtMost, WritesAtMost};
ghost use Rattle.std.specs.Io.KnownBytes.{ReadConsumes, WriteAppends};
ghost use Rattle.gf_edges.specs.Edges.{Files, HasCause, Lacks, Opens, Rose};

use thiserror::Error;

/// A failure of the outside. The count of faults rose, or a named file is missing.
#[derive(Debug, Drop, Error)]
#[error("the outside failed")]
pub struct Failed;

/// The files of a run, by their names. One is open at a time.
pub trait Shelf {
    /// The files, by name, or `None` if contracts do not know them. They never change.
    ghost files: { Self → Option Files };

    /// The bytes of the open file that are not yet read, or `None` if contracts do not know them.
    ghost left: { Self → Option (List ℕ) };

    /// A file is open.
    ghost ready: { Self → Type 0 };

    /// The number of failures so far. It never falls, and stays at its last value, 2^64 - 1.
    ghost faults: { Self → ℕ };

    /// Opens the file of this name before its first byte. The file that was open before is closed, even if this fails.
    /// It fails only if the count of faults rises or the known files lack the name.
    fn open(&mut self, name: &str) -> Result<(), Failed>
        ensures ready { OnOk result (ready self.new) }
        ensures bytes { OnOk result (Opens (files self.old) name.now (left self.new)) }
        ensures failed { OnErr result (Rose (faults self.old) (faults self.new)
            ⊎ Lacks (files self.old) name.now) }
        ensures closed { OnErr result (ready self.new → ⊥) }
        ensures files { files self.new ≡ files self.old }
        ensures later { faults self.old ≤ faults self.new }
        ensures count { faults self.new < 2 ^ 64 };

    /// Reads the next bytes of the open file into the front of the buffer, and returns how many, at most the buffer's
    /// length. It returns 0 only at the file's end or for an empty buffer. The file stays open, even if this fails; a
    /// failure raises the count of faults.
    fn read(&mut self, buf: &mut [u8]) -> Result<usize, Failed>
        requires { ready self.old }
        ensures ready { ready self.new }
        ensures bound { ReadsAtMost result buf.new }
        ensures bytes { ReadConsumes (left self.old) (left self.new) result buf.new }
        ensures files { files self.new ≡ files self.old }
        ensures cause { HasCause (faults self.old) (faults self.new) result }
        ensures count { faults self.new < 2 ^ 64 };
}

/// An output of bytes.
pub trait Sink {
    /// All bytes that were taken, in order, or `None` if contracts do not know them.
    ghost bytes: { Self → Option (List ℕ) };

    /// The number of failures so far. It never falls, and stays at its last value, 2^64 - 1.
    ghost faults: { Self → ℕ };

    /// Takes bytes from the front of the piece, and returns how many. If it takes none of a piece that has some, the
    /// count of faults rises, so that a caller that tries again is known to end. A failure takes nothing and raises the
    /// count too.
    fn write(&mut self, piece: &[u8]) -> Result<usize, Failed>
        ensures bound { WritesAtMost result piece.now }
        ensures bytes { WriteAppends (bytes self.old) (bytes self.new) result piece.now }
        ensures stuck { IfOk result (λ n. n ≡ 0 → 0 < length piece.now
            → Rose (faults self.old) (faults self.new)) }
        ensures cause { HasCause (faults self.old) (faults self.new) result }
        ensures count { faults self.new < 2 ^ 64 };
}

/// A place that workers pass before each step of their work, so that a test can hold them. Contracts know nothing of
/// it.
pub trait Gate: Sync {
    // Lets the worker of this number pass the gate, before each step of its work. The call may block, so that a test
    // can hold the worker at a known place.
    fn pass(&self, worker: u32);
}

/// A gate that holds nobody.
pub struct OpenGate;

impl Gate for OpenGate {
    // Returns at once, whichever worker passes.
    fn pass(&self, _worker: u32) {}
}
