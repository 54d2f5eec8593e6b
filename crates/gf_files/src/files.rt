// The files of a run, opened, read whole and taken line by line, one after the other.
ghost use Rattle.std.specs.Prelude.{◌≡◌, ◌⊎◌, ◌<◌, ◌≤◌, ℕ, IfOk, IsErrOf, length, map, string_bytes};
ghost use Rattle.gf_edges.specs.Edges.{Lacks, Rose};
ghost use Rattle.spec_text.specs.declared.decimals.Fault.{Fault};
ghost use Rattle.spec_files.specs.Files.{FewAreTaken, FewAreTakenOfOne};
ghost use Rattle.spec_files.specs.Reading.{AreAccepted, AreRefused, HasFirstFault, IsNotRead};
ghost use Rattle.spec_files.specs.Texts.{fault_at};
ghost use Rattle.gf_files.specs.Read.{HaveRead, LacksFirst, StopsAtFile, TakesFile};
ghost use Rattle.gf_files.specs.Reader.{IsReady};

use crate::errors::{FilesError, error_in_file};
use crate::pieces::feed_rest;
use crate::reader::{Fed, Reader, end_reading, first_reader};
use de_blocks::{BlockStore, Rounding};
use eph_model::Ephemeris;
use gf_edges::{Failed, Shelf};
use spec_faults::TOO_MANY_FILES;
use spec_files::MAX_FILES;
use spec_text::Fault;
use std::alloc::Global;

/// The ephemeris of several files.
#[derive(Drop)]
pub struct Accepted {
    pub ephemeris: Ephemeris,
    /// The number of the last file's lines plus 1.
    pub end_line: u32,
}

/// The blocks of several files in a store, which `finish` makes an ephemeris.
#[derive(Drop)]
pub struct Stored {
    pub store: BlockStore,
    /// The number of the last file's lines plus 1.
    pub end_line: u32,
}

// Reads the file of this number and name, and gives its lines to the reader. Returns the reader after them, with the
// number of the file's lines plus 1. Errors: the first fault of its lines, `NotRead`, or out of memory. The window is
// room for a piece of the file.
fn feed_file<S: Shelf>(
    alloc: Global,
    rounding: Rounding,
    shelf: &mut S,
    reader: Reader,
    file: usize,
    name: &str,
    window: &mut Vec<u8>,
) -> Result<Fed, FilesError>
    requires { IsReady reader }
    ensures fed { IfOk result (TakesFile (S.files shelf.old) name.now reader) }
    ensures fault { (place : ℕ) (fault : Fault) → IsErrOf result (FilesError.Fault place fault)
        → (place ≡ file) × StopsAtFile (S.files shelf.old) name.now reader fault }
    ensures not_read { (place : ℕ) → IsErrOf result (FilesError.NotRead place) → (place ≡ file)
        × (Rose (S.faults shelf.old) (S.faults shelf.new) ⊎ Lacks (S.files shelf.old) name.now) }
    ensures lacking { Lacks (S.files shelf.old) name.now
        → IsErrOf result (FilesError.NotRead file) }
    ensures taken { S.ready shelf.new → FewAreTaken (S.files shelf.old) name.now (S.left shelf.new) }
    ensures files { S.files shelf.new ≡ S.files shelf.old }
    ensures later { S.faults shelf.old ≤ S.faults shelf.new }
{
    match shelf.open(name) {
        Ok(()) => feed_rest(alloc, rounding, shelf, reader, file, window),
        Err(Failed) => Err(FilesError::NotRead { file }),
    }
}

// Reads all files of these names in order, and gives their lines to one reader. Returns the reader after the last. No
// file is opened after one that has a fault or cannot be read, which is the error, with its number.
fn feed_files<S: Shelf>(
    alloc: Global,
    rounding: Rounding,
    shelf: &mut S,
    names: &[String],
) -> Result<Fed, FilesError>
    requires { length names.now ≤ MAX_FILES }
    ensures fed { IfOk result (λ fed.
        HaveRead (S.files shelf.old) (map string_bytes names.now) fed.reader fed.end_line) }
    ensures fault { (file : ℕ) (fault : Fault) → IsErrOf result (FilesError.Fault file fault)
        → HasFirstFault (S.files shelf.old) (map string_bytes names.now) file fault }
    ensures not_read { (file : ℕ) → IsErrOf result (FilesError.NotRead file)
        → IsNotRead (S.files shelf.old) (map string_bytes names.now)
        (S.faults shelf.old) (S.faults shelf.new) file }
    ensures lacking { LacksFirst (S.files shelf.old) (map string_bytes names.now)
        → IsErrOf result (FilesError.NotRead 0) }
    ensures taken { 0 < length names.now → S.ready shelf.new
        → FewAreTakenOfOne (S.files shelf.old) (map string_bytes names.now) (S.left shelf.new) }
    ensures files { S.files shelf.new ≡ S.files shelf.old }
    ensures later { S.faults shelf.old ≤ S.faults shelf.new }
{
    let mut window = Vec::new(alloc);
    let mut reader = first_reader();
    let mut end_line = 1;
    for file in 0..names.len() {
        let fed = feed_file(
            alloc,
            rounding,
            shelf,
            reader,
            file,
            &names[file],
            &mut window,
        )?;
        reader = fed.reader;
        end_line = fed.end_line;
    }
    Ok(Fed { reader, end_line })
}

/// Returns the store with the blocks of the files of these names, which the shelf opens one after the other. `rounding`
/// is when numbers are rounded. No file is opened after one that has a fault or cannot be read, and of none more than
/// 268,435,457 bytes are read.
///
/// `Fault` is the first fault; more than `MAX_FILES` names are the fault `TOO_MANY_FILES` at file `MAX_FILES`, before
/// any is opened. `NotRead` if a file is missing or the shelf fails; `Memory` if memory is out, and never for a first
/// file that is missing.
pub fn read_store<S: Shelf>(
    alloc: Global,
    rounding: Rounding,
    shelf: &mut S,
    names: &[String],
) -> Result<Stored, FilesError>
    requires { 0 < length names.now }
    ensures accepted { IfOk result (λ found. AreAccepted
        (S.files shelf.old) (map string_bytes names.now) found.store.accepted found.end_line) }
    ensures fault { (file : ℕ) (fault : Fault) → IsErrOf result (FilesError.Fault file fault)
        → AreRefused (S.files shelf.old) (map string_bytes names.now) file fault }
    ensures not_read { (file : ℕ) → IsErrOf result (FilesError.NotRead file)
        → IsNotRead (S.files shelf.old) (map string_bytes names.now)
        (S.faults shelf.old) (S.faults shelf.new) file }
    ensures lacking { length names.now ≤ MAX_FILES
        → LacksFirst (S.files shelf.old) (map string_bytes names.now)
        → IsErrOf result (FilesError.NotRead 0) }
    ensures taken { length names.now ≤ MAX_FILES → S.ready shelf.new
        → FewAreTakenOfOne (S.files shelf.old) (map string_bytes names.now) (S.left shelf.new) }
    ensures too_many { MAX_FILES < length names.now
        → IsErrOf result (FilesError.Fault MAX_FILES (fault_at 0 TOO_MANY_FILES)) }
    ensures names_are_counted_first { MAX_FILES < length names.now → shelf.new ≡ shelf.old }
    ensures files { S.files shelf.new ≡ S.files shelf.old }
    ensures later { S.faults shelf.old ≤ S.faults shelf.new }
{
    if names.len() > MAX_FILES {
        return Err(FilesError::Fault {
            file: MAX_FILES,
            fault: Fault {
                line: 0,
                number: TOO_MANY_FILES,
                detail: 0,
            },
        });
    }
    let fed = feed_files(alloc, rounding, shelf, names)?;
    let end_line = fed.end_line;
    match end_reading(alloc, fed.reader, end_line) {
        Ok(store) => Ok(Stored { store, end_line }),
        Err(error) => Err(error_in_file(names.len() - 1, error)),
    }
}

/// Returns the ephemeris of the files of these names, which the shelf opens one after the other. No file is opened
/// after one that has a fault or cannot be read, and of none more than 268,435,457 bytes are read.
///
/// `Fault` is the first fault; more than `MAX_FILES` names are the fault `TOO_MANY_FILES` at file `MAX_FILES`, before
/// any is opened. `NotRead` if a file is missing or the shelf fails; `Memory` if memory is out, and never for a first
/// file that is missing.
pub fn read_files<S: Shelf>(
    alloc: Global,
    shelf: &mut S,
    names: &[String],
) -> Result<Accepted, FilesError>
    requires { 0 < length names.now }
    ensures accepted { IfOk result (λ found. AreAccepted
        (S.files shelf.old) (map string_bytes names.now) found.ephemeris found.end_line) }
    ensures fault { (file : ℕ) (fault : Fault) → IsErrOf result (FilesError.Fault file fault)
        → AreRefused (S.files shelf.old) (map string_bytes names.now) file fault }
    ensures not_read { (file : ℕ) → IsErrOf result (FilesError.NotRead file)
        → IsNotRead (S.files shelf.old) (map string_bytes names.now)
        (S.faults shelf.old) (S.faults shelf.new) file }
    ensures lacking { length names.now ≤ MAX_FILES
        → LacksFirst (S.files shelf.old) (map string_bytes names.now)
        → IsErrOf result (FilesError.NotRead 0) }
    ensures taken { length names.now ≤ MAX_FILES → S.ready shelf.new
        → FewAreTakenOfOne (S.files shelf.old) (map string_bytes names.now) (S.left shelf.new) }
    ensures too_many { MAX_FILES < length names.now
        → IsErrOf result (FilesError.Fault MAX_FILES (fault_at 0 TOO_MANY_FILES)) }
    ensures names_are_counted_first { MAX_FILES < length names.now → shelf.new ≡ shelf.old }
    ensures files { S.files shelf.new ≡ S.files shelf.old }
    ensures later { S.faults shelf.old ≤ S.faults shelf.new }
{
    match read_store(alloc, Rounding::AtOnce, shelf, names) {
        Ok(found) => Ok(Accepted {
            ephemeris: found.store.finish(),
            end_line: found.end_line,
        }),
        Err(error) => Err(error),
    }
}
