// The bytes of one file of a shelf.
ghost use Rattle.std.specs.Prelude.{◌≡◌, ◌⊎◌, ◌+◌, ◌<◌, ◌≤◌, List, ℕ, drop, length, take, IfOk, IfSome, IsErrOf, OnErr};
ghost use Rattle.std.specs.Io.KnownBytes.{Consumes, IsAtEnd, Keeps};
ghost use Rattle.gf_edges.specs.Edges.{HasCause, Lacks, Rose};
ghost use Rattle.spec_text.specs.declared.decimals.Fault.{Fault};
ghost use Rattle.spec_text.specs.declared.limits.TheConstants.{MAX_TEXT_BYTES};
ghost use Rattle.spec_files.specs.Files.{FewAreTaken, HasLeft, IsFile, IsLongFile};
ghost use Rattle.spec_files.specs.Texts.{fault_at};
ghost use Rattle.gf_files.specs.Read.{Grows, TakesFew};
ghost use Rattle.spec_faults.specs.declared.numbers.TheConstants.{FILE_TOO_LARGE};

use crate::errors::FilesError;
use gf_edges::{Failed, Shelf};
use spec_faults::FILE_TOO_LARGE;
use spec_text::{Fault, MAX_TEXT_BYTES};
use std::alloc::Global;

// The most bytes that one read asks for.
const PIECE: usize = 65_536;

pub(crate) const TOO_LARGE: Fault = Fault {
    line: 0,
    number: FILE_TOO_LARGE,
    detail: 0,
};

// Reads the next bytes of the open file into these bytes, from the place `at` on, and returns how many. It is 0 only
// if the file ends there.
fn read_at<S: Shelf>(shelf: &mut S, bytes: &mut [u8], at: usize) -> Result<usize, Failed>
    requires ready { S.ready shelf.old }
    requires room { at < length bytes.old }
    ensures ready { S.ready shelf.new }
    ensures before { take at bytes.new ≡ take at bytes.old }
    ensures fits { IfOk result (λ count. at + count ≤ length bytes.new) }
    ensures size { length bytes.new ≡ length bytes.old }
    ensures read { IfOk result (λ count. Consumes (S.left shelf.old) (S.left shelf.new)
        (take count (drop at bytes.new))) }
    ensures end { IfOk result (λ count. count ≡ 0 → IsAtEnd (S.left shelf.new)) }
    ensures unread { OnErr result (Keeps (S.left shelf.old) (S.left shelf.new)) }
    ensures cause { HasCause (S.faults shelf.old) (S.faults shelf.new) result }
    ensures files { S.files shelf.new ≡ S.files shelf.old }
{
    shelf.read(&mut bytes[at..])
}

// Reads the next bytes of the open file to the end of the text, and returns how many: at most 65,536, at most `most`,
// and 0 only if the file ends there. Errors: `NotRead` with the number of the file, counted from 0, if the shelf
// fails; or out of memory.
#[tactic(auto, using(crate::proofs::Left::kept))]
pub(crate) fn append_next_bytes<S: Shelf>(
    shelf: &mut S,
    file: usize,
    text: &mut Vec<u8>,
    most: usize,
) -> Result<usize, FilesError>
    requires ready { S.ready shelf.old }
    requires some { 0 < most }
    requires small { length text.old.items + most ≤ MAX_TEXT_BYTES + 1 }
    ensures ready { S.ready shelf.new }
    ensures read { IfOk result (λ count. Grows (S.left shelf.old) (S.left shelf.new)
        text.old.items text.new.items count) }
    ensures few { IfOk result (λ count. count ≤ most) }
    ensures small { IfOk result (λ count. length text.new.items ≤ MAX_TEXT_BYTES + 1) }
    ensures end { IfOk result (λ count. count ≡ 0 → IsAtEnd (S.left shelf.new)) }
    ensures unread { OnErr result (Keeps (S.left shelf.old) (S.left shelf.new)) }
    ensures no_fault { (place : ℕ) (fault : Fault)
        → IsErrOf result (FilesError.Fault place fault) → ⊥ }
    ensures failed { (place : ℕ) → IsErrOf result (FilesError.NotRead place)
        → (place ≡ file) × Rose (S.faults shelf.old) (S.faults shelf.new) }
    ensures files { S.files shelf.new ≡ S.files shelf.old }
    ensures later { S.faults shelf.old ≤ S.faults shelf.new }
{
    let start = text.len();
    let room = most.min(PIECE);
    text.resize(start + room, 0)?;
    match read_at(shelf, text.as_mut_slice(), start) {
        Ok(count) => {
            text.truncate(start + count);
            Ok(count)
        }
        Err(_) => Err(FilesError::NotRead { file }),
    }
}

// Returns the bytes that are left of the open file, whose number, counted from 0, is for the errors. Errors: the
// fault `FILE_TOO_LARGE` for more than 268,435,456 bytes, of which one byte more is read; `NotRead` if the shelf
// fails; or out of memory.
fn read_rest<S: Shelf>(alloc: Global, shelf: &mut S, file: usize) -> Result<Vec<u8>, FilesError>
    requires { S.ready shelf.old }
    ensures whole { IfOk result (λ text. IfSome (S.left shelf.old) (λ left. left ≡ text.items)) }
    ensures small { IfOk result (λ text. length text.items ≤ MAX_TEXT_BYTES) }
    ensures fault { (place : ℕ) (fault : Fault) → IsErrOf result (FilesError.Fault place fault)
        → (place ≡ file) × (fault ≡ fault_at 0 FILE_TOO_LARGE) }
    ensures large { (place : ℕ) (fault : Fault) → IsErrOf result (FilesError.Fault place fault)
        → (read : List ℕ) × Consumes (S.left shelf.old) (S.left shelf.new) read
        × (length read ≡ MAX_TEXT_BYTES + 1) }
    ensures failed { (place : ℕ) → IsErrOf result (FilesError.NotRead place)
        → (place ≡ file) × Rose (S.faults shelf.old) (S.faults shelf.new) }
    ensures taken { TakesFew (S.left shelf.old) (S.left shelf.new) }
    ensures files { S.files shelf.new ≡ S.files shelf.old }
    ensures later { S.faults shelf.old ≤ S.faults shelf.new }
{
    let mut text: Vec<u8> = Vec::new(alloc);
    while text.len() <= MAX_TEXT_BYTES {
        let most = MAX_TEXT_BYTES + 1 - text.len();
        let count = append_next_bytes(shelf, file, &mut text, most)?;
        if count == 0 {
            return Ok(text);
        }
    }
    Err(FilesError::Fault {
        file,
        fault: TOO_LARGE,
    })
}

/// Returns the bytes of the file of this name. Its number, counted from 0, is for the errors. A file that is too
/// large has the fault `FILE_TOO_LARGE`, which is found once one byte past the limit was read. `NotRead` if the file
/// is missing or the shelf fails; `Memory` if memory is out, and never for a missing file.
pub fn read_file<S: Shelf>(
    alloc: Global,
    shelf: &mut S,
    file: usize,
    name: &str,
) -> Result<Vec<u8>, FilesError>
    ensures whole { IfOk result (λ text. IsFile (S.files shelf.old) name.now text.items) }
    ensures small { IfOk result (λ text. length text.items ≤ MAX_TEXT_BYTES) }
    ensures fault { (place : ℕ) (fault : Fault) → IsErrOf result (FilesError.Fault place fault)
        → (place ≡ file) × (fault ≡ fault_at 0 FILE_TOO_LARGE) }
    ensures large { (place : ℕ) (fault : Fault) → IsErrOf result (FilesError.Fault place fault)
        → IsLongFile (S.files shelf.old) name.now }
    ensures one_past { (place : ℕ) (fault : Fault) → IsErrOf result (FilesError.Fault place fault)
        → HasLeft (S.files shelf.old) name.now (MAX_TEXT_BYTES + 1) (S.left shelf.new) }
    ensures failed { (place : ℕ) → IsErrOf result (FilesError.NotRead place) → (place ≡ file)
        × (Rose (S.faults shelf.old) (S.faults shelf.new) ⊎ Lacks (S.files shelf.old) name.now) }
    ensures lacking { Lacks (S.files shelf.old) name.now
        → IsErrOf result (FilesError.NotRead file) }
    ensures taken { S.ready shelf.new → FewAreTaken (S.files shelf.old) name.now (S.left shelf.new) }
    ensures files { S.files shelf.new ≡ S.files shelf.old }
    ensures later { S.faults shelf.old ≤ S.faults shelf.new }
{
    match shelf.open(name) {
        Ok(()) => read_rest(alloc, shelf, file),
        Err(Failed) => Err(FilesError::NotRead { file }),
    }
}
