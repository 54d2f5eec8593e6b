// The ephemeris in named files, and the refusals that name one of them.
ghost use Rattle.std.specs.Prelude.{◌≡◌, ◌⊎◌, ◌<◌, ◌≤◌, ℕ, List, Some, IfErr, IfOk, length, slice_get};
ghost use Rattle.gf_find.specs.Outcomes.{FilesStop, HaveEphemeris, texts_of};
ghost use Rattle.gf_find.specs.Reported.{AreNotOpened};

use eph_model::{BlockStore, Ephemeris};
use gf_edges::Shelf;
use gf_files::{FilesError, Rounding, read_store};
use spec_faults::WORDS;
use spec_outcomes::Refusal;
use spec_requests::Text;
use spec_text::Fault;
use std::alloc::{AllocError, Global};

// Copies the name of a file into a text of its own. The only error is out of memory.
fn copy_name(alloc: Global, name: &str) -> Result<Text, AllocError>
    ensures { IfOk result (λ text. text ≡ name.now) }
{
    Ok(Text::new(String::from_str(alloc, name)?))
}

/// Returns the refusal of a run for a fault in the file of this name. It is out of memory if the name cannot be copied.
pub(crate) fn refusal_by_name(alloc: Global, name: &str, fault: Fault) -> Refusal
    ensures { (result ≡ Refusal.Memory) ⊎ (result ≡ Refusal.File name.now fault) }
{
    match copy_name(alloc, name) {
        Ok(name) => Refusal::File { name, fault },
        Err(AllocError) => Refusal::Memory,
    }
}

/// Returns the refusal of a run for the file of this name, which could not be read. It is out of memory if the name
/// cannot be copied.
pub(crate) fn unread_refusal_by_name(alloc: Global, name: &str) -> Refusal
    ensures { (result ≡ Refusal.Memory) ⊎ (result ≡ Refusal.NotRead name.now) }
{
    match copy_name(alloc, name) {
        Ok(name) => Refusal::NotRead { name },
        Err(AllocError) => Refusal::Memory,
    }
}

// Returns the refusal of a run for a fault in a file. `file` is the place of its name among the names, counted from 0.
// It is out of memory if the name cannot be copied.
fn refusal_by_place(alloc: Global, names: &[String], file: usize, fault: Fault) -> Refusal
    requires { file < length names.now }
    ensures { (result ≡ Refusal.Memory) ⊎ ((name : List ℕ)
        × (slice_get (texts_of names.now) file ≡ Some name) × (result ≡ Refusal.File name fault)) }
{
    refusal_by_name(alloc, &names[file], fault)
}

// Returns the refusal of a run for a file that could not be read. `file` is the place of its name among the names,
// counted from 0. It is out of memory if the name cannot be copied.
fn unread_refusal_by_place(alloc: Global, names: &[String], file: usize) -> Refusal
    requires { file < length names.now }
    ensures { (result ≡ Refusal.Memory) ⊎ ((name : List ℕ)
        × (slice_get (texts_of names.now) file ≡ Some name) × (result ≡ Refusal.NotRead name)) }
{
    unread_refusal_by_name(alloc, &names[file])
}

/// Reads the files of these names, in their order, into a store. `rounding` is when numbers are rounded. The error names
/// the first file that has a fault or cannot be read, or is out of memory. Without a name, or with too many, no file is
/// opened.
pub(crate) fn store_of_files<S: Shelf>(
    alloc: Global,
    rounding: Rounding,
    shelf: &mut S,
    names: &[String],
) -> Result<BlockStore, Refusal>
    ensures accepted { IfOk result (λ store. HaveEphemeris
        (S.files shelf.old) (texts_of names.now) store.accepted) }
    ensures refused { IfErr result (λ refusal. (refusal ≡ Refusal.Memory)
        ⊎ FilesStop (S.files shelf.old) (texts_of names.now)
        (S.faults shelf.old) (S.faults shelf.new) refusal) }
    ensures unopened { AreNotOpened (texts_of names.now) → shelf.new ≡ shelf.old }
    ensures files { S.files shelf.new ≡ S.files shelf.old }
    ensures later { S.faults shelf.old ≤ S.faults shelf.new }
{
    if names.is_empty() {
        return Err(Refusal::Words {
            number: WORDS,
            option: None,
        });
    }
    match read_store(alloc, rounding, shelf, names) {
        Ok(found) => Ok(found.store),
        Err(FilesError::Fault { file, fault }) => Err(refusal_by_place(alloc, names, file, fault)),
        Err(FilesError::NotRead { file }) => Err(unread_refusal_by_place(alloc, names, file)),
        Err(FilesError::Memory) => Err(Refusal::Memory),
    }
}

/// Reads the ephemeris in the files of these names, in their order. The error names the first file that has a fault or
/// cannot be read, or is out of memory. Without a name, or with too many, no file is opened.
pub(crate) fn ephemeris_of_files<S: Shelf>(
    alloc: Global,
    shelf: &mut S,
    names: &[String],
) -> Result<Ephemeris, Refusal>
    ensures accepted { IfOk result (λ e. HaveEphemeris (S.files shelf.old) (texts_of names.now) e) }
    ensures refused { IfErr result (λ refusal. (refusal ≡ Refusal.Memory)
        ⊎ FilesStop (S.files shelf.old) (texts_of names.now)
        (S.faults shelf.old) (S.faults shelf.new) refusal) }
    ensures unopened { AreNotOpened (texts_of names.now) → shelf.new ≡ shelf.old }
    ensures files { S.files shelf.new ≡ S.files shelf.old }
    ensures later { S.faults shelf.old ≤ S.faults shelf.new }
{
    match store_of_files(alloc, Rounding::AtOnce, shelf, names) {
        Ok(store) => Ok(store.finish()),
        Err(refusal) => Err(refusal),
    }
}
