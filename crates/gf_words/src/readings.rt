// What `clap` reads in the words of a command line, and the file names in it.
ghost use Rattle.std.specs.Prelude.{◌≡◌, ◌⊎◌, IfErr, IfOk, map, string_bytes, true};
ghost use Rattle.clap.specs.Faults.{is_simple_and_free};
ghost use Rattle.clap.specs.Simple.{app_of};
ghost use Rattle.spec_requests.specs.Commands.{is_refused};
ghost use Rattle.gf_words.specs.Readings.{IsReading, file_names_of, word_fault};

use clap::error::ErrorKind;
use clap::{ArgMatches, Command};
use spec_requests::{FileNames, WordFault};
use std::alloc::{AllocError, Global};

/// Reads words, of which the first is the command's name, by the rules of that command. The error is out of memory, or
/// that the rules refuse the words.
pub(crate) fn read_words<'a>(
    command: Command<'a>,
    words: &'a [String],
) -> Result<ArgMatches<'a>, WordFault>
    requires { is_simple_and_free (app_of command) ≡ true }
    ensures read { IfOk result
        (IsReading (app_of command.entry) (map string_bytes words.entry.now)) }
    ensures refused { IfErr result (λ e. (e ≡ WordFault.Memory) ⊎ ((e ≡ WordFault.Words)
        × (is_refused (app_of command.entry) (map string_bytes words.entry.now) ≡ true))) }
{
    match command.try_get_matches_from(words) {
        Ok(matches) => Ok(matches),
        Err(error) => Err(fault_of_clap_error(error.kind())),
    }
}

// Returns the fault of words that `clap` could not read: out of memory, or that the rules of the command refuse them.
fn fault_of_clap_error(kind: ErrorKind) -> WordFault
    ensures { result ≡ word_fault kind }
{
    match kind {
        ErrorKind::OutOfMemory => WordFault::Memory,
        _ => WordFault::Words,
    }
}

/// Copies the names of the files that were given, in their order. There may be none. The only error is out of memory.
pub(crate) fn file_names(alloc: Global, matches: &ArgMatches<'_>) -> Result<FileNames, AllocError>
    ensures { IfOk result (λ names. names ≡ file_names_of matches.now) }
{
    match matches.get_strs("FILE") {
        Some(names) => copy_names(alloc, names),
        None => Ok(FileNames::new(Vec::new(alloc))),
    }
}

// Copies texts to a list of file names, in their order. The only error is out of memory.
fn copy_names(alloc: Global, texts: &[&str]) -> Result<FileNames, AllocError>
    ensures { IfOk result (λ names. names ≡ map (λ text. text.now) texts.now) }
{
    let mut names = Vec::new(alloc);
    for text in texts {
        names.push(String::from_str(alloc, text)?)?;
    }
    Ok(FileNames::new(names))
}
