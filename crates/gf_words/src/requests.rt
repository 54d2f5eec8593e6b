// Requests: a command line is read by its command, and the options become a request or the first fault.
ghost use Rattle.std.specs.Prelude.{◌≡◌, ◌⊎◌, IfErr, IfOk, Ok, Err, Some, map, string_bytes, true};
ghost use Rattle.spec_requests.specs.Commands.{command_rules, is_refused};
ghost use Rattle.spec_requests.specs.Requests.{request_by, request_for, request_of};
ghost use Rattle.spec_requests.specs.declared.tables.CommandName.TheVariants as command;
ghost use Rattle.spec_requests.specs.declared.request.Request.TheVariants.{Check};
ghost use Rattle.option_values.specs.Readings.{values_of};
ghost use Rattle.gf_words.specs.Answers.{Answers};
ghost use Rattle.gf_words.specs.Readings.{IsReading, file_names_of};

use crate::commands::command_with_rules;
use crate::readings::{file_names, read_words};
use crate::scalars::scalar_request;
use crate::searches::{copy_text, search_of_matches};
use crate::sets::set_request;
use crate::texts::generated_request;
use clap::ArgMatches;
use option_values::{certificate_option, command_named};
use spec_requests::{CommandName, Named, Request, WordFault};
use std::alloc::Global;

// Makes the request of the command `find` from its options and files. The error names the first bad option, or is out
// of memory.
fn find_request(alloc: Global, matches: &ArgMatches<'_>) -> Result<Request, WordFault>
    ensures { Answers (request_by command.Find (values_of matches.now) (file_names_of matches.now))
        result }
{
    search_of_matches(alloc, matches).map(Request::Find)
}

// Makes the request of the command `cert`, which has the options of `find`. The error names the first bad option, or is
// out of memory.
fn cert_request(alloc: Global, matches: &ArgMatches<'_>) -> Result<Request, WordFault>
    ensures { Answers (request_by command.Cert (values_of matches.now) (file_names_of matches.now))
        result }
{
    search_of_matches(alloc, matches).map(Request::Cert)
}

// Makes the request of the command `verify`: a search as `find` has it, and the name of the certificate's file. The
// option of that name is bad if it is left out or empty. The error names the first bad option, or is out of memory.
fn verify_request(alloc: Global, matches: &ArgMatches<'_>) -> Result<Request, WordFault>
    ensures { Answers (request_by command.Verify (values_of matches.now)
        (file_names_of matches.now)) result }
{
    let find = search_of_matches(alloc, matches)?;
    match certificate_option(matches) {
        Some(name) => match copy_text(alloc, name) {
            Ok(cert) => Ok(Request::Verify { find, cert }),
            Err(_) => Err(WordFault::Memory),
        },
        None => Err(WordFault::BadValue(Named::Cert)),
    }
}

// Makes the request of the command `check` from the names of its files. The only error is out of memory.
fn check_request(alloc: Global, matches: &ArgMatches<'_>) -> Result<Request, WordFault>
    ensures { Answers (Ok (Check (file_names_of matches.now))) result }
{
    match file_names(alloc, matches) {
        Ok(files) => Ok(Request::Check { files }),
        Err(_) => Err(WordFault::Memory),
    }
}

// Makes the request of a command from the options and words that `clap` read for it. The error names the first bad
// option, or is out of memory.
fn request_of_matches(
    alloc: Global,
    name: CommandName,
    matches: &ArgMatches<'_>,
) -> Result<Request, WordFault>
    ensures { Answers (request_by name (values_of matches.now) (file_names_of matches.now)) result }
{
    match name {
        CommandName::Find => find_request(alloc, matches),
        CommandName::Cert => cert_request(alloc, matches),
        CommandName::Verify => verify_request(alloc, matches),
        CommandName::Check => check_request(alloc, matches),
        CommandName::Gen => generated_request(matches),
        CommandName::Set => set_request(alloc, matches),
        CommandName::Scalar => scalar_request(alloc, matches),
    }
}

// Reads words by the rules of a command, of which the first word is the name. The error is out of memory, or that the
// rules refuse the words.
fn matches_of_words<'a>(
    alloc: Global,
    name: CommandName,
    words: &'a [String],
) -> Result<ArgMatches<'a>, WordFault>
    ensures read { IfOk result
        (IsReading (command_rules name) (map string_bytes words.entry.now)) }
    ensures refused { IfErr result (λ e. (e ≡ WordFault.Memory) ⊎ ((e ≡ WordFault.Words)
        × (is_refused (command_rules name) (map string_bytes words.entry.now) ≡ true))) }
{
    match command_with_rules(alloc, name) {
        Ok(command) => read_words(command, words),
        Err(_) => Err(WordFault::Memory),
    }
}

// Makes the request that words ask of a command, of which the first word is the name. The error is the first fault of
// the words, or out of memory.
fn request_of_command(
    alloc: Global,
    name: CommandName,
    words: &[String],
) -> Result<Request, WordFault>
    ensures { Answers (request_for (Some name) (map string_bytes words.now)) result }
{
    match matches_of_words(alloc, name, words) {
        Ok(matches) => request_of_matches(alloc, name, &matches),
        Err(fault) => Err(fault),
    }
}

/// Makes the request that the words of a command line ask for, without the program's own name. The fault is 60 for no
/// word, 61 for an unknown command, 62 for words that `clap` refuses, and 63 for the first bad option in the order of
/// the table. Out of memory is an error of its own.
pub fn request(alloc: Global, words: &[String]) -> Result<Request, WordFault>
    ensures asked { IfOk result (λ request.
        request_of (map string_bytes words.now) ≡ Ok request) }
    ensures refused { IfErr result (λ fault. (fault ≡ WordFault.Memory)
        ⊎ (request_of (map string_bytes words.now) ≡ Err fault)) }
{
    match words {
        [first, ..] => match command_named(first) {
            Some(command) => request_of_command(alloc, command, words),
            None => Err(WordFault::UnknownCommand),
        },
        [] => Err(WordFault::NoCommand),
    }
}
