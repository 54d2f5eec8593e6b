// Sets: the options of `set` become a search in either direction with a relation, or name the first that is bad.
ghost use Rattle.std.specs.Prelude.{◌≡◌, IfOk, Ok, Some, option_and_then};
ghost use Rattle.spec_requests.specs.declared.request.Named.TheVariants as opt;
ghost use Rattle.spec_requests.specs.declared.tables.CommandName.TheVariants as command;
ghost use Rattle.spec_requests.specs.Names.{target_of};
ghost use Rattle.spec_requests.specs.Options.{set_kind_of};
ghost use Rattle.spec_requests.specs.Requests.{request_by, search_of, set_of};
ghost use Rattle.option_values.specs.Readings.{values_of};
ghost use Rattle.gf_words.specs.Answers.{Answers};
ghost use Rattle.gf_words.specs.Parts.{references_after, references_by, references_read, search_by_options};
ghost use Rattle.gf_words.specs.Readings.{file_names_of};

use crate::searches::{
    SearchOptions, read_search, search_with_texts, values_text, with_second_word,
};
use clap::ArgMatches;
use option_values::{
    decimal_option, given_word, join_parts, relation_option, set_kind_option, target_option,
    use_of_ref2,
};
use spec_ephemeris::Body;
use spec_events::Dir;
use spec_kinds::Kind;
use spec_requests::{Named, Relation, Request, WordFault};
use spec_text::Decimal;
use std::alloc::{AllocError, Global};

// A relation, and the second reference of a relation to two of them.
#[derive(Clone, Copy)]
pub(crate) struct References {
    pub(crate) relation: Relation,
    pub(crate) ref2: Option<Decimal>,
}

// Reads the relation of a set and its second reference value. The error names the first bad option.
fn read_references(matches: &ArgMatches<'_>, kind: Kind) -> Result<References, Named>
    ensures { result ≡ references_read (values_of matches.now) kind }
{
    match relation_option(matches, kind) {
        Ok(relation) => read_second_reference(matches, relation),
        Err(option) => Err(option),
    }
}

// Reads the second reference value of a relation, and joins both. The option is bad if it is left out for a relation
// that compares with two values, or given for another.
fn read_second_reference(matches: &ArgMatches<'_>, relation: Relation) -> Result<References, Named>
    ensures { result ≡ references_after (values_of matches.now opt.Ref2) (Ok relation) }
{
    match decimal_option(matches, Named::Ref2, use_of_ref2(relation)) {
        Ok(ref2) => Ok(References { relation, ref2 }),
        Err(option) => Err(option),
    }
}

// Makes the request of a set from options that were read, with the text of its numbers and the names of its files. The
// only error is out of memory.
fn set_of_options(
    alloc: Global,
    matches: &ArgMatches<'_>,
    kind: Kind,
    target: Body,
    search: SearchOptions,
    references: References,
) -> Result<Request, AllocError>
    requires search { search ≡ search_by_options (values_of matches.now) kind target }
    requires references { references ≡ references_by (values_of matches.now) }
    ensures { IfOk result (λ request. request ≡ set_of (values_of matches.now)
        (search_of (values_of matches.now) kind target (file_names_of matches.now))) }
{
    let first = values_text(alloc, matches, kind)?;
    let values = with_second_word(first, given_word(matches, Named::Ref2))?;
    Ok(Request::Set {
        find: search_with_texts(alloc, matches, search, Dir::Any, values)?,
        ref2: references.ref2,
        relation: references.relation,
    })
}

// Makes the request of a set of a kind of event and a target, which were read, from the other options. The error names
// the first bad option, or is out of memory.
fn set_of_target(
    alloc: Global,
    matches: &ArgMatches<'_>,
    kind: Kind,
    target: Body,
) -> Result<Request, WordFault>
    requires kind { option_and_then set_kind_of (values_of matches.now opt.Kind) ≡ Some kind }
    requires target { option_and_then target_of (values_of matches.now opt.Target) ≡ Some target }
    ensures { Answers (request_by command.Set (values_of matches.now) (file_names_of matches.now))
        result }
{
    match read_search(matches, kind, target, read_references(matches, kind)) {
        Ok((search, references)) => match set_of_options(
            alloc, matches, kind, target, search, references,
        ) {
            Ok(request) => Ok(request),
            Err(_) => Err(WordFault::Memory),
        },
        Err(option) => Err(WordFault::BadValue(option)),
    }
}

/// Makes the request of the command `set` from its options and files. The error names the first bad option, or is out
/// of memory.
pub(crate) fn set_request(alloc: Global, matches: &ArgMatches<'_>) -> Result<Request, WordFault>
    ensures { Answers (request_by command.Set (values_of matches.now) (file_names_of matches.now))
        result }
{
    match join_parts(set_kind_option(matches), target_option(matches)) {
        Ok((kind, target)) => set_of_target(alloc, matches, kind, target),
        Err(option) => Err(WordFault::BadValue(option)),
    }
}
