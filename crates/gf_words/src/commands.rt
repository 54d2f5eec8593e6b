// The commands, as `clap` takes them.
ghost use Rattle.std.specs.Prelude.{◌≡◌, ◌++◌, ◌∷◌, [], IfOk, map};
ghost use Rattle.clap.specs.Simple.{app_of};
ghost use Rattle.spec_requests.specs.Commands.{command_rules, command_with, files_rule, options_of, places_of};
ghost use Rattle.gf_words.specs.Commands.{last_options, reads_files, rule_of, with_rules, words_of};

use clap::{Arg, ArgAction, Command};
use spec_requests::{
    CommandName, FIND_OPTIONS, GEN_OPTIONS, GEN_WORDS, Named, SCALAR_OPTIONS, SET_OPTIONS,
    command_name, option_name,
};
use std::alloc::{AllocError, Global};

/// How a value is given: as the word after an option's name, or as a word in a fixed place.
#[derive(Clone, Copy)]
pub(crate) enum Role {
    Option,
    Word,
}

// Returns a command with one more rule for `clap`, by the option's role: an option with a value, or a required word in
// a fixed place. The only error is out of memory.
fn with_option<'a>(
    alloc: Global,
    command: Command<'a>,
    role: Role,
    option: Named,
) -> Result<Command<'a>, AllocError>
    ensures { IfOk result (λ more.
        app_of more ≡ with_rules (rule_of role option ∷ []) (app_of command.entry)) }
{
    let name: &'a str = option_name(option);
    match role {
        Role::Option => command.arg(Arg::new(alloc, name).long(name)),
        Role::Word => command.arg(Arg::new(alloc, name).required(true)),
    }
}

// Returns a command with a rule for each of the options, in their order, all in the same role. The only error is out of
// memory.
fn with_options<'a>(
    alloc: Global,
    mut command: Command<'a>,
    role: Role,
    options: &[Named],
) -> Result<Command<'a>, AllocError>
    ensures { IfOk result (λ more.
        app_of more ≡ with_rules (map (rule_of role) options.now) (app_of command.entry)) }
{
    for option in options {
        command = with_option(alloc, command, role, *option)?;
    }
    Ok(command)
}

// Returns a command with the rule that names of files follow, at least one. The only error is out of memory.
fn with_files<'a>(alloc: Global, command: Command<'a>) -> Result<Command<'a>, AllocError>
    ensures { IfOk result (λ more.
        app_of more ≡ with_rules (files_rule ∷ []) (app_of command.entry)) }
{
    let files = Arg::new(alloc, "FILE")
        .action(ArgAction::Append)
        .required(true);
    command.arg(files)
}

// Returns a command of this name without rules, and without the option `help` that `clap` adds by itself.
fn bare_command<'a>(alloc: Global, name: &'a str) -> Command<'a>
    ensures { app_of result ≡ command_with name.entry.now [] }
{
    Command::new(alloc, name).disable_help_flag(true)
}

// Returns the options that a command reads, in the order of their rules. That of `verify` that names the certificate is
// left out, since `command_with_rules` adds it last.
fn options_but_certificate(name: CommandName) -> &'static [Named]
    ensures { options_of name ≡ result.now ++ last_options name }
{
    match name {
        CommandName::Find | CommandName::Cert | CommandName::Verify => &FIND_OPTIONS,
        CommandName::Check => &[],
        CommandName::Gen => &GEN_OPTIONS,
        CommandName::Set => &SET_OPTIONS,
        CommandName::Scalar => &SCALAR_OPTIONS,
    }
}

// Returns the option that names the certificate for the command `verify`, and none for any other command.
fn certificate_options(name: CommandName) -> &'static [Named]
    ensures { result.now ≡ last_options name }
{
    if matches!(name, CommandName::Verify) {
        &[Named::Cert]
    } else {
        &[]
    }
}

// Tells whether a command reads files. All do but `gen` and `scalar`.
fn reads_files(name: CommandName) -> bool
    ensures { result ≡ reads_files name }
{
    !matches!(name, CommandName::Gen | CommandName::Scalar)
}

// Returns the words that a command without files reads in fixed places: three for `gen`, and none for `scalar`.
fn fixed_words(name: CommandName) -> &'static [Named]
    ensures { result.now ≡ words_of name }
{
    if matches!(name, CommandName::Gen) {
        &GEN_WORDS
    } else {
        &[]
    }
}

// Returns a command with the rules of what follows its options: files, the words of `gen`, or nothing. The only error
// is out of memory.
fn with_arguments<'a>(
    alloc: Global,
    command: Command<'a>,
    name: CommandName,
) -> Result<Command<'a>, AllocError>
    ensures { IfOk result (λ more.
        app_of more ≡ with_rules (places_of name) (app_of command.entry)) }
{
    if reads_files(name) {
        with_files(alloc, command)
    } else {
        with_options(alloc, command, Role::Word, fixed_words(name))
    }
}

/// Returns a command with the rules by which `clap` reads it: its options, then its files or words. The only error is
/// out of memory.
pub(crate) fn command_with_rules<'a>(
    alloc: Global,
    name: CommandName,
) -> Result<Command<'a>, AllocError>
    ensures { IfOk result (λ command. app_of command ≡ command_rules name) }
{
    let text: &'a str = command_name(name);
    let command = bare_command(alloc, text);
    let command = with_options(alloc, command, Role::Option, options_but_certificate(name))?;
    let command = with_options(alloc, command, Role::Option, certificate_options(name))?;
    with_arguments(alloc, command, name)
}
