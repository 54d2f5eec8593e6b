//! The program. In come the words of the command line, the files of the system and its standard streams; out goes the
//! status of the one call that does the work, as the exit status.
#![tactic(auto)]

ghost use Rattle.std.specs.Prelude.{◌≡◌, ◌∷◌, [], IfOk, OnErr, codes, drop, map, string_bytes};
ghost use Rattle.std.specs.Vec.Iter.{into_iter_items};

use gf_edges::{FileShelf, OpenGate, StdSink, SystemFiles};
use gf_find::run;
use std::alloc::{AllocError, Global};
use std::env::Args;
use std::io::ErrorKind;
use std::process::ExitCode;
use std::{env, io};

/// Returns the arguments without the first, which is the program's name. The only error is out of memory.
fn words_after_name(alloc: Global, mut arguments: Args) -> Result<Vec<String>, AllocError>
    ensures { IfOk result (λ words. words.items ≡ drop 1 (into_iter_items arguments)) }
{
    let mut words = Vec::new(alloc);
    if let Some(_name) = arguments.next() {
        while let Some(word) = arguments.next() {
            words.push(word)?;
        }
    }
    Ok(words)
}

/// Returns the words of the command line, which are the arguments without the program's name. If an argument is not
/// UTF-8, it returns `check` alone in their place: that is refused as an invalid command line too, since no file is
/// named. The only error is out of memory.
fn words_of_arguments(alloc: Global, arguments: io::Result<Args>) -> Result<Vec<String>, AllocError>
    ensures given { IfOk arguments (λ given. IfOk result (λ words.
        words.items ≡ drop 1 (into_iter_items given))) }
    ensures refused { OnErr arguments (IfOk result (λ words.
        map string_bytes words.items ≡ codes "check" ∷ [])) }
{
    match arguments {
        Ok(arguments) => words_after_name(alloc, arguments),
        Err(error) if error.kind() == ErrorKind::OutOfMemory => Err(AllocError),
        Err(_) => {
            let mut words = Vec::new(alloc);
            words.push(String::from_str(alloc, "check")?)?;
            Ok(words)
        }
    }
}

// Runs the one call of the program over the words of the command line, the system's files and its streams, and exits
// with its status. It is one expression, since no contract can speak of it.
fn main(rt: HostRuntime) -> ExitCode {
    ExitCode::from(run(
        &rt,
        rt.alloc(),
        words_of_arguments(rt.alloc(), env::args(&rt)),
        &mut FileShelf::new(SystemFiles::new(&rt)),
        &mut StdSink::out(&rt),
        &mut StdSink::err(&rt),
        &OpenGate,
    ))
}
