// The call that `main` makes: that of `finder`, or the line of out of memory if there are no words.
ghost use Rattle.std.specs.Prelude.{IfOk, OnErr};
ghost use Rattle.gf_find.specs.Runs.{IsRunOfWords, IsRunWithoutWords};

use crate::top::{finder, write_out_of_memory};
use gf_edges::{Gate, Shelf, Sink};
use std::alloc::{AllocError, Global};
use std::sync::Wait;
use std::thread::Threads;

/// Does what the words of the command line ask for, as `finder` does, and returns the status. If there was no memory for
/// the words, it writes the line of out of memory to `err` and returns `OUT_OF_MEMORY`.
pub fn run<R: Threads + Wait + Sync, S: Shelf, O: Sink, E: Sink, G: Gate>(
    rt: &R,
    alloc: Global,
    words: Result<Vec<String>, AllocError>,
    shelf: &mut S,
    out: &mut O,
    err: &mut E,
    gate: &G,
) -> u8
    // With words, each clause of `finder` holds.
    ensures ran { IfOk words (λ given. IsRunOfWords
        S.files S.faults O.bytes O.faults E.bytes E.faults
        given.items shelf.old shelf.new out.old out.new err.old err.new result) }
    // Without words, no file is opened, and nothing is written but the line of out of memory.
    ensures no_words { OnErr words (IsRunWithoutWords O.bytes E.bytes E.faults
        shelf.old shelf.new out.old out.new err.old err.new result) }
{
    match words {
        Ok(words) => finder(rt, alloc, &words, shelf, out, err, gate),
        Err(AllocError) => write_out_of_memory(err),
    }
}
