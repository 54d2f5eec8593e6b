// The program's call, with words and a shelf, and what it returned.
use crate::inputs::words_of_line;
use gf_edges::{Gate, MemorySink, Shelf};
use gf_find::finder;
use std::alloc::{AllocError, Global};
use std::sync::Wait;
use std::thread::Threads;

// The most bytes that an output takes at once.
const PIECE: usize = 16;

// The room of the error output, in bytes.
const ERR_ROOM: usize = 4096;

/// What a call returned, and the outputs that it wrote to.
#[derive(Drop)]
pub(crate) struct Answer {
    pub(crate) status: u8,
    pub(crate) out: MemorySink,
    pub(crate) err: MemorySink,
}

/// Makes an output in memory that takes at most `room` bytes, and at most `PIECE` of them at once. The only error is
/// out of memory.
pub(crate) fn memory_output(alloc: Global, room: usize) -> Result<MemorySink, AllocError> {
    MemorySink::new(alloc, room, PIECE, Vec::new(alloc))
}

// Calls the program with these words, an output of `room` bytes and one for errors. Returns its status and what it
// wrote. The only error is out of memory.
fn answer_to_words<R: Threads + Wait + Sync, S: Shelf, G: Gate>(
    rt: &R,
    alloc: Global,
    words: &[String],
    shelf: &mut S,
    room: usize,
    gate: &G,
) -> Result<Answer, AllocError> {
    let mut out = memory_output(alloc, room)?;
    let mut err = memory_output(alloc, ERR_ROOM)?;
    let status = finder(rt, alloc, words, shelf, &mut out, &mut err, gate);
    Ok(Answer { status, out, err })
}

/// Calls the program with the words of a line, an output of `room` bytes and one for errors. Returns its status and
/// what it wrote. The only error is out of memory.
pub(crate) fn call_program<R: Threads + Wait + Sync, S: Shelf, G: Gate>(
    rt: &R,
    alloc: Global,
    line: &str,
    shelf: &mut S,
    room: usize,
    gate: &G,
) -> Result<Answer, AllocError> {
    let words = words_of_line(alloc, line)?;
    answer_to_words(rt, alloc, &words, shelf, room, gate)
}
