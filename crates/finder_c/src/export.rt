// What a host calls.
ghost use Rattle.std.specs.Prelude.{◌≡◌, ◌≢◌, ◌<◌, ◌≤◌, [], length};
ghost use Rattle.spec_output.specs.Messages.{memory_text};
ghost use Rattle.finder_c.specs.Calls.{Call, IsLine, IsMalformed, IsText, IsWritten, Writes};

use crate::reply::{MALFORMED, Reply, reply_to_call};
use spec_outcomes::{NOT_WRITTEN, OUT_OF_MEMORY, REPORTED};
use std::alloc::{AllocError, Global};

// Writes a text to the start of memory, as far as it fits, and its whole length.
fn write_text(text: &[u8], room: &mut [u8], whole: &mut usize)
    ensures { IsWritten text.now room.old room.new whole.new }
{
    *whole = text.len();
    let count = text.len().min(room.len());
    room[..count].copy_from_slice(&text[..count]);
}

// Writes the text of a reply, and returns its status: `NOT_WRITTEN` if it is that of a report for which there is no room.
fn write_reply(reply: &Reply, room: &mut [u8], whole: &mut usize) -> u8
    ensures written { IsWritten reply.now.text.items room.old room.new whole.new }
    ensures fits { result ≡ REPORTED → (reply.now.status ≡ REPORTED) × (whole.new ≤ length room.old) }
    ensures no_room { result ≡ NOT_WRITTEN → reply.now.status ≢ NOT_WRITTEN
        → (reply.now.status ≡ REPORTED) × (length room.old < whole.new) }
    ensures other { result ≢ REPORTED → result ≢ NOT_WRITTEN → result ≡ reply.now.status }
{
    let is_cut = reply.status == REPORTED && room.len() < reply.text.len();
    write_text(&reply.text, room, whole);
    if is_cut { NOT_WRITTEN } else { reply.status }
}

/// Does what `finder` does for words and files that come as bytes, in the calling thread, and returns the status. Writes the
/// text that it would write to standard output, or the line of a refusal, to the start of `text`, as far as it fits, and the
/// length of the whole text to `whole`. `include/finder.h` says how the bytes are laid out, and what the statuses are.
#[unsafe(no_mangle)]
pub extern "C" fn finder_call(
    alloc: Global,
    words: &[u8],
    files: &[u8],
    text: &mut [u8],
    whole: &mut usize,
) -> u8
    // With status 0 the whole text is written that the words ask for over the files: of a search the report of all events in
    // proved windows.
    ensures reported { result ≡ REPORTED → Writes (λ report. Call words.now files.now (IsText report))
        text.old text.new whole.new }
    ensures fits { result ≡ REPORTED → whole.new ≤ length text.old }

    // With status 5 it is that text, for which there is no room: `whole` says how much it needs.
    ensures cut { result ≡ NOT_WRITTEN → Writes (λ report. Call words.now files.now (IsText report))
        text.old text.new whole.new }
    ensures no_room { result ≡ NOT_WRITTEN → length text.old < whole.new }

    // With status 64 the bytes are no words, or no files.
    ensures malformed { result ≡ MALFORMED → IsMalformed words.now files.now }
    ensures no_text { result ≡ MALFORMED → IsWritten [] text.old text.new whole.new }

    // With status 8 memory ran out.
    ensures memory { result ≡ OUT_OF_MEMORY → IsWritten memory_text text.old text.new whole.new }

    // Each other status is that of the cause why the words and the files are refused, and its line is written.
    ensures refused { result ≢ REPORTED → result ≢ NOT_WRITTEN → result ≢ MALFORMED
        → result ≢ OUT_OF_MEMORY → Writes (λ line. Call words.now files.now (IsLine result line))
        text.old text.new whole.new }
{
    match reply_to_call(alloc, words, files) {
        Ok(reply) => write_reply(&reply, text, whole),
        Err(AllocError) => {
            write_text(b"finder: out of memory\n", text, whole);
            OUT_OF_MEMORY
        }
    }
}
