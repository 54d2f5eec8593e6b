// A text that comes in pieces, each of which is cut after its last whole line.
ghost use Rattle.std.specs.Prelude.{◌≤◌, length, take};
ghost use Rattle.de_text.specs.Pieces.{AreWholeLines};

use memchr::memrchr;

/// Returns how many bytes at the front of a text are whole lines: those up to its last line feed, with it. Only line
/// feeds from the place `from` on are looked for, counted from 0; it is 0 if there is none. The lines of these bytes
/// are the same whatever bytes follow.
pub fn whole_lines_length(text: &[u8], from: usize) -> usize
    requires { from ≤ length text.now }
    ensures within { result ≤ length text.now }
    ensures whole { AreWholeLines (take result text.now) }
{
    match memrchr(b'\n', &text[from..]) {
        Some(at) => from + at + 1,
        None => 0,
    }
}
