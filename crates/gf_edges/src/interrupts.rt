// Reads and writes that a signal interrupts before they move a byte: they are made again, as std's own readers and
// writers make them.
ghost use Rattle.std.specs.Io.{ReadsAtMost, WritesAtMost};
ghost use Rattle.std.specs.Io.KnownBytes.{ReadConsumes, WriteAppends};

use std::io::{Error, ErrorKind, Read, Result, Write};

/// Reads bytes into the front of the buffer once, and returns how many. A read that a signal interrupts is made again,
/// up to 2^64 - 1 times, after which it is an error. Any other error is the reader's, after which nothing was read.
pub(crate) fn read_through_interrupts<R: Read>(reader: &mut R, buf: &mut [u8]) -> Result<usize>
    ensures bound { ReadsAtMost result buf.new }
    ensures bytes { ReadConsumes (R.remaining reader.old) (R.remaining reader.new) result buf.new }
{
    for _turn in 0..u64::MAX {
        match reader.read(buf) {
            Ok(count) => return Ok(count),
            Err(error) => {
                if error.kind() != ErrorKind::Interrupted {
                    return Err(error);
                }
            }
        }
    }
    Err(Error::from(ErrorKind::Interrupted))
}

/// Writes bytes from the front of the piece once, and returns how many the writer took. A write that a signal
/// interrupts is made again, up to 2^64 - 1 times, after which it is an error. Any other error is the writer's, after
/// which nothing was written.
pub(crate) fn write_through_interrupts<W: Write>(writer: &mut W, piece: &[u8]) -> Result<usize>
    ensures bound { WritesAtMost result piece.now }
    ensures bytes { WriteAppends (W.contents writer.old) (W.contents writer.new) result piece.now }
{
    for _turn in 0..u64::MAX {
        match writer.write(piece) {
            Ok(count) => return Ok(count),
            Err(error) => {
                if error.kind() != ErrorKind::Interrupted {
                    return Err(error);
                }
            }
        }
    }
    Err(Error::from(ErrorKind::Interrupted))
}
