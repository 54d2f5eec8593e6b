// The lines of several files, one file after the other: to the header's reader, and then to that of the blocks.
ghost use Rattle.std.specs.Prelude.{◌≡◌, ◌+◌, ◌≤◌, [], List, ℕ, length};
ghost use Rattle.spec_text.specs.Lines.{lines};
ghost use Rattle.spec_text.specs.declared.limits.TheConstants.{MAX_TEXT_BYTES};
ghost use Rattle.spec_files.specs.Sections.{FileLine};
ghost use Rattle.spec_files.specs.Lines.{ephemeris};
ghost use Rattle.de_text.specs.Cursor.{counted_after};
ghost use Rattle.de_header.specs.Reader as headers;
ghost use Rattle.de_blocks.specs.Reader.{accepted_in};
ghost use Rattle.gf_files.specs.declared.reader.Reader.TheVariants as readers;
ghost use Rattle.gf_files.specs.Reader.{CanGoOn, FeedsLines, FeedsPiece, Finishes, IsOfHeader, IsReady, Moves, TookLine, WantsMore, ephemeris_after, moved};

use de_blocks::{BlockReader, BlockStore, Rounding};
use de_header::{HeaderReader, Step};
use de_text::{Line, LineStep, Tokens};
use spec_faults::LINE_TOO_LONG;
use spec_files::ReadError;
use spec_text::Fault;
use std::alloc::Global;
use std::mem;

/// What the next line belongs to.
#[derive(Drop)]
pub(crate) enum Reader {
    Header(HeaderReader),
    Blocks(BlockReader),
}

/// A reader that took a text, or its first pieces.
#[derive(Drop)]
pub(crate) struct Fed {
    pub reader: Reader,
    /// The number of the lines that were taken plus 1.
    pub end_line: u32,
}

/// Returns a reader that waits for the first line of the first file.
pub(crate) fn first_reader() -> Reader
    ensures ready { IsReady result }
    ensures first { (file : ℕ) (lines : List FileLine)
        → ephemeris_after file result lines ≡ ephemeris lines }
{
    Reader::Header(HeaderReader::new())
}

// Returns the reader of the blocks after a header that is whole. `rounding` is when it rounds numbers, and `line` the
// line that ended the header, whose number an error would name. Errors: out of memory.
fn begin_blocks(
    alloc: Global,
    rounding: Rounding,
    header: HeaderReader,
    line: &Line<'_>,
) -> Result<Reader, ReadError>
    requires whole { headers.IsWhole header }
    requires of_header { IsOfHeader header }
    ensures { (old : Reader) → TookLine old line.now (readers.Header header)
        → Moves old line.now result }
{
    let header = header.end(alloc, line.number())?;
    Ok(Reader::Blocks(BlockReader::with_rounding(alloc, header, rounding)))
}

// Gives a line to the reader of the header. Returns that reader, or the reader of the blocks once the header is
// whole. Errors: the first fault of the lines, or out of memory. The call is not inlined, since few lines are of the
// header.
#[inline(never)]
fn take_header_line(
    alloc: Global,
    rounding: Rounding,
    mut reader: HeaderReader,
    line: &Line<'_>,
) -> Result<Reader, ReadError>
    requires { WantsMore reader }
    ensures { Moves (readers.Header reader) line.now result }
{
    match reader.line(line)? {
        Step::More => Ok(Reader::Header(reader)),
        Step::Done => begin_blocks(alloc, rounding, reader, line),
    }
}

// Gives a line to the reader of the blocks, in place. Errors: the first fault of the lines, or out of memory.
#[inline(always)]
fn take_block_line(reader: &mut BlockReader, line: &Line<'_>) -> Result<(), ReadError>
    requires { IsReady (readers.Blocks reader.old) }
    ensures { Moves (readers.Blocks reader.old) line.now
        (moved result (readers.Blocks reader.new)) }
{
    reader.line(line)?;
    Ok(())
}

// Gives a line to the reader, whether it reads the header or blocks. Errors: the first fault of the lines, or out of
// memory. The call is not inlined, since its locals are large and lines of blocks seldom need it.
#[inline(never)]
fn take_any_line(
    alloc: Global,
    rounding: Rounding,
    reader: &mut Reader,
    line: &Line<'_>,
) -> Result<(), ReadError>
    requires { IsReady reader.old }
    ensures { Moves reader.old line.now (moved result reader.new) }
{
    match reader {
        Reader::Header(header) => {
            let header = mem::replace(header, HeaderReader::new());
            *reader = take_header_line(alloc, rounding, header, line)?;
            Ok(())
        }
        Reader::Blocks(blocks) => take_block_line(blocks, line),
    }
}

// Gives a line to the reader. Lines of blocks are given in place, since a reader of blocks is large; lines of the
// header go to `take_any_line`. Errors: the first fault of the lines, or out of memory.
#[inline(always)]
fn take_line(
    alloc: Global,
    rounding: Rounding,
    reader: &mut Reader,
    line: &Line<'_>,
) -> Result<(), ReadError>
    requires { IsReady reader.old }
    ensures { Moves reader.old line.now (moved result reader.new) }
{
    match reader {
        Reader::Header(_) => take_any_line(alloc, rounding, reader, &line.without_triple()),
        Reader::Blocks(blocks) => take_block_line(blocks, line),
    }
}

// Gives all lines of a piece of a text to the reader, where pieces with `before` lines came before it. Returns the reader
// after them, with the number of the lines up to there plus 1. Errors: the first fault of the lines, or out of memory.
fn feed_lines(
    alloc: Global,
    rounding: Rounding,
    mut reader: Reader,
    before: u32,
    piece: &[u8],
) -> Result<Fed, ReadError>
    requires small { before + length piece.now ≤ MAX_TEXT_BYTES }
    requires ready { IsReady reader }
    ensures { FeedsLines reader (counted_after before piece.now)
        (before + length (lines piece.now) + 1) result }
{
    let mut lines = Tokens::after(before, piece);
    loop {
        match lines.triple_line() {
            Some(line) => take_line(alloc, rounding, &mut reader, &line)?,
            None => match lines.line() {
                LineStep::Line(line) => take_any_line(alloc, rounding, &mut reader, &line)?,
                LineStep::TooLong(line) => {
                    return Err(ReadError::Fault(Fault {
                        line,
                        number: LINE_TOO_LONG,
                        detail: 0,
                    }));
                }
                LineStep::End => {
                    let end_line = lines.end_line();
                    return Ok(Fed { reader, end_line });
                }
            },
        }
    }
}

/// Gives all lines of the next piece of a text to the reader that took those of the pieces before it. Returns that
/// reader, with the number of the lines up to there plus 1. `rounding` is when numbers are rounded. Errors: that of the
/// pieces before; else the first fault of the lines, or out of memory.
pub(crate) fn feed_piece(
    alloc: Global,
    rounding: Rounding,
    fed: Result<Fed, ReadError>,
    piece: &[u8],
) -> Result<Fed, ReadError>
    requires { CanGoOn fed (length piece.now) }
    ensures { FeedsPiece fed piece.now result }
{
    match fed {
        Ok(fed) => feed_lines(alloc, rounding, fed.reader, fed.end_line - 1, piece),
        Err(error) => Err(error),
    }
}

// Returns the store of the blocks that were read. `line` is the number of the last file's lines plus 1. Errors: the
// fault at that line of a block that is not whole, or that no block was read.
fn end_blocks(reader: BlockReader, line: u32) -> Result<BlockStore, ReadError>
    ensures { Finishes line (ephemeris_after 0 (readers.Blocks reader) []) (accepted_in result) }
{
    reader.end_store(line)
}

// Ends the reading within the header, at `line`, the number of the last file's lines plus 1. It always fails, with a
// fault at that line, since a header that wants more lines is not whole. The last call is never reached: it serves
// the types alone.
fn end_within_header(
    alloc: Global,
    reader: HeaderReader,
    line: u32,
) -> Result<BlockStore, ReadError>
    requires { WantsMore reader }
    ensures { Finishes line (ephemeris_after 0 (readers.Header reader) []) (accepted_in result) }
{
    let header = reader.end(alloc, line)?;
    end_blocks(BlockReader::new(alloc, header), line)
}

/// Returns the store with the blocks of all lines. `line` is the number of the last file's lines plus 1. Errors: a fault
/// at that line, if a header or a block is not whole or no block was read; the fault that was met before; or out of
/// memory.
pub(crate) fn end_reading(alloc: Global, reader: Reader, line: u32) -> Result<BlockStore, ReadError>
    requires { IsReady reader }
    ensures { Finishes line (ephemeris_after 0 reader []) (accepted_in result) }
{
    match reader {
        Reader::Header(reader) => end_within_header(alloc, reader, line),
        Reader::Blocks(reader) => end_blocks(reader, line),
    }
}
