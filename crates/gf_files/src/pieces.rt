// A file that is read in pieces. The whole lines of each piece go to the reader before the next piece is read, so that
// memory holds one piece at a time.
ghost use Rattle.std.specs.Prelude.{◌≡◌, ◌+◌, ◌≤◌, ℕ, IfOk, IsErrOf, drop, length};
ghost use Rattle.gf_edges.specs.Edges.{Rose};
ghost use Rattle.spec_text.specs.declared.decimals.Fault.{Fault};
ghost use Rattle.spec_files.specs.declared.errors.ReadError.TheVariants as errors;
ghost use Rattle.gf_files.specs.Read.{GivesLines, StopsInRest, TakesFew, TakesRest};
ghost use Rattle.gf_files.specs.Reader.{CanGoOn, FeedsPiece, IsReady};

use crate::errors::{FilesError, error_in_file};
use crate::file::{TOO_LARGE, append_next_bytes};
use crate::reader::{Fed, Reader, feed_piece};
use de_blocks::Rounding;
use de_text::whole_lines_length;
use gf_edges::Shelf;
use spec_files::ReadError;
use spec_text::MAX_TEXT_BYTES;
use std::alloc::Global;

// Drops the first bytes of these, `count` of them, in place. Where `count` is 0 nothing is moved, since the window of a
// text without line feeds grows.
fn drop_front(bytes: &mut Vec<u8>, count: usize)
    requires { count ≤ length bytes.old.items }
    ensures { bytes.new.items ≡ drop count bytes.old.items }
{
    if count == 0 {
        return;
    }
    let left = bytes.len() - count;
    bytes.copy_within(count.., 0);
    bytes.truncate(left);
}

// Gives the whole lines at the front of the window to the reader, and drops them from the window. Line feeds before the
// place `from` of the window are not looked for: there is none if all whole lines before it were given. Returns what
// became of the pieces of the file up to there.
fn feed_whole_lines(
    alloc: Global,
    rounding: Rounding,
    fed: Result<Fed, ReadError>,
    window: &mut Vec<u8>,
    from: usize,
) -> Result<Fed, ReadError>
    requires from { from ≤ length window.old.items }
    requires fits { CanGoOn fed (length window.old.items) }
    ensures { GivesLines window.old.items window.new.items fed result }
{
    let end = whole_lines_length(window, from);
    let fed = feed_piece(alloc, rounding, fed, &window[..end]);
    drop_front(window, end);
    fed
}

// Gives the lines of the last piece of a file to the reader. The number of the file, counted from 0, is for the
// errors: the first fault of its lines, or out of memory.
fn feed_last_piece(
    alloc: Global,
    rounding: Rounding,
    file: usize,
    fed: Result<Fed, ReadError>,
    piece: &[u8],
) -> Result<Fed, FilesError>
    requires { CanGoOn fed (length piece.now) }
    ensures fed { IfOk result (λ last. FeedsPiece fed piece.now (Ok last)) }
    ensures fault { (place : ℕ) (fault : Fault) → IsErrOf result (FilesError.Fault place fault)
        → (place ≡ file) × FeedsPiece fed piece.now (Err (errors.Fault fault)) }
    ensures read { (place : ℕ) → IsErrOf result (FilesError.NotRead place) → ⊥ }
{
    match feed_piece(alloc, rounding, fed, piece) {
        Ok(last) => Ok(last),
        Err(error) => Err(error_in_file(file, error)),
    }
}

/// Gives the lines of what is left of the open file to the reader, piece by piece. Returns the reader after them, with
/// the number of the file's lines plus 1. The number of the file, counted from 0, is for the errors: the first fault of
/// its lines, once all of the file was read; the fault `FILE_TOO_LARGE` for more than 268,435,456 bytes, of which one
/// byte more is read; `NotRead` if the shelf fails; or out of memory. The window holds a piece at a time; its room
/// serves later files too. `rounding` is when numbers are rounded.
pub(crate) fn feed_rest<S: Shelf>(
    alloc: Global,
    rounding: Rounding,
    shelf: &mut S,
    reader: Reader,
    file: usize,
    window: &mut Vec<u8>,
) -> Result<Fed, FilesError>
    requires open { S.ready shelf.old }
    requires reader { IsReady reader }
    ensures fed { IfOk result (TakesRest (S.left shelf.old) reader) }
    ensures fault { (place : ℕ) (fault : Fault) → IsErrOf result (FilesError.Fault place fault)
        → (place ≡ file) × StopsInRest (S.left shelf.old) reader fault }
    ensures failed { (place : ℕ) → IsErrOf result (FilesError.NotRead place)
        → (place ≡ file) × Rose (S.faults shelf.old) (S.faults shelf.new) }
    ensures taken { TakesFew (S.left shelf.old) (S.left shelf.new) }
    ensures files { S.files shelf.new ≡ S.files shelf.old }
    ensures later { S.faults shelf.old ≤ S.faults shelf.new }
{
    window.clear();
    let mut taken = 0;
    let mut fed = Ok(Fed {
        reader,
        end_line: 1,
    });
    loop {
        let start = window.len();
        let count = append_next_bytes(shelf, file, window, MAX_TEXT_BYTES + 1 - taken)?;
        if count == 0 {
            return feed_last_piece(alloc, rounding, file, fed, window);
        }
        taken += count;
        if taken > MAX_TEXT_BYTES {
            return Err(FilesError::Fault {
                file,
                fault: TOO_LARGE,
            });
        }
        fed = feed_whole_lines(alloc, rounding, fed, window, start);
    }
}
