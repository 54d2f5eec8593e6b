// The words and the files that the bytes of a call hold.
ghost use Rattle.std.specs.Prelude.{◌<◌, List, ℕ, IfNone, IfOk, IfSome, length, map, string_bytes};
ghost use Rattle.gf_edges.specs.Edges.{Files};
ghost use Rattle.finder_c.specs.Layout.{AreFiles, AreWords, BeginWithContent, BeginWithFile, BeginWithText, entries, entry};

use memchr::memchr;
use std::alloc::{AllocError, Global};
use std::str;

/// A file of a call: its name and its bytes.
#[derive(Clone, Copy)]
pub(crate) struct NamedBytes<'a> {
    pub(crate) name: &'a str,
    pub(crate) bytes: &'a [u8],
}

// Returns the text that bytes begin with, which a byte 0 ends, and what follows that byte; or `None` if they begin with
// no such text.
fn cut_text(bytes: &[u8]) -> Option<(&str, &[u8])>
    ensures cut { IfSome result (λ cut. BeginWithText bytes.now cut.0.now cut.1.now) }
    ensures none { IfNone result ((text rest : List ℕ) → BeginWithText bytes.now text rest → ⊥) }
    ensures shorter { IfSome result (λ cut. length cut.1.now < length bytes.now) }
{
    match memchr(0, bytes) {
        Some(end) => match str::from_utf8(&bytes[..end]) {
            Ok(text) => Some((text, &bytes[end + 1..])),
            Err(_) => None,
        },
        None => None,
    }
}

// Returns the bytes whose number the first 8 bytes say, and what follows them; or `None` if there are fewer.
fn cut_content(bytes: &[u8]) -> Option<(&[u8], &[u8])>
    ensures cut { IfSome result (λ cut. BeginWithContent bytes.now cut.0.now cut.1.now) }
    ensures none { IfNone result ((content rest : List ℕ) → BeginWithContent bytes.now content rest → ⊥) }
    ensures shorter { IfSome result (λ cut. length cut.1.now < length bytes.now) }
{
    let (size, rest) = bytes.split_first_chunk::<8>()?;
    rest.split_at_checked(usize::from_le_bytes(*size))
}

// Returns the file that bytes begin with, and what follows it; or `None` if they begin with none.
fn cut_file(bytes: &[u8]) -> Option<(NamedBytes<'_>, &[u8])>
    ensures cut { IfSome result (λ cut.
        BeginWithFile bytes.now (entry cut.0) cut.1.now) }
    ensures none { IfNone result
        ((file : List ℕ × List ℕ) (rest : List ℕ) → BeginWithFile bytes.now file rest → ⊥) }
    ensures shorter { IfSome result (λ cut. length cut.1.now < length bytes.now) }
{
    match cut_text(bytes) {
        Some((name, later)) => match cut_content(later) {
            Some((bytes, rest)) => Some((NamedBytes { name, bytes }, rest)),
            None => None,
        },
        None => None,
    }
}

/// Returns the words that bytes are, or `None` if they are none. The only error is out of memory.
pub(crate) fn words_of_bytes(alloc: Global, bytes: &[u8]) -> Result<Option<Vec<String>>, AllocError>
    ensures words { IfOk result (λ read. IfSome read (λ words.
        AreWords bytes.now (map string_bytes words.items))) }
    ensures none { IfOk result (λ read. IfNone read
        ((words : List (List ℕ)) → AreWords bytes.now words → ⊥)) }
{
    let mut words = Vec::new(alloc);
    let mut rest = bytes;
    while !rest.is_empty() {
        match cut_text(rest) {
            Some((word, later)) => {
                words.push(String::from_str(alloc, word)?)?;
                rest = later;
            }
            None => return Ok(None),
        }
    }
    Ok(Some(words))
}

/// Returns the files that bytes are, or `None` if they are none. The only error is out of memory.
pub(crate) fn files_of_bytes<'a>(
    alloc: Global,
    bytes: &'a [u8],
) -> Result<Option<Vec<NamedBytes<'a>>>, AllocError>
    ensures files { IfOk result (λ read. IfSome read (λ files.
        AreFiles bytes.now (entries files.items))) }
    ensures none { IfOk result (λ read. IfNone read
        ((files : Files) → AreFiles bytes.now files → ⊥)) }
{
    let mut files = Vec::new(alloc);
    let mut rest = bytes;
    while !rest.is_empty() {
        match cut_file(rest) {
            Some((file, later)) => {
                files.push(file)?;
                rest = later;
            }
            None => return Ok(None),
        }
    }
    Ok(Some(files))
}
