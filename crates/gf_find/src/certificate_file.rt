// The file of a certificate: its text, read as a whole.
ghost use Rattle.std.specs.Prelude.{◌≡◌, ◌⊎◌, ◌≤◌, IfErr, IfOk, length};
ghost use Rattle.spec_text.specs.declared.limits.TheConstants.{MAX_TEXT_BYTES};
ghost use Rattle.spec_files.specs.Files.{IsFile};
ghost use Rattle.gf_find.specs.CertificateFiles.{CertificateStops};

use crate::files::{refusal_by_name, unread_refusal_by_name};
use gf_edges::Shelf;
use gf_files::{FilesError, read_file};
use spec_outcomes::Refusal;
use spec_requests::Text;
use std::alloc::Global;

/// Reads the file of this name as the text of a certificate. The error is out of memory, a file that cannot be read, or
/// one of more than `MAX_TEXT_BYTES` bytes.
pub(crate) fn read_certificate<S: Shelf>(
    alloc: Global,
    shelf: &mut S,
    name: &Text,
) -> Result<Vec<u8>, Refusal>
    ensures there { IfOk result (λ text. IsFile (S.files shelf.old) name.now text.items) }
    ensures small { IfOk result (λ text. length text.items ≤ MAX_TEXT_BYTES) }
    ensures stopped { IfErr result (λ refusal. (refusal ≡ Refusal.Memory)
        ⊎ CertificateStops (S.files shelf.old) name.now
        (S.faults shelf.old) (S.faults shelf.new) refusal) }
{
    let word = name.as_str();
    // 0 is the place of this one file among those that are read, which the errors carry.
    match read_file(alloc, shelf, 0, word) {
        Ok(text) => Ok(text),
        Err(FilesError::Fault { file: _, fault }) => Err(refusal_by_name(alloc, word, fault)),
        Err(FilesError::NotRead { file: _ }) => Err(unread_refusal_by_name(alloc, word)),
        Err(FilesError::Memory) => Err(Refusal::Memory),
    }
}
