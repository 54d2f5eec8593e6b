// Why files are no ephemeris.
ghost use Rattle.std.specs.Prelude.{◌≡◌};
ghost use Rattle.gf_files.specs.Errors.{in_file};

use spec_files::ReadError;
use spec_text::Fault;
use std::alloc::AllocError;
use thiserror::Error;

/// Why the reading of files ends without an ephemeris. Files are counted from 0.
#[derive(Clone, Copy, Debug, PartialEq, Eq, Error)]
pub enum FilesError {
    /// This file has the first fault, or is the first of too many.
    #[error("a file has a fault")]
    Fault { file: usize, fault: Fault },
    /// This file could not be read.
    #[error("a file couldn't be read")]
    NotRead { file: usize },
    /// Out of memory.
    #[error("out of memory")]
    Memory,
}

impl From<AllocError> for FilesError {
    ghost use Rattle.std.specs.Prelude.{◌≡◌};
    ghost use Rattle.gf_files.specs.declared.errors.FilesError.TheVariants.{Memory};

    ghost from_gives = { λ _ e. e ≡ Memory };

    // Converts the error of a call that is out of memory, so that `?` can return it.
    fn from(_: AllocError) -> Self {
        FilesError::Memory
    }
}

/// Returns the error of a reader of lines as the error of the file of this number, counted from 0. Out of memory
/// belongs to no file.
pub(crate) fn error_in_file(file: usize, error: ReadError) -> FilesError
    ensures { result ≡ in_file file error }
{
    match error {
        ReadError::Fault(fault) => FilesError::Fault { file, fault },
        ReadError::Memory => FilesError::Memory,
    }
}
