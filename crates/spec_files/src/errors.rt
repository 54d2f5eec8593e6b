// Why lines are not read to their end.
ghost use Rattle.std.specs.Prelude.{◌≡◌};
ghost use Rattle.spec_files.specs.declared.errors.ReadError.TheVariants as errors;

use spec_text::Fault;
use std::alloc::{AllocError, AllocFailed};
use thiserror::Error;

/// Why a reader of lines stops.
#[derive(Clone, Copy, Debug, PartialEq, Eq, Error)]
pub enum ReadError {
    /// The first fault of the lines.
    #[error("a line breaks a rule, or the lines end too early")]
    Fault(Fault),
    /// Out of memory.
    #[error("out of memory")]
    Memory,
}

impl From<Fault> for ReadError {
    ghost from_gives = { λ fault error. error ≡ errors.Fault fault };

    // Converts a fault of the lines to the error of reading them, which keeps the fault.
    fn from(fault: Fault) -> Self {
        ReadError::Fault(fault)
    }
}

impl From<AllocError> for ReadError {
    ghost from_gives = { λ _ error. error ≡ errors.Memory };

    // Converts a failed allocation to the error of a reading that is out of memory.
    fn from(_: AllocError) -> Self {
        ReadError::Memory
    }
}

impl<T: Drop> From<AllocFailed<T>> for ReadError {
    ghost from_gives = { λ _ error. error ≡ errors.Memory };

    // Converts a failed allocation that hands back its value to the error of a reading that is out of memory, and drops
    // the value.
    fn from(_: AllocFailed<T>) -> Self {
        ReadError::Memory
    }
}
