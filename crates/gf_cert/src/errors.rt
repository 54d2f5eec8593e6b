// Why a text is no certificate.

use spec_certificates::CertFault;
use std::alloc::{AllocError, AllocFailed};
use thiserror::Error;

/// Why the leaves of a text cannot be given.
#[derive(Clone, Copy, Debug, PartialEq, Eq, Error)]
pub enum CertError {
    /// The first line that breaks a rule, counted from 1 over all lines of the text, and the number of the rule, from
    /// 70 to 74.
    #[error("a line breaks a rule")]
    Refused { line: u32, number: u8 },
    /// Out of memory.
    #[error("out of memory")]
    Memory,
}

impl From<CertFault> for CertError {
    ghost use Rattle.std.specs.Prelude.{◌≡◌};
    ghost use Rattle.gf_cert.specs.Answers.{refusal_of};

    ghost from_gives = { λ fault error. error ≡ refusal_of fault };

    // Converts the fault of a line, which breaks a rule, to the error that refuses the text.
    fn from(fault: CertFault) -> Self {
        CertError::Refused {
            line: fault.line,
            number: fault.number,
        }
    }
}

impl From<AllocError> for CertError {
    ghost use Rattle.std.specs.Prelude.{◌≡◌};
    ghost use Rattle.gf_cert.specs.declared.errors.CertError.TheVariants.{Memory};

    ghost from_gives = { λ _ error. error ≡ Memory };

    // Converts a failed allocation to the error `Memory`.
    fn from(_: AllocError) -> Self {
        CertError::Memory
    }
}

impl<T: Drop> From<AllocFailed<T>> for CertError {
    ghost use Rattle.std.specs.Prelude.{◌≡◌};
    ghost use Rattle.gf_cert.specs.declared.errors.CertError.TheVariants.{Memory};

    ghost from_gives = { λ _ error. error ≡ Memory };

    // Converts a failed allocation to the error `Memory`, and drops the value that found no room.
    fn from(_: AllocFailed<T>) -> Self {
        CertError::Memory
    }
}
