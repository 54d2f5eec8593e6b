// Out of memory.
use std::alloc::AllocError;
use thiserror::Error;

/// Memory ran out.
#[derive(Debug, Drop, PartialEq, Eq, Error)]
#[error("out of memory")]
pub struct Memory;

impl From<AllocError> for Memory {
    // Converts a failed allocation to `Memory`, whatever its size was.
    fn from(_: AllocError) -> Self {
        Memory
    }
}
