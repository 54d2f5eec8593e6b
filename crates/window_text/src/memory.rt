// The error of the calls that make texts.

use std::alloc::AllocError;

/// The one error of a call that makes a text: out of memory.
pub type Memory = AllocError;
