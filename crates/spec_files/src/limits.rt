// The limits of a header, and of the files of a run.

/// The most days of a block.
pub const MAX_BLOCK_DAYS: u64 = 64;

/// The most constants of a header.
pub const MAX_CONSTANTS: u32 = 2_000;

/// The most files of a run.
pub const MAX_FILES: usize = 64;
