// The limits of numbers in words.

/// The most digits of a number that is a width, a depth or a count of workers.
pub const MAX_DIGITS_OF_A_COUNT: usize = 7;

/// The widest window of one event that a search may be asked for, in ticks. The narrowest is 1.
pub const MAX_WIDTH: u64 = spec_searches::MAX_WIDTH as u64;

/// The most cuts of a node that a search may be asked for.
pub const MAX_DEPTH: u64 = spec_searches::MAX_DEPTH as u64;

/// The most workers of a search. There is at least one.
pub const MAX_WORKERS: u64 = 64;

/// The most digits of a number of blocks.
pub const MAX_DIGITS_OF_BLOCKS: usize = 2;

/// The most blocks of a generated text. There is at least one.
pub const MAX_GENERATED_BLOCKS: u64 = spec_generated::MAX_GENERATED as u64;

/// The most digits of a seed.
pub const MAX_DIGITS_OF_A_SEED: usize = 20;

/// The greatest seed: the greatest number of 64 bits.
pub const MAX_SEED: u64 = u64::MAX;

/// The ticks of a second in a search that is asked for none.
pub const DEFAULT_TICK: u32 = 1;

/// The width of a search that is asked for none, in ticks.
pub const DEFAULT_WIDTH: u32 = 1;

/// The depth of a search that is asked for none.
pub const DEFAULT_DEPTH: u32 = 40;

/// The workers of a search, or of a generated text, that is asked for none.
pub const DEFAULT_WORKERS: u32 = 1;

/// The most digits of a number of a polynomial.
pub const MAX_DIGITS_OF_A_FACTOR: usize = 19;

/// The greatest magnitude that 19 digits write.
pub const MAX_WRITTEN_FACTOR: u64 = 9_999_999_999_999_999_999;

/// The most digits of a time of a scalar: those of a time that is written as a whole number.
pub const MAX_DIGITS_OF_A_TIME: usize = spec_times::MAX_TIME_DIGITS;

/// The greatest magnitude of the times of a scalar: that of 12 digits.
pub const MAX_SCALAR_TIME: u64 = 999_999_999_999;
