// The sizes and the constants of generated texts.

/// The most blocks of a generated text.
pub const MAX_GENERATED: u32 = 40;

/// The number of numbers in a block.
pub const NCOEFF: u32 = 1_018;

/// The number of draws that a block takes: one for each of its numbers but the two dates.
pub const DRAWS: u32 = 1_016;

/// The number of lines of a block after its record line, of three words each.
pub const ROWS: u32 = 340;

/// The factor of a draw: a state is multiplied by it.
pub const FACTOR: u64 = 6_364_136_223_846_793_005;

/// The increment of a draw: it is added to the product.
pub const INCREMENT: u64 = 1_442_695_040_888_963_407;

/// The Julian date at which the first block begins, 2451536.5, in units of 10^-11 days.
pub const FIRST_DATE: u64 = 245_153_650_000_000_000;

/// The length of a block, 32 days, in units of 10^-11 days.
pub const BLOCK_DATES: u64 = 3_200_000_000_000;
