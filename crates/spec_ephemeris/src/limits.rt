// The limits of a header and of an ephemeris.

/// The number of columns of a header that are read, counted from 1. A header has at least these.
pub const READ_COLUMNS: usize = 13;

/// The most columns of a header. What those past `READ_COLUMNS` hold is not read.
pub const MAX_COLUMNS: usize = 15;

/// The number of columns that hold the positions of bodies: the first ones.
pub const BODY_COLUMNS: usize = 11;

/// The number of the column of nutations, which has two components.
pub const NUTATIONS: usize = 12;

/// The first place of a block that a column may take. The two places before it hold the block's Julian dates.
pub const FIRST_PLACE: u32 = 3;

/// The least number of numbers in a block.
pub const MIN_NUMBERS: u32 = 3;

/// The greatest number of numbers in a block.
pub const MAX_NUMBERS: u32 = 4_096;

/// The greatest number of Chebyshev coefficients of a component of a column.
pub const MAX_COEFFICIENTS: u32 = 32;

/// The seconds of a day. There are no leap seconds in TDB.
pub const DAY: i64 = 86_400;

/// The shortest block, in seconds.
pub const SHORTEST_BLOCK: i64 = 1;

/// The longest block, in seconds: 64 days.
pub const LONGEST_BLOCK: i64 = 5_529_600;

/// The most ticks of a second, if times are counted in ticks: 1,000, which are milliseconds.
pub const MAX_TICK: u32 = 1_000;

/// The length of the longest block, in the shortest ticks.
pub const LONGEST_TICKS: i64 = 5_529_600_000;

/// The least mass of the Earth over that of the Moon.
pub const MIN_MASS_RATIO: u64 = 1;

/// The greatest mass of the Earth over that of the Moon.
pub const GREATEST_MASS_RATIO: u64 = 1_000;

/// The most blocks of an ephemeris.
pub const MAX_BLOCKS: u32 = 16_384;

/// The earliest time, in seconds of TDB since J2000: Julian date 0.
pub const FIRST_TIME: i64 = -211_813_488_000;

/// The latest time at which a block begins or ends, in seconds of TDB since J2000: Julian date 5,000,000.
pub const LAST_TIME: i64 = 220_186_512_000;

/// The earliest time, in the shortest ticks since J2000.
pub const FIRST_TICK: i64 = -211_813_488_000_000;

/// The latest time at which a block begins or ends, in the shortest ticks since J2000.
pub const LAST_TICK: i64 = 220_186_512_000_000;
