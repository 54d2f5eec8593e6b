// The limits of a text, of its lines and of its words.

/// The most bytes of a text that is read by lines.
pub const MAX_TEXT_BYTES: usize = 268_435_456;

/// The most bytes of a line, without its line end.
pub const MAX_LINE_BYTES: usize = 4_096;

/// The most bytes of a word that is read as a decimal.
pub const MAX_WORD_BYTES: usize = 40;

/// The most digits of a decimal, from the first that is not 0.
pub const MAX_DIGITS: usize = 18;

/// The greatest magnitude of a written exponent.
pub const MAX_EXPONENT: u64 = 99;

/// The most digits of a whole number, zeros at the front too.
pub const MAX_WHOLE_DIGITS: usize = 9;

/// The seconds of a day. There are no leap seconds in TDB.
pub const DAY_SECONDS: u64 = 86_400;

/// The last Julian date that a text may name.
pub const LAST_JULIAN_DAY: u64 = 5_000_000;
