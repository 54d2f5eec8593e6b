// The statuses of a run.

/// What the words ask for was written whole.
pub const REPORTED: u8 = 0;

/// The command line is invalid.
pub const WORDS_REFUSED: u8 = 2;

/// The files have a first fault, or there are too many of them.
pub const FILES_REFUSED: u8 = 3;

/// A file could not be read.
pub const NOT_READ: u8 = 4;

/// What the words ask for could not be written whole.
pub const NOT_WRITTEN: u8 = 5;

/// The span that is asked for is not one of the files.
pub const SPAN_REFUSED: u8 = 6;

/// The event cannot be searched for in the files.
pub const EVENT_REFUSED: u8 = 7;

/// Out of memory.
pub const OUT_OF_MEMORY: u8 = 8;

/// The search has more leaves than it may have.
pub const TOO_MANY_LEAVES: u8 = 9;

/// The certificate breaks a rule.
pub const CERTIFICATE_REFUSED: u8 = 10;
