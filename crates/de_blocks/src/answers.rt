// What a reader answers.
use spec_files::ReadError;

/// Why a line is not read, or why there is no ephemeris: the first fault of the lines, or no memory for the numbers.
pub type BlockError = ReadError;
