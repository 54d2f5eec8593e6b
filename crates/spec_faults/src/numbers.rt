// The numbers under which faults are reported.

/// A line has more than 4,096 bytes.
pub const LINE_TOO_LONG: u8 = 4;

/// There are more than 64 files. The fault is that of the 65th, at line 0.
pub const TOO_MANY_FILES: u8 = 5;

/// A file has more than 268,435,456 bytes. The fault is at line 0.
pub const FILE_TOO_LARGE: u8 = 6;

/// The first line is not `KSIZE=`, any word, `NCOEFF=` and a whole number.
pub const FIRST_LINE: u8 = 10;

/// Another line stands where `GROUP` and a number must stand. The detail is the number of the group.
pub const GROUP_MISSING: u8 = 11;

/// A Julian date, or the days of a block, are no whole number of seconds.
pub const JD_NOT_WHOLE_SECOND: u8 = 12;

/// There are not as many values as names.
pub const COUNT_MISMATCH: u8 = 13;

/// No name is `EMRAT`.
pub const EMRAT_MISSING: u8 = 14;

/// The value of `EMRAT` is not from 1 to 1,000.
pub const EMRAT_RANGE: u8 = 15;

/// A line has not one word for each column.
pub const COLUMN_COUNT: u8 = 16;

/// A place of a column lies outside the block, is one of the two of its dates, or belongs to an earlier column.
pub const COLUMN_PLACE: u8 = 17;

/// A column has more than 32 coefficients.
pub const COEFFICIENT_COUNT: u8 = 18;

/// A granule of a column is not a whole number of seconds.
pub const GRANULE_NOT_WHOLE: u8 = 19;

/// A number of the header is out of bounds.
pub const LIMIT: u8 = 20;

/// A word of the header is no number. The detail is the number of a `NumberFault`.
pub const HEADER_NUMBER: u8 = 21;

/// The text ends before `GROUP 1070`.
pub const ENDED: u8 = 22;

/// A block does not begin with two whole numbers.
pub const RECORD_LINE: u8 = 30;

/// The second number of a record line is not that of the header.
pub const NCOEFF_DIFFERS: u8 = 31;

/// A Julian date of a block is no time from day 0 to day 5,000,000, or the block has not the header's length.
pub const BLOCK_SPAN: u8 = 32;

/// A block does not begin where the last one ended.
pub const BLOCK_GAP: u8 = 33;

/// A word of a block is no number. The detail is the number of a `NumberFault`.
pub const NUMBER: u8 = 34;

/// A coefficient of a body is 2^36 km or more in size.
pub const TOO_LARGE: u8 = 35;

/// The text ends within a block.
pub const TRUNCATED: u8 = 36;

/// The text ends before the first block.
pub const NO_BLOCK: u8 = 37;

/// There are more blocks than an ephemeris has.
pub const TOO_MANY_BLOCKS: u8 = 38;

/// After the last number of a block stands a word that is not zero.
pub const TRAILING_NUMBERS: u8 = 39;

/// A column that the event needs is not there.
pub const BODY_ABSENT: u8 = 50;

/// Two of the target, the second body and the observer are one body.
pub const SAME_BODY: u8 = 51;

/// A reference value or a radius is out of its range.
pub const REFERENCE_RANGE: u8 = 52;

/// There is no word.
pub const NO_COMMAND: u8 = 60;

/// The first word is no command.
pub const UNKNOWN_COMMAND: u8 = 61;

/// The words after the command are not of its form.
pub const WORDS: u8 = 62;

/// A value is missing, is not used here, or is not of its form. The name of its option is printed after the fault's.
pub const BAD_VALUE: u8 = 63;

/// The first line of a certificate is not `CERT 1`, a line after the second names no leaf and no end, or a line has
/// more than 4,096 bytes.
pub const CERT_LINE: u8 = 70;

/// The second line of a certificate has not the words of the request's line.
pub const CERT_REQUEST: u8 = 71;

/// The next node that waits cannot be cut to that of the leaf.
pub const CERT_PLACE: u8 = 72;

/// The mark of a leaf is not that of its verdict.
pub const CERT_MARK: u8 = 73;

/// A leaf stands after the last node is done; an end stands before that, or names another number of leaves; a line
/// stands after the end; or the end is missing, which is reported at the number of lines plus 1.
pub const CERT_END: u8 = 74;
