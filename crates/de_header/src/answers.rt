// What a reader of a header answers to a line, and at its end.
use spec_files::ReadError;

/// Whether a reader wants more lines.
#[derive(Clone, Copy, PartialEq, Eq)]
pub enum Step {
    /// The header goes on: the reader wants the next line.
    More,
    /// The header is whole: the reader wants no further line.
    Done,
}

/// Why there is no header: the first fault of the lines, or no memory for the columns.
pub type HeaderError = ReadError;
