// The states of a reader of a header, with what each has read.
use spec_ephemeris::{Column, MAX_COLUMNS};
use spec_files::{BlockShape, Facts};
use spec_text::Fault;

/// What a reader waits for, and what it keeps. A place of `EMRAT` is counted from 0. Of rows and columns the first `count`
/// are kept, as many as the first line of columns has words.
#[derive(Clone, Copy)]
pub enum State {
    /// The first line.
    First,
    /// `GROUP 1010`.
    TitleGroup {
        ncoeff: u32,
    },
    /// Titles, or `GROUP 1030`.
    Titles {
        ncoeff: u32,
    },
    /// The Julian dates and the days of a block.
    Span {
        ncoeff: u32,
    },
    /// `GROUP 1040`.
    NameGroup {
        shape: BlockShape,
    },
    /// The count of names.
    NameCount {
        shape: BlockShape,
    },
    /// Names, of which some are passed and some are left.
    Names {
        shape: BlockShape,
        count: u32,
        left: u32,
        passed: u32,
        emrat: Option<u32>,
    },
    /// `GROUP 1041`.
    ValueGroup {
        shape: BlockShape,
        count: u32,
        emrat: Option<u32>,
    },
    /// The count of values.
    ValueCount {
        shape: BlockShape,
        count: u32,
        emrat: Option<u32>,
    },
    /// Values, of which `before` stand before that of `EMRAT`.
    ValuesBefore {
        shape: BlockShape,
        left: u32,
        before: u32,
    },
    /// Values after that of `EMRAT`.
    ValuesAfter {
        facts: Facts,
        left: u32,
    },
    /// `GROUP 1050`.
    ColumnGroup {
        facts: Facts,
    },
    /// The starts of the columns.
    Starts {
        facts: Facts,
    },
    /// The coefficients of the columns.
    Coefficients {
        facts: Facts,
        count: usize,
        starts: [u32; MAX_COLUMNS],
    },
    /// The granules of the columns.
    Granules {
        facts: Facts,
        count: usize,
        starts: [u32; MAX_COLUMNS],
        coefs: [u32; MAX_COLUMNS],
    },
    /// `GROUP 1070`.
    EndGroup {
        facts: Facts,
        count: usize,
        columns: [Column; MAX_COLUMNS],
    },
    /// Nothing: the header is whole.
    Whole {
        facts: Facts,
        count: usize,
        columns: [Column; MAX_COLUMNS],
    },
    /// Nothing: the first fault was met.
    Refused(Fault),
}
