// What the words of a command line ask for.

use crate::text::{FileNames, Text};
use spec_kinds::Ask;
use spec_scalars::Plan;
use spec_text::Decimal;
use spec_trees::CutRule;
use thiserror::Error;

/// A search: the event, the span and how it is searched, and the files that it reads.
#[derive(Drop)]
pub struct FindAsk {
    /// The kind of event, its bodies, frame and numbers.
    pub ask: Ask,
    /// The numbers of the event as a report prints them: the words of the command line, joined by a comma, or `-`.
    pub values: Text,
    /// How many ticks a second has, in which all times of the search are counted: 1 or 1,000.
    pub tick: u32,
    /// Where the span begins, in ticks since J2000 in TDB. None: where the files begin.
    pub from: Option<i64>,
    /// Where the span ends, in ticks since J2000 in TDB. None: where the files end.
    pub to: Option<i64>,
    /// The widest window of one event, in ticks: 1 to 1,000,000.
    pub width: i64,
    /// How often a node may be cut by the cut rule: 0 to 40.
    pub depth: u32,
    /// How many workers search: 1 to 64.
    pub workers: u32,
    /// Where a node is cut.
    pub cut: CutRule,
    /// The files in their order, at least one.
    pub files: FileNames,
}

/// A relation that a function has to one reference or two: the times at which it is below the reference, or at least
/// the reference; at least the first and below the second; below the first or at least the second.
#[derive(Clone, Copy, PartialEq, Eq)]
pub enum Relation {
    Less,
    AtLeast,
    Within,
    Outside,
}

/// A search for the times at which a quadratic polynomial p t^2 + q t + r passes 0, with whole factors and whole times.
#[derive(Drop)]
pub struct ScalarAsk {
    /// The factor of the square: at most 2^20 in magnitude.
    pub p: i64,
    /// The factor of the time: at most 2^20 in magnitude.
    pub q: i64,
    /// The summand: at most 2^62 in magnitude.
    pub r: i64,
    /// The three numbers as the words give them.
    pub text: Text,
    /// The time before the first that is searched.
    pub from: i64,
    /// The last time that is searched.
    pub to: i64,
    /// Which turns are wanted, and how the span is searched.
    pub plan: Plan,
    /// How many workers search: 1 to 64.
    pub workers: u32,
}

/// What a command line asks for.
#[derive(Drop)]
pub enum Request {
    /// The windows of an event.
    Find(FindAsk),
    /// The certificate of the windows of an event.
    Cert(FindAsk),
    /// The windows of an event, as a certificate shows them.
    Verify {
        /// The search that the certificate is of.
        find: FindAsk,
        /// The file that holds the certificate.
        cert: Text,
    },
    /// What the files hold.
    Check {
        /// The files in their order, at least one.
        files: FileNames,
    },
    /// A generated text, and what a search finds in it.
    Gen {
        /// The blocks of the text: 1 to 40.
        blocks: u32,
        /// The number from which the text is made.
        seed: u64,
        /// How many workers search: 1 to 64.
        workers: u32,
    },
    /// The times at which a function has a relation to its references.
    Set {
        /// The search for the turns about the first reference, which wants both.
        find: FindAsk,
        /// The second reference, of the relations that have two.
        ref2: Option<Decimal>,
        relation: Relation,
    },
    /// The times at which a polynomial passes 0.
    Scalar(ScalarAsk),
}

/// An option of a command, or a word of `gen`.
#[derive(Clone, Copy, Debug, PartialEq, Eq)]
pub enum Named {
    Kind,
    Target,
    Second,
    Observer,
    Frame,
    Axis,
    Ref,
    Radius1,
    Radius2,
    Relation,
    Ref2,
    Dir,
    Tick,
    From,
    To,
    Width,
    Depth,
    Workers,
    Cut,
    Cert,
    Layout,
    Blocks,
    Seed,
    Quad,
}

/// Why a command line is invalid.
#[derive(Clone, Copy, Debug, PartialEq, Eq, Error)]
pub enum WordFault {
    /// Fault 60: there is no word.
    #[error("there is no word")]
    NoCommand,
    /// Fault 61: the first word names no command.
    #[error("the first word is no command")]
    UnknownCommand,
    /// Fault 62: the words after it cannot be read as options and files.
    #[error("the words can't be read as options and files")]
    Words,
    /// Fault 63: the option is needed and not there, is not used and there, or its value is not of its form.
    #[error("an option is missing, not used or not of its form")]
    BadValue(Named),
    /// Out of memory.
    #[error("out of memory")]
    Memory,
}
