//! The program as a whole: words and the bytes of files come in, and a report, a summary or the line of a fault goes out,
//! with a status. Each command has a module of its own, and a record of `specs/` that says what it reports. What is public
//! is the call `finder` with its statuses, `run`, by which `main` makes it, and the types of which the contract speaks: why a
//! run is refused, and spans.
//!
//! Threads stand in `finder` alone. It makes three calls that search by the workers of a crew, and hands them to `text_by`.
//! A library without threads hands others to `text_by`, and reports a refusal by `line_of_refusal`.
#![tactic(auto)]

mod answer;
mod cert;
mod certificate_file;
mod check;
mod files;
mod find;
mod generated;
mod laws;
mod messages;
mod runs;
mod scalar;
mod searched;
mod set;
mod text_shelf;
mod top;
mod verify;
mod writing;

pub use answer::text_by;
pub use laws::{a_run_has_one_outcome, the_number_of_workers_changes_no_byte};
pub use messages::line_of_refusal;
pub use runs::run;
pub use spec_outcomes::{
    CERTIFICATE_REFUSED, EVENT_REFUSED, FILES_REFUSED, NOT_READ, NOT_WRITTEN, OUT_OF_MEMORY,
    REPORTED, Refusal, SPAN_REFUSED, Span, TOO_MANY_LEAVES, WORDS_REFUSED,
};
pub use top::finder;
