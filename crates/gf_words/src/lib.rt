//! The words of a command line, read. Words come in; out goes the request that they make, or the first fault that
//! they have: no command, an unknown one, words that cannot be read, an option that is bad.
#![tactic(auto)]

mod commands;
mod readings;
mod requests;
mod scalars;
mod searches;
mod sets;
mod texts;

pub use requests::request;
pub use spec_requests::{FindAsk, Named, Relation, Request, ScalarAsk, WordFault};
