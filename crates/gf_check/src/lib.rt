//! What checks a certificate over an ephemeris: the text of a certificate comes in, with the words of the search that it is
//! of, their span and the judge of their query; out go the bytes that `verify` prints, which are the report of the
//! certificate's windows and how many leaves it has, or the first line that breaks a rule.
//!
//! Whoever made the text is not trusted, and nothing below this crate walks a tree: no pool, no ledger.
#![tactic(auto)]

mod checks;
mod laws;

pub use checks::{request_line_over, verify_certificate};
pub use gf_query::EventJudge;
pub use laws::what_is_certified_is_verified;
