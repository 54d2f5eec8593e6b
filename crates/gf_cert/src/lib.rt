//! Certificates of searches: a text that names the leaves of a search's tree, each with its mark, so that the windows
//! can be checked without searching again.
//!
//! Leaves come in, with the line of a request, and the text goes out (`certificate`). A text comes in, with the
//! line of a request, the judge of a search and a root; out come the leaves that the text names, or the first line that
//! breaks a rule (`check_cert`). Whoever made the text is not trusted: each leaf is judged again, and has to stand
//! where cutting the nodes that wait leads. No other node is judged, and nothing here walks a tree. After the first
//! leaves still spans of the search are found, which decide most of the others (`by_stills`). What a certificate is, and
//! which lines break its rules, is said in `spec_certificates`.
#![tactic(auto)]

mod by_stills;
mod checking;
mod errors;
mod laws;
mod leaves;
mod lent_judge;
mod lines;
mod places;
mod stages;
mod words;
mod writing;

pub use checking::check_cert;
pub use errors::CertError;
pub use event_judge::{EventJudge, Node};
pub use laws::certificates_of_searches_are_accepted;
pub use spec_trees::Leaf;
pub use writing::certificate;
