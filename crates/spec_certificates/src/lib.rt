//! What a certificate of a search is: its text, the rules of its lines, and what follows where none is broken. A text,
//! the line of a request and a root come in; the leaves that the text names go out, or the first line that breaks a
//! rule. The leaves of a text that breaks none follow one another over the root, each with the mark of its verdict,
//! whoever made the text. What is searched for is not known here: the rules of a tree come in with their verdicts.
#![tactic(auto)]

mod entry;
mod examples;
mod laws;
mod limits;

pub use entry::{CertFault, Entry};
pub use examples::{
    ends_that_miscount_or_come_early_are_refused, first_lines_of_other_requests_are_refused,
    lines_of_leaves_need_their_letters, texts_are_refused_at_their_first_bad_line,
    texts_with_the_right_marks_are_certificates, words_are_read_as_leaves_or_ends,
};
pub use laws::{certificates_are_short, certificates_are_true, written_certificates_are_accepted};
pub use limits::{MAX_CERT_LEAVES, MAX_COUNT_DIGITS, MAX_DEPTH_DIGITS, MAX_TIME_DIGITS};
