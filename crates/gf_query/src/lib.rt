//! What a query asks of an ephemeris: its span, its bodies, and the judge of its search.
//!
//! In come the words of a search, or a query, and the ephemeris that they are asked of; out come the span that is
//! searched, or the refusal if it is not one of the ephemeris, the event of the query, or the refusal if it has a
//! fault, the states of its bodies, and the judge of its search. Nothing here walks a tree.
#![tactic(auto)]

mod judges;
mod spans;

pub use body_states::BodyStates;
pub use event_judge::EventJudge;
pub use judges::{event_of, judge, states};
pub use spans::{root_of, span_asked, whole_span};
