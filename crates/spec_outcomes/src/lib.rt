//! What a run over an ephemeris comes to: the definitions that contracts cite. A query, which is what the words of a
//! search ask of an ephemeris, a span and an ephemeris come in; the leaves of the search go out, the text that they
//! make, or the cause why there is none, with its status and its line. Nothing here is searched, and no word or file is
//! known.
#![tactic(auto)]

mod examples;
mod laws;
mod query;
mod refusal;
mod scalar_examples;
mod set_examples;
mod set_laws;
mod statuses;
mod tick_laws;

pub use examples::{
    spans_are_refused_before_events, statuses_of_causes_are_from_2_to_10,
    statuses_of_texts_are_0_and_5,
};
pub use laws::{
    nodes_may_be_cut_further, polynomials_pass_0_in_their_windows,
    refusals_have_statuses_of_their_own, searches_find_the_events,
};
pub use query::{Query, Span, conjunctions, query_of};
pub use refusal::Refusal;
pub use scalar_examples::{
    spans_without_times_are_refused, t_squared_less_100_passes_0_at_minus_9_and_10,
};
pub use set_examples::{
    relations_compare_with_one_reference_or_two, the_second_reference_may_decide_open_times,
};
pub use set_laws::{
    sets_are_refused_for_their_first_cause, sets_meet_their_relation,
    words_of_sets_ask_for_queries_with_sets,
};
pub use statuses::{
    CERTIFICATE_REFUSED, EVENT_REFUSED, FILES_REFUSED, NOT_READ, NOT_WRITTEN, OUT_OF_MEMORY,
    REPORTED, SPAN_REFUSED, TOO_MANY_LEAVES, WORDS_REFUSED,
};
pub use tick_laws::{searches_count_ticks, spans_are_compared_in_ticks};
