//! Tests of what no clause says of walks, of workers and of books: that threads meet, that a deque which is full hands a node
//! back, that calls are made so often and no oftener, that a limit or a missing seat is reported, and that a book out of order
//! has the windows of its leaves in order.
//!
//! Nothing comes in and nothing goes out, and no crate stands on this one. The crates that are tested, from `halving` to
//! `ordered_join`, are thus proved once, as they have no tests of their own; here only the tests are.
//!
//! - `judges.rt` has the judges that the other files share; their rules, which are sound, are in `specs/Judges`.
//! - Each other file shows one crate at work, by its public calls alone: `deep_walks` (`halving`), `model_steps`
//!   (`pool_core`), `ledger_entries` (`span_ledger`), `pool_seats` and `pool_meetings` (`steal_pool`), `table_search`
//!   (`gf_uds`), `books` (`ordered_join`).
#![tactic(auto)]

#[cfg(test)]
mod books;
#[cfg(test)]
mod deep_walks;
#[cfg(test)]
mod judges;
#[cfg(test)]
mod ledger_entries;
#[cfg(test)]
mod model_steps;
#[cfg(test)]
mod pool_meetings;
#[cfg(test)]
mod pool_seats;
#[cfg(test)]
mod table_search;
