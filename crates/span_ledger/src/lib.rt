//! The book in which leaves are entered, under a lock. Leaves of a root come in, in whatever order they are found and
//! by any number of threads, each by a seat; what goes out is a book with each of them once, in order of arrival. Each
//! seat knows which entries are its own, and all that it has seen stays.
#![tactic(auto)]

mod desk;
mod ends;
mod enter;
mod ledger;
mod register;

pub use desk::{LedgerSeat, SpanLedger};
pub use spec_pool::{CloseError, Entry, Memory};
pub use spec_trees::{Book, Booked};
