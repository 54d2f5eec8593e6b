//! The accounts of workers that share a tree and the book that they enter leaves in, as definitions: what a worker has to
//! account for and what each of its steps changes of it, when a piece of work balances, and the history of a ledger. Trees
//! come in from the crate below; the crates that hold the book, the running workers and the model of the pool cite what
//! stands here. States and steps of that model are no part of it: they stand in `pool_core`.
#![tactic(auto)]

mod laws;
mod ledger;
mod memory;

pub use laws::pieces_of_work_add_up;
pub use ledger::{CloseError, Entry, LedgerTerms, SeatHistory};
pub use memory::Memory;
