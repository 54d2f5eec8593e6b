//! The running pool and its model, brought together.
//!
//! What comes in: the seats of a pool as they begin and as they are after their work (`RunHistory` of `steal_pool`), and a
//! list of their acts, in whatever one order of all. What comes out, as laws: if the acts of each seat are its work, and
//! each deque is first in, first out in that order, then the list is a run of the model of `pool_core`, step for step.
//!
//! - That there is such an order is read, and not proved: each step of a deque is at one instant, so all of them lie on one
//!   line of time. `docs/develop/decisions.md` says why no clause has it.
//! - No command stands on this crate.
#![tactic(auto)]

mod acts;

pub use acts::{runs_take_steps_of_the_model, seats_take_steps_of_the_model};
