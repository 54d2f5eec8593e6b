//! The model of the pool, as definitions and as a program: workers without threads, whose steps are taken one by one.
//!
//! What comes in: a `Judge`, a root and a number of workers; then one `Step` after another, by whichever worker, in any
//! order. What goes out: each step is taken or refused, `Refused` exactly where its condition is false, and the leaves
//! that were entered so far, in order of arrival.
//!
//! - `specs/States` has the states and the steps, `specs/Tiling` and `specs/Accounted` what each run of steps keeps, and
//!   `laws.rt` the laws of all runs. `specs/Interleaved` has the acts of all workers in one order, given by their accounts
//!   and by what each deque gives, without a state of the model.
//! - `worker.rt` has what one worker holds (hand, deque, local stack) and what each step does to it; `pool.rt` picks the
//!   worker, and for a steal the two workers, and keeps the entered leaves.
//! - A pool's contracts see its judge, its root and its state. So a law of all runs holds for this pool by its clause on
//!   `step`.
//! - No command runs it. Each step changes the account of its worker by the definitions by which the calls of a seat of
//!   `steal_pool` change theirs (`Accounts` of `spec_pool`), and whatever workers do in that way, in one order in which each
//!   deque is first in, first out, is a run of this model (`every_interleaving_is_a_run`). No clause says that such an order
//!   is there, which takes an instant for each step of a deque: that is read.
//!
//! Not to be touched without need: the invariant of `Pool` (the nodes of all places, put in order, tile the root). From
//! it each step knows that the node in a hand is valid, so that the judge may be asked.
#![tactic(auto)]

mod examples;
mod laws;
mod pool;
mod step;
mod worker;

pub use examples::four_leaves_take_ten_steps;
pub use laws::{
    a_done_pool_has_entered_all_leaves, acts_on_different_deques_may_change_places,
    each_step_is_accounted_for, each_step_lowers_todo_by_one, every_interleaving_is_a_run,
    every_interleaving_keeps_the_laws, every_run_balances_accounts, every_run_is_an_interleaving,
    every_run_tiles_the_root, some_step_is_accepted,
};
pub use pool::Pool;
pub use step::Step;
pub use worker::StepError;
