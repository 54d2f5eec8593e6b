//! A pool of workers that run at once, split the nodes of a tree and enter its leaves into one book.
//!
//! What comes in: a `Judge` (what is a leaf, and where a node is cut), a root, a number of workers, the most leaves, and a
//! `Gate` that each worker passes before it judges. What goes out of `run`: the book of all leaves of the root, each once,
//! or why there is none. The other calls are its parts, in order: `make` (a seat for each worker), `PoolSeat::work` for each
//! seat, the first in the calling thread and each other in one of its own, `finish` (what is left on the deques, and the
//! ledger's seats back).
//!
//! - A worker has a node in its hand, a local stack that it alone sees, and a deque. It pushes the right parts of what it
//!   splits on its deque while there are at most 64 in a row, and takes from its stack, its deque, then other deques. A deque
//!   that took 64 in a row and was stolen empty it pops first, so that it takes nodes again.
//! - A deque is first in, first out: what its owner put on it is, in order, what was taken and what it holds.
//! - A worker's end of another's deque is a `Stealer`. `make` hands them out and `finish` joins them into the deque's
//!   owner; that each belongs to the deque that it names is the fact `AreLinked` of all seats together.
//! - What is proved of running threads is a balance, and that a worker's work is a list of acts: what it took and had is
//!   what it put, has and entered. `pool_runs`, above, makes a run of the model of the pool of them.
//! - A `take` makes at most 10,000 steal attempts. A seat counts its rounds, the nodes that it splits or enters: at the end
//!   those of all seats are twice the root's leaves less one. The first seat keeps room for what `finish` hands back.
//!
//! Not to be touched without need: the rule of a deque (`view.rt`, `specs/Rule`), of which each step owes that it keeps
//! it, whatever the other threads do meanwhile, and `Naming`, by which that rule, a type, speaks of the judge's nodes.
#![tactic(auto)]

mod adding;
mod finishing;
mod joining;
mod making;
mod running;
mod seat;
mod stealer;
mod view;
mod work;
mod worker;

pub use finishing::{FinishError, finish};
pub use making::make;
pub use running::run;
pub use seat::{PoolError, PoolSeat, Stop};
pub use stealer::Stealer;
pub use view::{DequeView, Naming};
pub use worker::Pushed;
