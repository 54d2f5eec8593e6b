//! The search of an ephemeris: a query, a span of the ephemeris and a crew of workers come in, and the leaves of
//! the query's tree over the span go out in order of time, or why there are none. The workers walk the tree at
//! once, each through a gate. Spans that are known to be still are found first: they tell the verdicts of nodes, and if
//! only the windows of the leaves are wanted, or the signs that they show, nodes in them are not cut.
//!
//! - Threads stand at the edge alone. What walks a tree is a closure: of the workers (`by_crew`), or of the calling thread
//!   (`alone`). What decides which trees are walked (`by_stills`) takes either, and waits for nothing. So each search has a
//!   call without threads: `leaves_alone`, `related_alone`, `search_scalar_alone`.
//! - A polynomial that is asked for (`scalar_search`) is searched the same way, without a file.
//! - A query, a relation, and the second reference where the relation has two (`relations`): out come the set of
//!   the times that are sure to have the relation and the set of those that may have it. Each reference means a
//!   search, whose leaves give the times at which the function is at least the reference.
//!
//! Which words ask for a search, and how leaves and sets are printed, is not known here.
#![tactic(auto)]

mod alone;
mod book;
mod by_crew;
mod by_stills;
mod coarse;
mod combined;
mod counts;
mod crew;
mod eager;
mod events;
mod found;
mod reached;
mod references;
mod relations;
mod scalar_search;
mod search;
mod signs;
mod span_task;
mod still_signs;
mod telling;
mod tree;
mod wanted;
mod whole;

pub use crew::Crew;
pub use relations::{related, related_alone};
pub use scalar_search::{search_scalar, search_scalar_alone};
pub use search::{leaves, leaves_alone};
pub use wanted::Wanted;
