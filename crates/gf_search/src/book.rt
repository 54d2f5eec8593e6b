// The leaves of the book that workers fill.
ghost use Rattle.std.specs.Prelude.{◌≡◌, ◌≤◌, IfErr, IfOk};
ghost use Rattle.spec_trees.specs.Order.{CoverRoot, ordered_leaves};
ghost use Rattle.spec_trees.specs.Tree.{IsValid, leaf_count, leaves};
ghost use Rattle.gf_search.specs.Wanted.{StopsAt};

use crate::crew::Crew;
use gf_edges::Gate;
use halving::Judge;
use ordered_join::leaves;
use spec_outcomes::Refusal;
use spec_trees::{Book, Leaf, Node};
use std::alloc::Global;
use std::sync::Wait;
use std::thread::Threads;
use steal_pool::{PoolError, run};

// Returns the leaves of a book, which workers entered as they found them, in order of time. The only error is
// `Memory`.
fn ordered_leaves_of_book(alloc: Global, book: &Book) -> Result<Vec<Leaf>, Refusal>
    requires { CoverRoot book.now.root book.now.entries.items }
    ensures leaves { IfOk result (λ found. found.items ≡ ordered_leaves book.now.entries.items) }
    ensures memory { IfErr result (λ refusal. refusal ≡ Refusal.Memory) }
{
    let found = leaves(alloc, book)?;
    Ok(found)
}

/// Returns the leaves of a judge's tree at a root, in order of time, which the workers of a crew find. Each passes
/// the crew's gate before it judges a node. Errors: `TooManyLeaves` if there are more than the crew may find, or
/// `Memory`.
pub(crate) fn leaves_by_crew<R: Threads + Wait + Sync, J: Judge, G: Gate>(
    crew: &Crew<R, G>,
    judge: &J,
    root: Node,
) -> Result<Vec<Leaf>, Refusal>
    requires valid { IsValid (J.rules judge.now) root }
    ensures leaves { IfOk result (λ found. found.items ≡ leaves (J.rules judge.now) root) }
    ensures few { IfOk result (λ found. leaf_count (J.rules judge.now) root ≤ crew.now.max_leaves) }
    ensures stopped { IfErr result (λ refusal.
        StopsAt crew.now.max_leaves (leaf_count (J.rules judge.now) root) refusal) }
{
    match run(
        crew.runtime,
        crew.alloc,
        judge,
        root,
        crew.workers,
        crew.max_leaves,
        crew.gate,
    ) {
        Ok(book) => ordered_leaves_of_book(crew.alloc, &book),
        Err(PoolError::TooMany) => Err(Refusal::TooManyLeaves {
            most: crew.max_leaves,
        }),
        Err(PoolError::Memory) => Err(Refusal::Memory),
    }
}
