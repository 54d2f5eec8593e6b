// What is asked of a memory, while the nodes of a search are judged.
ghost use Rattle.std.specs.Prelude.{◌≡◌, ⊤, false};
ghost use Rattle.spec_searches.specs.Search.{Search, crosses};
ghost use Rattle.spec_bounds.specs.Steady.{sign_at};
ghost use Rattle.event_judge.specs.Found.{whole_enclosure};

use crate::search_time::SearchTime;
use crate::valid_node::ValidNode;
use gf_hooks::Verdict;
use ival_core::{Enclosure, Sign};

/// A memory by which a search's nodes are judged: it knows signs at times, and is told what is found of nodes.
pub(crate) trait SearchMemory {
    /// The searches of which it may be the memory.
    ghost knows: { Search → Type 0 };

    /// Returns the sign of the search's function at a time: as it is remembered, or made anew.
    fn sign_at(&self, time: SearchTime) -> Sign
        requires { knows time.search.now }
        ensures { result ≡ sign_at time.entry.search.now time.entry.time };

    /// Keeps what may help with later nodes: the enclosure over a node with no border in it, and its verdict.
    fn keep_verdict(&self, node: ValidNode, over: &Enclosure, verdict: Verdict)
        requires knows { knows node.search.now }
        requires uncrossed { crosses node.search.now node.node ≡ false }
        requires over { over.now ≡ whole_enclosure node.search.now node.node };
}

/// The memory of a judge that remembers nothing.
#[derive(Clone, Copy)]
pub(crate) struct NoMemory {}

impl SearchMemory for NoMemory {
    ghost knows = { λ s. ⊤ };

    // Returns the sign at the time, made anew.
    fn sign_at(&self, time: SearchTime) -> Sign {
        time.sign()
    }

    // Keeps nothing.
    fn keep_verdict(&self, _node: ValidNode, _over: &Enclosure, _verdict: Verdict) {}
}
