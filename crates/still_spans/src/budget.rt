// How many leaves of the search's tree still spans may stand for, and how many they do.
use event_judge::EventSearch;
use spec_stills::StillSpan;

/// The number of leaves that all times of an ephemeris share by their lengths: half of those that a search may have.
const SHARED_LEAVES: u64 = 1 << 24;

/// Returns how many leaves the times from `a` to `b` have as their share of 2^24 leaves, which the times of the
/// ephemeris share by their lengths in ticks.
pub(crate) fn leaf_share(search: &EventSearch, a: i64, b: i64) -> u64 {
    let ephemeris = search.ephemeris();
    let ticks = ephemeris.start().abs_diff(ephemeris.end()) / SHARED_LEAVES;
    a.abs_diff(b) / ticks.max(1)
}

/// The leaves for which the still spans found from a time on stand, at most.
#[derive(Clone, Copy)]
pub(crate) struct LeafBudget {
    from: i64,
    spent: u64,
}

impl LeafBudget {
    /// Makes the budget of still spans that are found from the time `from` on. None of it is spent.
    pub(crate) fn new(from: i64) -> LeafBudget {
        LeafBudget { from, spent: 0 }
    }

    /// Returns how many leaves more the spans up to the time `upto` may stand for: the share of the times up to then, less
    /// what is spent.
    pub(crate) fn leaves_to_spare(&self, search: &EventSearch, upto: i64) -> u64 {
        leaf_share(search, self.from, upto).saturating_sub(self.spent)
    }

    /// Spends the leaves for which a still span stands: its length in nodes of the greatest width that is clear.
    pub(crate) fn spend(&mut self, still: StillSpan) {
        let leaves = still.from.abs_diff(still.upto) / still.widest.max(1);
        self.spent = self.spent.saturating_add(leaves);
    }
}
