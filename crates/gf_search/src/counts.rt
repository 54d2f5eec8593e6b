// The most leaves of the tree of a search that lie below leaves of a coarser tree: what these weigh, or what is
// counted.
ghost use Rattle.std.specs.Prelude.{◌≡◌, ◌≤◌, All, IfSome, IsTrue};
ghost use Rattle.spec_trees.specs.Tree.{leaf_count};
ghost use Rattle.spec_searches.specs.Found.{rules};
ghost use Rattle.spec_stills.specs.Settled.{leaves_below};
ghost use Rattle.spec_stills.specs.Weights.{IsWeighed};

use event_judge::{EventSearch, Judge};
use halving::count_one;
use spec_trees::Leaf;
use still_judge::StillList;

// Returns a number which the leaves of the search's tree below one leaf do not exceed: the leaf's weight, or, if that
// is above `light`, the count that a judge's walk gives. None is returned if the number is above `limit`.
fn leaf_count_below<J: Judge>(
    judge: &J,
    search: &EventSearch,
    stills: &StillList,
    leaf: Leaf,
    light: u64,
    limit: u64,
) -> Option<u64>
    requires rules { J.rules judge.now ≡ rules search.now }
    requires weighed { IsWeighed search.now stills.now leaf }
    ensures enough { IfSome result (λ count. leaf_count (rules search.now) leaf.node ≤ count) }
    ensures few { IfSome result (λ count. count ≤ limit) }
{
    let weight = stills.weight(search, leaf);
    if light < weight {
        count_one(judge, leaf.node, limit)
    } else if weight <= limit {
        Some(weight)
    } else {
        None
    }
}

// Tells whether no more than `most` leaves of the search's tree are known to lie below some leaves. Below a leaf that
// weighs more than `light` they are counted; any other stands for as many as it weighs.
fn are_few_with_heavy_counted<J: Judge>(
    judge: &J,
    search: &EventSearch,
    stills: &StillList,
    leaves: &[Leaf],
    light: u64,
    most: u32,
) -> bool
    requires rules { J.rules judge.now ≡ rules search.now }
    requires weighed { All (IsWeighed search.now stills.now) leaves.now }
    ensures { IsTrue result → leaves_below search.now leaves.now ≤ most }
{
    let mut rest = u64::from(most);
    for leaf in leaves.iter() {
        match leaf_count_below(judge, search, stills, *leaf, light, rest) {
            Some(count) => rest -= count,
            None => return false,
        }
    }
    true
}

/// Tells whether no more than `most` leaves of the tree of a search are known to lie below leaves of a coarser tree.
/// Their weights are added first. If the sum is above `most`, but at most twice that, leaves below the heavy ones are
/// counted: below those that weigh more than a fair share of half of `most`.
pub(crate) fn are_few_leaves_below<J: Judge>(
    judge: &J,
    search: &EventSearch,
    stills: &StillList,
    leaves: &[Leaf],
    most: u32,
) -> bool
    requires rules { J.rules judge.now ≡ rules search.now }
    requires weighed { All (IsWeighed search.now stills.now) leaves.now }
    ensures { IsTrue result → leaves_below search.now leaves.now ≤ most }
{
    if are_few_with_heavy_counted(judge, search, stills, leaves, u64::MAX, most) {
        return true;
    }
    if !are_few_with_heavy_counted(
        judge,
        search,
        stills,
        leaves,
        u64::MAX,
        most.saturating_mul(2),
    ) {
        return false;
    }
    let share = u64::from(most / 2) / (leaves.len() as u64 + 1);
    are_few_with_heavy_counted(judge, search, stills, leaves, share, most)
}
