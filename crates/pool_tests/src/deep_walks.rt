// Whole walks of trees that are as deep as their root is wide.
use crate::judges::{Comb, Thirds, root_node};
use halving::{Leaf, Mark, Node, RunError, run_one, run_shares};
use std::alloc::Global;
use std::test::*;
use std::thread::Threads;

// Shows that one walk over a tree of three leaves is refused at a limit of two leaves, and finds all three at a limit
// of three.
#[test]
fn one_walk_keeps_a_limit(rt: HostRuntime) -> Result<(), Fail> {
    let refused = run_one(rt.alloc(), &Comb, root_node(0, 3), 2);
    assert!(rt; refused == Err(RunError::TooMany));
    let Ok(leaves) = run_one(rt.alloc(), &Comb, root_node(0, 3), 3) else {
        assert!(rt; false);
        return Ok(());
    };
    assert!(rt; leaves.len() == 3);
    Ok(())
}

// Returns the depths of the first and the last of a list of leaves, or none if there is no leaf.
fn end_depths(leaves: &[Leaf]) -> Option<(u32, u32)> {
    let first = leaves.first()?;
    let last = leaves.last()?;
    Some((first.node.depth, last.node.depth))
}

// Shows that one walk over a tree of 20,000 leaves, the deepest at depth 19,999, finds them all, without a stack that
// overflows.
#[test]
fn a_deep_tree_is_walked_whole(rt: HostRuntime) -> Result<(), Fail> {
    let Ok(leaves) = run_one(rt.alloc(), &Comb, root_node(0, 20_000), 20_000) else {
        assert!(rt; false);
        return Ok(());
    };
    assert!(rt; leaves.len() == 20_000);
    assert!(rt; end_depths(leaves.as_slice()) == Some((19_999, 1)));
    Ok(())
}

// Returns the leaves that a walk over eight ticks has to find, which `Thirds` cuts at their first third until none is
// wider than two: they end at 2, 4, 5, 6 and 8.
fn expected_five_leaves(alloc: Global) -> Result<Vec<Leaf>, RunError> {
    let mut leaves = Vec::new(alloc);
    for (a, b, depth) in [(0, 2, 1), (2, 4, 2), (4, 5, 3), (5, 6, 4), (6, 8, 4)] {
        let leaf = Leaf {
            node: Node { a, b, depth },
            mark: Mark::Clear,
        };
        let Ok(()) = leaves.push(leaf) else {
            return Err(RunError::Memory);
        };
    }
    Ok(leaves)
}

// Tells whether a walk over eight ticks by shares, with this many workers, finds the five expected leaves at a limit
// of five.
fn shares_find_five_leaves<R: Threads + Sync>(rt: &R, alloc: Global, workers: u32) -> bool {
    if workers < 1 || workers > 64 {
        return false;
    }
    let found = run_shares(rt, alloc, &Thirds, root_node(0, 8), workers, 5);
    found == expected_five_leaves(alloc)
}

// Shows that walks by shares with one, two, three and 64 workers find the same five leaves at a limit of five.
#[test]
fn any_number_of_workers_finds_five_leaves(rt: HostRuntime) {
    for workers in [1, 2, 3, 64] {
        assert!(rt; shares_find_five_leaves(&rt, rt.alloc(), workers));
    }
}

// Tells whether a walk over eight ticks by shares, with this many workers, is refused at a limit of four, since there
// are five leaves.
fn shares_refuse_a_fifth_leaf<R: Threads + Sync>(rt: &R, alloc: Global, workers: u32) -> bool {
    if workers < 1 || workers > 64 {
        return false;
    }
    match run_shares(rt, alloc, &Thirds, root_node(0, 8), workers, 4) {
        Err(RunError::TooMany) => true,
        _ => false,
    }
}

// Shows that walks by shares over five leaves are refused at a limit of four, with one, two, three and 64 workers.
#[test]
fn any_number_of_workers_keeps_a_limit(rt: HostRuntime) {
    for workers in [1, 2, 3, 64] {
        assert!(rt; shares_refuse_a_fifth_leaf(&rt, rt.alloc(), workers));
    }
}
