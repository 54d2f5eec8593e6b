// Tests of searches of a scalar that is a table of numbers, and no polynomial.
ghost use Rattle.std.specs.Prelude.{◌≡◌, ◌<◌, ◌≤ℤ◌, pos, slice_index};
ghost use Rattle.pool_tests.specs.Laws.{heights, tide, tides, tides_keep_reach};

use crate::judges::root_node;
use gf_edges::OpenGate;
use gf_hooks::CutRule;
use gf_uds::{Law, Reach, Scalar, ScalarJudge, Want, find_scalar, scalar_leaves};
use halving::{Mark, Turn};
use spec_trees::{Book, Leaf};
use std::alloc::Global;
use std::sync::Wait;
use std::test::*;
use std::thread::Threads;

// The heights of the water at the times 0 to 12.
const HEIGHTS: [u8; 13] = [10, 8, 6, 3, 1, 3, 5, 7, 6, 4, 4, 7, 9];

// Returns the height of the water at a place of the table, 0 to 12.
fn water_height(i: usize) -> u8
    requires { i < 13 }
    ensures { result ≡ slice_index heights i }
{
    HEIGHTS[i]
}

// Returns the height of the water at a time, 0 to 12, less the mark of 5: at least 0 if the water reaches the mark.
fn height_above_mark(t: i64) -> i128
    requires from { pos 0 ≤ℤ t }
    requires to { t ≤ℤ pos 12 }
    ensures { result ≡ tide t }
{
    i128::from(water_height(t.unsigned_abs() as usize)) - 5
}

// A law of the tides, which change by at most 3 from one time to the next.
#[derive(Drop)]
struct Tides;

impl Law for Tides {
    ghost scalar = { λ _. tides };

    // Returns bounds of the tides and of their steps over a span. They are those of the whole table, or the exact value
    // at a single time.
    fn reach(&self, a: i64, b: i64) -> Reach {
        if a < b {
            Reach {
                lo: -5,
                hi: 5,
                step_lo: -3,
                step_hi: 3,
            }
        } else {
            Reach {
                lo: height_above_mark(a),
                hi: height_above_mark(a),
                step_lo: 0,
                step_hi: 0,
            }
        }
    }

    ghost keeps = { λ _. tides_keep_reach };
}

// Makes the judge of a search for each time from 0 to 12 at which the water passes the mark, in either direction, down
// to nodes of one time.
fn tides_judge() -> ScalarJudge<Tides>
    ensures first { result.scalar.first ≡ pos 0 }
    ensures last { result.scalar.last ≡ pos 12 }
{
    let scalar = Scalar::new(Tides, 0, 12);
    ScalarJudge::new(scalar, Want::Any, 1, 40, CutRule::Half)
}

// Returns the mark that the leaf whose last time is `t` has to have. The water falls below the mark at times 3 and 9,
// and reaches it again at 6 and 11; all other leaves are clear.
fn expected_mark_at(t: i64) -> Mark {
    match t {
        3 | 9 => Mark::One(Turn::Fall),
        6 | 11 => Mark::One(Turn::Rise),
        _ => Mark::Clear,
    }
}

// Returns the number of leaves with a turn, or none if a leaf has another mark than is expected at its last time.
fn turn_count_of_leaves(leaves: &[Leaf]) -> Option<u32> {
    let mut turns = 0u32;
    for leaf in leaves {
        if leaf.mark != expected_mark_at(leaf.node.b) {
            return None;
        }
        if leaf.mark != Mark::Clear {
            turns = turns.saturating_add(1);
        }
    }
    Some(turns)
}

// Returns the number of leaves with a turn in a book, or none if a leaf has another mark than is expected at its last
// time.
fn turn_count_of_book(book: &Book) -> Option<u32> {
    let mut turns = 0u32;
    for entry in &book.entries {
        if entry.leaf.mark != expected_mark_at(entry.leaf.node.b) {
            return None;
        }
        if entry.leaf.mark != Mark::Clear {
            turns = turns.saturating_add(1);
        }
    }
    Some(turns)
}

// Returns the number of leaves with a turn that this many workers find. None if the search fails or a leaf has another
// mark than is expected.
fn turn_count_by_workers<R: Threads + Wait + Sync>(
    rt: &R,
    alloc: Global,
    workers: u32,
) -> Option<u32> {
    if workers < 1 || workers > 64 {
        return None;
    }
    match find_scalar(
        rt,
        alloc,
        &tides_judge(),
        root_node(0, 12),
        workers,
        13,
        &OpenGate,
    ) {
        Ok(book) => turn_count_of_book(&book),
        Err(_) => None,
    }
}

// Shows that one, two and eight workers each find the four times at which the water passes the mark: 3, 6, 9 and 11.
#[test]
fn workers_find_each_passing_of_a_table(rt: HostRuntime) {
    for workers in [1, 2, 8] {
        assert!(rt; turn_count_by_workers(&rt, rt.alloc(), workers) == Some(4));
    }
}

// Shows that one walk finds the four times at which the water passes the mark: 3, 6, 9 and 11.
#[test]
fn one_walk_finds_each_passing_of_a_table(rt: HostRuntime) -> Result<(), Fail> {
    let judge = tides_judge();
    let Ok(leaves) = scalar_leaves(rt.alloc(), &judge, root_node(0, 12), 13) else {
        assert!(rt; false);
        return Ok(());
    };
    assert!(rt; turn_count_of_leaves(leaves.as_slice()) == Some(4));
    Ok(())
}
