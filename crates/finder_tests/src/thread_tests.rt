// Tests of threads: each command that searches does so on as many as its words ask for.
use crate::calls::call_program;
use crate::inputs::{BLOCK, HEADER, NotingShelf};
use gf_edges::Gate;
use gf_find::REPORTED;
use std::alloc::{AllocError, Global};
use std::sync::Wait;
use std::sync::atomic::{AtomicU64, Ordering};
use std::test::Fail;
use std::thread::Threads;

// The most looks of a worker that is held whether another has come. After them it gives up, so that a test ends.
const TURNS: u64 = 200_000_000;

// A gate that holds worker 0 at its second pass until another worker has come. It holds each other at its first pass
// until worker 0 has come to its second. The first right part lies on the deque of worker 0 before the threads start,
// and worker 0 takes nothing while it is held, so another finds that node.
#[derive(Drop)]
struct Meeting {
    first: AtomicU64,
    others: AtomicU64,
    given_up: AtomicU64,
}

// Waits until a count of passes reaches `least`. After `TURNS` looks at it this gives up, and sets `given_up` to 1.
fn wait_for_passes(passes: &AtomicU64, least: u64, given_up: &AtomicU64) {
    for _ in 0..TURNS {
        if passes.load(Ordering::SeqCst) >= least {
            return;
        }
    }
    given_up.store(1, Ordering::SeqCst);
}

impl Gate for Meeting {
    // Counts the pass of a worker. It holds worker 0 at its second pass until another worker has come, and each other
    // worker until worker 0 has come to its second pass.
    fn pass(&self, worker: u32) {
        if worker == 0 {
            if self.first.fetch_add(1, Ordering::SeqCst) == 1 {
                wait_for_passes(&self.others, 1, &self.given_up);
            }
        } else {
            self.others.fetch_add(1, Ordering::SeqCst);
            wait_for_passes(&self.first, 2, &self.given_up);
        }
    }
}

// Runs the program with the words of a line over two small files. Tells whether two workers met at the gate and none
// waited in vain. The only error is out of memory.
fn workers_have_met<R: Threads + Wait + Sync>(
    rt: &R,
    alloc: Global,
    line: &str,
) -> Result<bool, AllocError> {
    let gate = Meeting {
        first: AtomicU64::new(0),
        others: AtomicU64::new(0),
        given_up: AtomicU64::new(0),
    };
    let mut shelf = NotingShelf::new(alloc, [HEADER, BLOCK, ""], 0)?;
    let answer = call_program(rt, alloc, line, &mut shelf, 4096, &gate)?;
    let have_come = gate.others.load(Ordering::SeqCst) > 0;
    let have_met = gate.given_up.load(Ordering::SeqCst) == 0;
    Ok(answer.status == REPORTED && have_come && have_met)
}

// The words of each command that searches, over the files `a`, a header, and `b`, a block.
const SEARCHES: [&str; 6] = [
    "find --kind coord --target mercury --axis x --workers 2 a b",
    "cert --kind coord --target mercury --axis x --workers 2 a b",
    "set --kind coord --target mercury --axis x --relation less --workers 2 a b",
    "scalar --quad 1,0,-4 --from 0 --to 9 --workers 2",
    "gen 405 1 1 --workers 2",
    "gen 405 1 1 --workers 3",
];

// Shows that two workers of each command that searches are at work at the same time, for the words of `SEARCHES`.
#[test]
fn workers_of_each_search_meet(rt: HostRuntime) -> Result<(), Fail> {
    for line in &SEARCHES {
        assert!(rt; workers_have_met(&rt, rt.alloc(), line)?, "{line}");
    }
    Ok(())
}
