// Tests of speed by a count that no clock changes: how many nodes of a search are judged. Spans of times that are known to
// be still are not cut, so a body that does not seek them, or has no rows of polynomials to seek them by, judges more.
use crate::calls::call_program;
use eph_gen::generate;
use gf_edges::{Gate, MemoryShelf};
use gf_find::REPORTED;
use std::alloc::{AllocError, Global};
use std::sync::Wait;
use std::sync::atomic::{AtomicU64, Ordering};
use std::test::Fail;
use std::thread::Threads;

// How many blocks of 32 days the searched text has.
const BLOCKS: u32 = 4;

// The room of a report, in bytes.
const ROOM: usize = 1_048_576;

// A gate that counts the passes of all workers. Each passes it before each node that it judges.
#[derive(Drop)]
struct Counting {
    passes: AtomicU64,
}

impl Gate for Counting {
    // Counts the pass of a worker.
    fn pass(&self, _worker: u32) {
        self.passes.fetch_add(1, Ordering::SeqCst);
    }
}

// Makes a shelf in memory with one file, named `a`, of a generated text. The only error is out of memory.
fn generated_shelf(alloc: Global) -> Result<MemoryShelf, AllocError> {
    let mut files = Vec::with_capacity(alloc, 1)?;
    files.push((String::from_str(alloc, "a")?, generate(alloc, BLOCKS, 7)?))?;
    Ok(MemoryShelf::new(files, 1_048_576, Vec::new(alloc)))
}

// Returns how many nodes the program judges in a search by the words of a line over the file `a`. If it does not report
// its windows, this is the greatest number there is. The only error is out of memory.
fn judged_nodes<R: Threads + Wait + Sync>(
    rt: &R,
    alloc: Global,
    line: &str,
) -> Result<u64, AllocError> {
    let gate = Counting {
        passes: AtomicU64::new(0),
    };
    let mut shelf = generated_shelf(alloc)?;
    let answer = call_program(rt, alloc, line, &mut shelf, ROOM, &gate)?;
    if answer.status == REPORTED {
        Ok(gate.passes.load(Ordering::SeqCst))
    } else {
        Ok(u64::MAX)
    }
}

// Searches over the file `a`, and the most nodes that each may judge. It judges a few fewer; without still spans it judges
// 390, 484, 216, 772, 170 and 644, and without the rows of velocities no fewer in all but the third and the fifth.
const SEARCHES: [(&str, u64); 6] = [
    (
        "set --kind apsis --target mars --observer earth --relation less a",
        350,
    ),
    (
        "set --kind station --target mercury --observer earth --relation less a",
        440,
    ),
    (
        "set --kind sep --target venus --second mars --observer earth --ref 0.5 --relation less a",
        150,
    ),
    (
        "set --kind sepext --target venus --second mars --observer earth --relation less a",
        620,
    ),
    (
        "find --kind any --target moon --second sun --observer earth --radius1 1737 --radius2 696000 a",
        150,
    ),
    (
        "find --kind station --target mercury --observer earth --tick 1000 a",
        610,
    ),
];

// Shows that no search judges more nodes than its row of `SEARCHES` allows.
#[test]
fn few_nodes_are_judged(rt: HostRuntime) -> Result<(), Fail> {
    for (line, most) in &SEARCHES {
        let judged = judged_nodes(&rt, rt.alloc(), line)?;
        assert!(rt; judged <= *most, "{line}: {judged}");
    }
    Ok(())
}
