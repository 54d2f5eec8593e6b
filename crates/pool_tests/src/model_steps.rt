// Tests of the model of the pool: ten steps of two workers over a tree of four leaves, and what the opening state
// refuses.
use crate::judges::Crossing;
use halving::{Leaf, Node};
use pool_core::{Pool, Step, StepError};
use std::test::*;

// The root of the tests, of four leaves.
const ROOT: Node = Node {
    a: 1_339_000,
    b: 1_339_400,
    depth: 0,
};

// Tells whether the pool takes these steps, one after the other, and is done after the last of them but not before.
fn pool_ends_after(pool: &mut Pool<Crossing>, steps: &[Step]) -> bool {
    for step in steps {
        if pool.is_done() || pool.step(*step).is_err() {
            return false;
        }
    }
    pool.is_done()
}

// Tells whether the leaves are as many as these times, and start at them in this order.
fn leaves_start_at(leaves: &[Leaf], begins: &[i64]) -> bool {
    if leaves.len() != begins.len() {
        return false;
    }
    for (leaf, begin) in leaves.iter().zip(begins) {
        if leaf.node.a != *begin {
            return false;
        }
    }
    true
}

// Shows that ten steps of two workers end the work on a tree of four leaves, and that the leaves are entered in the
// order of the steps that enter them.
#[test]
fn ten_steps_enter_four_leaves(rt: HostRuntime) -> Result<(), Fail> {
    let mut pool = Pool::new(rt.alloc(), Crossing, ROOT, 2)?;
    let steps = [
        Step::Push { w: 0 },
        Step::Steal { w: 1, from: 0 },
        Step::Push { w: 0 },
        Step::Enter { w: 1 },
        Step::Enter { w: 0 },
        Step::Pop { w: 0 },
        Step::Push { w: 0 },
        Step::Enter { w: 0 },
        Step::Pop { w: 0 },
        Step::Enter { w: 0 },
    ];
    assert!(rt; pool_ends_after(&mut pool, steps.as_slice()));
    let begins = [1_339_200, 1_339_000, 1_339_100, 1_339_150];
    assert!(rt; leaves_start_at(pool.entered(), begins.as_slice()));
    Ok(())
}

// Tells whether the pool refuses the step since its condition is false, and not for want of memory.
fn pool_refuses(pool: &mut Pool<Crossing>, step: Step) -> bool {
    match pool.step(step) {
        Err(StepError::Refused) => true,
        _ => false,
    }
}

// Shows that a new pool, with the root in the hand of worker 0 and nothing elsewhere, refuses each step whose
// condition is false there, and takes a `Keep`.
#[test]
fn the_opening_state_refuses_steps(rt: HostRuntime) -> Result<(), Fail> {
    let mut pool = Pool::new(rt.alloc(), Crossing, ROOT, 2)?;
    for step in [
        Step::Pop { w: 0 },
        Step::TakeKept { w: 0 },
        Step::Enter { w: 0 },
        Step::Steal { w: 0, from: 0 },
        Step::Push { w: 2 },
    ] {
        assert!(rt; pool_refuses(&mut pool, step));
    }
    assert!(rt; pool.entered().is_empty());
    assert!(rt; pool.step(Step::Keep { w: 0 }).is_ok());
    assert!(rt; pool_refuses(&mut pool, Step::TakeKept { w: 0 }));
    assert!(rt; pool_refuses(&mut pool, Step::Pop { w: 1 }));
    assert!(rt; !pool.is_done());
    Ok(())
}
