// The pool of all workers, which takes one step at a time.
ghost use Rattle.std.specs.Prelude.{◌≡◌, ◌≤◌, List, [], ◌∷◌, ◌++◌, IsTrue, ◌↔◌, OnOk, OnErr, IfOk};
ghost use Rattle.spec_trees.specs.Tree.{IsValid};
ghost use Rattle.pool_core.specs.States.{Holding, Steals, opening};
ghost use Rattle.pool_core.specs.Tiling.{IsDone};
ghost use Rattle.pool_core.specs.declared.step.Step.TheVariants.{Steal, Enter};
ghost use Rattle.pool_core.specs.Views.{IsRefusal, Takes, own_step, seen};
ghost use Rattle.pool_core.specs.declared.worker.StepError.TheVariants.{Refused, Memory};

use crate::step::Step;
use crate::worker::{OwnStep, StepError, Worker};
use halving::{Judge, Leaf, Node, rules_are_sound};
use spec_pool::Memory;
use std::alloc::Global;
use std::marker::Model;

/// A pool of workers that share the nodes of a root. Contracts see the rules of its judge, its root and its state.
#[derive(Drop)]
pub struct Pool<J: Judge> {
    judge: J,
    root: Node,
    workers: Vec<Worker>,
    entered: Vec<Leaf>,
}

impl<J: Judge> Model for Pool<J> {
    ghost use Rattle.pool_core.specs.States.{state};
    ghost use Rattle.pool_core.specs.Tiling.{Conserves};
    ghost use Rattle.pool_core.specs.Views.{Seen, seen};

    ghost Value = { Seen J };

    ghost view = { λ p. seen p.judge p.root (state p.workers.items p.entered.items) };

    ghost invariant = { λ p.
        Conserves (J.rules p.judge) p.root (state p.workers.items p.entered.items) };
}

// Makes the given number of workers of a new pool: the first has the root in its hand, the others hold nothing. The
// only error is out of memory.
fn opening_workers(alloc: Global, root: Node, workers: u32) -> Result<Vec<Worker>, Memory>
    requires { 1 ≤ workers }
    ensures { IfOk result (λ made. made.items ≡ (opening root workers).workers) }
{
    let mut made = Vec::new(alloc);
    add_worker(&mut made, Worker::new(alloc, Some(root)))?;
    for _ in 1..workers {
        add_worker(&mut made, Worker::new(alloc, None))?;
    }
    Ok(made)
}

impl<J: Judge + Drop> Pool<J> {
    /// Makes a pool of 1 to 64 workers that has entered no leaf. Worker 0 has the valid root in its hand, and the
    /// others hold nothing. The only error is out of memory.
    pub fn new(alloc: Global, judge: J, root: Node, workers: u32) -> Result<Pool<J>, Memory>
        requires workers { (1 ≤ workers) × (workers ≤ 64) }
        requires root { IsValid (J.rules judge) root }
        ensures { IfOk result (λ pool. pool ≡ seen judge root (opening root workers)) }
    {
        let workers = opening_workers(alloc, root, workers)?;
        Ok(Pool {
            judge,
            root,
            workers,
            entered: Vec::new(alloc),
        })
    }
}

impl<J: Judge> Pool<J> {
    /// Takes one step, as the model defines it, of the workers that the step names. The error is `Refused` if the
    /// step's condition is false or no worker has such a number, or `Memory`. The pool is unchanged after an error.
    pub fn step(&mut self, step: Step) -> Result<(), StepError>
        ensures ok { OnOk result (Takes (J.rules self.old.judge) self.old step self.new) }
        ensures refused { IsRefusal (J.rules self.old.judge) self.old step result }
        ensures unchanged { OnErr result (self.new ≡ self.old) }
        ensures same { self.new ≡ record self.old { state = self.new.state } }
    {
        match step {
            Step::Push { w } => self.take_own_step(w, OwnStep::Push),
            Step::Keep { w } => self.take_own_step(w, OwnStep::Keep),
            Step::Pop { w } => self.take_own_step(w, OwnStep::Pop),
            Step::TakeKept { w } => self.take_own_step(w, OwnStep::TakeKept),
            Step::Steal { w, from } => self.steal_node(w, from),
            Step::Enter { w } => self.enter_leaf(w),
        }
    }

    /// Returns the leaves that were entered so far, in order of arrival.
    pub fn entered(&self) -> &[Leaf]
        ensures { result.now ≡ self.now.state.entered }
    {
        self.entered.as_slice()
    }

    /// Tells whether no worker holds a node: all hands, deques and local stacks are empty.
    pub fn is_done(&self) -> bool
        ensures { IsTrue result ↔ IsDone self.now.state }
    {
        self.workers.iter().all(|worker| worker.is_empty())
    }

    // Lets worker `w` take a step that changes only what that worker holds. The error is `Refused` if there is no such
    // worker or the step's condition is false, or `Memory`. The pool is unchanged after an error.
    fn take_own_step(&mut self, w: u32, step: OwnStep) -> Result<(), StepError>
        ensures ok { OnOk result (Takes (J.rules self.old.judge) self.old (own_step w step) self.new) }
        ensures refused { IsRefusal (J.rules self.old.judge) self.old (own_step w step) result }
        ensures unchanged { OnErr result (self.new ≡ self.old) }
        ensures same { self.new ≡ record self.old { state = self.new.state } }
    {
        rules_are_sound(&self.judge);
        let at = w as usize;
        if at >= self.workers.len() {
            return Err(StepError::Refused);
        }
        let worker = &mut self.workers[at];
        worker.take_own_step(&self.judge, step)
    }

    // Lets worker `w` move the node at the front of worker `from`'s deque into its own hand. The error is `Refused` if
    // the two are the same worker, one of them does not exist, the hand already holds a node, or the deque is empty.
    // The pool is unchanged then.
    fn steal_node(&mut self, w: u32, from: u32) -> Result<(), StepError>
        ensures ok { OnOk result (Takes (J.rules self.old.judge) self.old (Steal w from) self.new) }
        ensures refused { IsRefusal (J.rules self.old.judge) self.old (Steal w from) result }
        ensures unchanged { OnErr result (self.new ≡ self.old) }
        ensures same { self.new ≡ record self.old { state = self.new.state } }
    {
        rules_are_sound(&self.judge);
        move_front(&mut self.workers, w as usize, from as usize)
    }

    // Lets worker `w` append the leaf in its hand to the entered leaves, and empties that hand. The error is `Refused`
    // if there is no such worker or no leaf in its hand, or `Memory`. The pool is unchanged after an error.
    fn enter_leaf(&mut self, w: u32) -> Result<(), StepError>
        ensures ok { OnOk result (Takes (J.rules self.old.judge) self.old (Enter w) self.new) }
        ensures refused { IsRefusal (J.rules self.old.judge) self.old (Enter w) result }
        ensures unchanged { OnErr result (self.new ≡ self.old) }
        ensures same { self.new ≡ record self.old { state = self.new.state } }
    {
        rules_are_sound(&self.judge);
        let at = w as usize;
        if at >= self.workers.len() {
            return Err(StepError::Refused);
        }
        let Some(leaf) = self.workers[at].leaf_in_hand(&self.judge) else {
            return Err(StepError::Refused);
        };
        let Ok(()) = self.entered.push(leaf) else {
            return Err(StepError::Memory);
        };
        self.workers[at].clear_hand();
        Ok(())
    }
}

// Moves the node at the front of worker `from`'s deque into worker `at`'s hand. The error is `Refused` if the two are
// the same worker, one of them does not exist, the hand already holds a node, or the deque is empty. Nothing changes
// then.
fn move_front(workers: &mut [Worker], at: usize, from: usize) -> Result<(), StepError>
    ensures ok { OnOk result (Steals at from workers.old workers.new) }
    ensures refused { OnErr result ((ys : List Holding) → ¬ Steals at from workers.old ys) }
    ensures unchanged { OnErr result (workers.new ≡ workers.old) }
{
    if at == from || at >= workers.len() || from >= workers.len() {
        return Err(StepError::Refused);
    }
    if !workers[at].has_empty_hand() {
        return Err(StepError::Refused);
    }
    let Some(node) = workers[from].take_front() else {
        return Err(StepError::Refused);
    };
    workers[at].take_into_hand(node);
    Ok(())
}

// Appends a worker to a list of workers. The only error is out of memory, as a `Memory` of the pool's model.
fn add_worker(made: &mut Vec<Worker>, worker: Worker) -> Result<(), Memory>
    ensures { OnOk result (made.new.items ≡ made.old.items ++ worker ∷ []) }
{
    match made.push(worker) {
        Ok(()) => Ok(()),
        Err(_) => Err(Memory),
    }
}
