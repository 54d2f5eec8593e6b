// A worker: its own deque, its stealers on the others, its hand and its local stack.
ghost use Rattle.std.specs.Prelude.{◌≡◌, ◌+◌, ◌<◌, ◌≤◌, [], Some, None, MatchOption, IsTrue, IsFalse, IfOk, IfSome, OnOk, length};
ghost use Rattle.spec_trees.specs.declared.tree.Node.{Node};
ghost use Rattle.spec_trees.specs.Tree.{IsSound, IsValid};
ghost use Rattle.steal_pool.specs.Rule.{HasLeft, IsOldest, IsUsedUp};
ghost use Rattle.steal_pool.specs.Workers.{FindsNone, HasFilled, IsNew, IsReopened, IsSplit, TookOne, Takes, TakesInOrder, TakesKept, TakesOther, TakesOwn, Gives, gains, joins, lends, after_empty_pop, new_stealer, on_deque, on_stack, with_hand};
ghost use Rattle.steal_pool.specs.Rounds.{Counts, rounds_of_push};
ghost use Rattle.steal_pool.specs.declared.worker.Pushed.TheVariants.{OnDeque, Kept, Memory as OutOfMemory};

use crate::adding::add_item;
use crate::stealer::{Attempts, Stealer};
use crate::view::{Balance, DequeView, Looks, Naming, Puts, StealerSplits, Takes as TakesFront};
use crossbeam_deque::Worker as Deque;
use spec_pool::Memory;
use spec_trees::Node;
use std::alloc::Global;
use std::marker::Model;
use std::thread;

/// The room of a deque, in nodes, and the most nodes that are put on it in a row. So these pushes never fail.
const ROOM: usize = 64;

/// The most sweeps over the other deques in one search for a node. Where all are empty, busy workers may push soon.
const MAX_SWEEPS: usize = 50;

/// Where the right part of a node was put: on the own deque, on the own local stack, or nowhere, out of memory.
#[derive(Drop, PartialEq, Eq)]
pub enum Pushed {
    OnDeque,
    Kept,
    Memory(Node),
}

// Adds one to a counter of rounds, which stays as it is once it is full.
pub(crate) fn count_round(rounds: u64) -> u64
    ensures { Counts 1 rounds result }
{
    rounds.saturating_add(1)
}

impl Pushed {
    // Counts the push as a round of the worker, unless memory was out: then the counter stays as it was.
    pub(crate) fn count(&self, rounds: u64) -> u64
        ensures counts { Counts (rounds_of_push self.now) rounds result }
        ensures same { (n : Node) → self.now ≡ OutOfMemory n → result ≡ rounds }
    {
        match self {
            Pushed::OnDeque | Pushed::Kept => count_round(rounds),
            Pushed::Memory(_) => rounds,
        }
    }
}

/// A worker and its deque, whose nodes leave in the order in which they came. Contracts see what it has, which deque
/// its own is, and what was put on it and taken from it.
#[derive(Drop)]
pub struct Worker<N: Naming> {
    number: u32,
    deque: Deque<Node, Global, DequeView, Balance<N>>,
    stealers: Vec<Stealer<N>>,
    pushed_in_a_row: usize,
    hand: Option<Node>,
    kept: Vec<Node>,
}

impl<N: Naming> Model for Worker<N> {
    ghost use Rattle.std.specs.Prelude.{◌≡◌, ◌≤◌, length};
    ghost use Rattle.crossbeam_deque.specs.Handles.{worker_view, worker_flavor, worker_deque, worker_index, worker_capacity};
    ghost use Rattle.steal_pool.specs.Rule.{end_of};
    ghost use Rattle.steal_pool.specs.Workers.{Holder, Stands, holder_of};

    ghost Value = { Holder };

    ghost view = { λ w. holder_of
        (end_of w.number (worker_deque w.deque) (worker_view w.deque))
        w.stealers.items w.pushed_in_a_row w.hand w.kept.items };

    ghost invariant = { λ w. Stands N.rules (holder_of
        (end_of w.number (worker_deque w.deque) (worker_view w.deque))
        w.stealers.items w.pushed_in_a_row w.hand w.kept.items)
        × ((worker_view w.deque).owner ≡ 1) × (worker_flavor w.deque ≡ 0)
        × (worker_index w.deque ≤ length (worker_view w.deque).put)
        × (64 ≤ worker_capacity w.deque) };
}

// Asks each stealer in turn for the node at the front of its deque, and returns the first that one gives. Each ask
// uses up steal attempts, and none is made once no attempt is left. None if no deque gives a node.
fn steal_from_any<N: Naming>(stealers: &mut [Stealer<N>], attempts: &mut Attempts) -> Option<Node>
    ensures taken { MatchOption result (stealers.new ≡ stealers.old)
        (λ n. TookOne n stealers.old stealers.new × IsValid N.rules n) }
    ensures fewer { attempts.new.made + attempts.new.left ≤ attempts.old.made + attempts.old.left }
{
    for stealer in stealers.iter_mut() {
        if let Some(node) = stealer.steal(attempts) {
            return Some(node);
        }
    }
    None
}

// Goes over the deques of all stealers, up to 50 times, and returns the first node that one gives. After each time
// without one, other threads run, which may push nodes. None if no deque gave a node.
fn sweep_deques<N: Naming>(stealers: &mut [Stealer<N>], attempts: &mut Attempts) -> Option<Node>
    ensures taken { MatchOption result (stealers.new ≡ stealers.old)
        (λ n. TookOne n stealers.old stealers.new × IsValid N.rules n) }
    ensures fewer { attempts.new.made + attempts.new.left ≤ attempts.old.made + attempts.old.left }
{
    for _ in 0..MAX_SWEEPS {
        if let Some(node) = steal_from_any(stealers, attempts) {
            return Some(node);
        }
        thread::yield_now();
    }
    None
}

impl<N: Naming> Worker<N> {
    /// Makes a worker with a number, an empty deque, an empty local stack and no stealer, and with a valid node or
    /// nothing in its hand. The only error is out of memory.
    pub fn new(alloc: Global, number: u32, hand: Option<Node>) -> Result<Worker<N>, Memory>
        requires hand { (n : Node) → hand ≡ Some n → IsValid N.rules n }
        ensures new { IfOk result (λ w. IsNew number hand w) }
    {
        let deque = Deque::<Node, Global, DequeView, Balance<N>>::fifo_as(alloc, ROOM)?;
        Ok(Worker {
            number,
            deque,
            stealers: Vec::new(alloc),
            pushed_in_a_row: 0,
            hand,
            kept: Vec::new(alloc),
        })
    }

    /// Returns the node in the worker's hand, or none if the hand is empty.
    pub fn node(&self) -> Option<Node>
        ensures hand { result ≡ self.now.hand }
        ensures valid { IfSome result (IsValid N.rules) }
    {
        self.hand
    }

    /// Empties the hand, whose node was entered as a leaf.
    pub fn clear_hand(&mut self)
        ensures { self.new ≡ with_hand self.old None }
    {
        self.hand = None;
    }

    // Moves the node on top of the local stack into the empty hand, and returns it. None if the stack is empty, and
    // nothing changes then.
    fn take_from_stack(&mut self) -> Option<Node>
        ensures taken { MatchOption result ((self.old.kept ≡ []) × (self.new ≡ self.old))
            (λ n. TakesKept n self.old self.new) }
    {
        match self.kept.pop() {
            Some(node) => {
                self.hand = Some(node);
                Some(node)
            }
            None => None,
        }
    }

    // Moves the node at the front of the own deque into the empty hand, and returns it. None if the deque gives no
    // node. The pushes in a row are then counted from 0 again, so that the deque takes 64 more.
    fn take_from_own_deque(&mut self) -> Option<Node>
        ensures taken { MatchOption result
            (IsUsedUp self.old.own.view × (self.new ≡ after_empty_pop self.old))
            (λ n. IsOldest self.old.own.view n × TakesOwn n self.old self.new) }
    {
        match self.deque.pop_as::<TakesFront<N>>() {
            Some(node) => {
                self.hand = Some(node);
                Some(node)
            }
            None => {
                self.pushed_in_a_row = 0;
                None
            }
        }
    }

    // Takes the node at the front of another worker's deque into the empty hand, and returns it. At most 10,000 steal
    // attempts are made, in at most 50 sweeps over the deques. None if no attempt gets a node, and nothing changes
    // then.
    fn steal_from_others(&mut self, attempts: &mut Attempts) -> Option<Node>
        ensures taken { MatchOption result (self.new ≡ self.old)
            (λ n. TakesOther n self.old self.new) }
        ensures few { attempts.new.made ≤ attempts.old.made + 10000 }
    {
        if self.stealers.is_empty() {
            return None;
        }
        attempts.begin_search();
        match sweep_deques(self.stealers.as_mut_slice(), attempts) {
            Some(node) => {
                self.hand = Some(node);
                Some(node)
            }
            None => None,
        }
    }

    // Tells whether the own deque takes no more nodes, since 64 were put there without a pop that gave nothing, though
    // it is empty: others stole them all.
    fn is_stolen_empty(&mut self) -> bool
        ensures same { self.new ≡ self.old }
        ensures filled { IsTrue result → HasFilled self.old }
    {
        if self.pushed_in_a_row < ROOM {
            return false;
        }
        self.deque.len_as::<Looks>() == 0
    }

    // Pops the own deque if it took 64 nodes in a row and others stole them all: a pop that gives nothing lets it take
    // 64 nodes again. If the pop does give a node, this goes into the empty hand and is returned, else none.
    fn reopen_deque(&mut self) -> Option<Node>
        ensures taken { MatchOption result (IsReopened self.old self.new)
            (λ n. HasFilled self.old × IsOldest self.old.own.view n × TakesOwn n self.old self.new) }
    {
        if self.is_stolen_empty() {
            return self.take_from_own_deque();
        }
        None
    }

    // Takes the top of the local stack into the empty hand, else the front of the own deque, else the front of another
    // worker's deque, and returns the node. None if none of them gives one.
    fn take_in_order(&mut self, attempts: &mut Attempts) -> Option<Node>
        ensures taken { MatchOption result (FindsNone self.old self.new)
            (λ n. TakesInOrder n self.old self.new) }
        ensures few { attempts.new.made ≤ attempts.old.made + 10000 }
    {
        if let Some(node) = self.take_from_stack() {
            return Some(node);
        }
        if let Some(node) = self.take_from_own_deque() {
            return Some(node);
        }
        self.steal_from_others(attempts)
    }

    /// Takes the next node into the empty hand and returns it: the top of the local stack, else the front of the own
    /// deque, else the front of another worker's deque, by at most 10,000 steal attempts in at most 50 sweeps. If the
    /// own deque took 64 nodes in a row and was stolen empty, it is popped first, so that it takes nodes again. None
    /// if no node is found. The call does not allocate.
    pub fn take(&mut self, attempts: &mut Attempts) -> Option<Node>
        ensures taken { MatchOption result (FindsNone self.old self.new)
            (λ n. Takes n self.old self.new) }
        ensures few { attempts.new.made ≤ attempts.old.made + 10000 }
    {
        if let Some(node) = self.reopen_deque() {
            return Some(node);
        }
        self.take_in_order(attempts)
    }

    // Puts the right part of the node in the hand on the own deque, and the left part into the hand. Returns false, and
    // changes nothing, if the deque is full or took 64 nodes in a row without a pop that gave nothing.
    fn put_on_deque(&mut self, left: Node, right: Node) -> bool
        requires split { IsSplit N.rules self.old left right }
        requires sound { IsSound N.rules }
        ensures put { IsTrue result
            → (self.new ≡ on_deque self.old left right) × (self.old.pushed_in_a_row < 64) }
        ensures refused { IsFalse result
            → (self.new ≡ self.old) × (64 ≤ length self.old.own.view.put) }
    {
        if self.pushed_in_a_row >= ROOM {
            return false;
        }
        match self.deque.push_as::<Puts>(right) {
            Ok(()) => {
                self.pushed_in_a_row += 1;
                self.hand = Some(left);
                true
            }
            Err(_) => false,
        }
    }

    // Puts the right part of the node in the hand on the local stack, and the left part into the hand. Returns false,
    // and changes nothing, if memory is out.
    fn put_on_stack(&mut self, left: Node, right: Node) -> bool
        requires split { IsSplit N.rules self.old left right }
        requires sound { IsSound N.rules }
        ensures put { IsTrue result → self.new ≡ on_stack self.old left right }
        ensures refused { IsFalse result → self.new ≡ self.old }
    {
        match self.kept.push(right) {
            Ok(()) => {
                self.hand = Some(left);
                true
            }
            Err(_) => false,
        }
    }

    /// Puts the right part of the node in the hand on the back of the own deque, and keeps the left part in the hand. If
    /// the deque has taken 64 nodes since a pop last found it empty, the right part goes on the local stack instead. If
    /// memory is out, the right part is returned and nothing changes.
    pub fn push(&mut self, left: Node, right: Node) -> Pushed
        requires split { IsSplit N.rules self.old left right }
        requires sound { IsSound N.rules }
        ensures deque { result ≡ OnDeque → self.new ≡ on_deque self.old left right }
        ensures few { result ≡ OnDeque → self.old.pushed_in_a_row < 64 }
        ensures kept { result ≡ Kept → self.new ≡ on_stack self.old left right }
        ensures memory { (n : Node) → result ≡ OutOfMemory n → (n ≡ right) × (self.new ≡ self.old) }
        ensures first { length self.old.own.view.put < 64 → result ≡ OnDeque }
    {
        if self.put_on_deque(left, right) {
            return Pushed::OnDeque;
        }
        if self.put_on_stack(left, right) {
            return Pushed::Kept;
        }
        Pushed::Memory(right)
    }

    /// Makes a stealer on the worker's own deque, by which another worker may take from it. The only error is out of
    /// memory.
    pub fn lend_stealer(&mut self) -> Result<Stealer<N>, Memory>
        ensures made { OnOk result (self.new ≡ lends self.old) }
        ensures stealer { IfOk result (λ e. e ≡ new_stealer self.old) }
    {
        let reader = self.deque.stealer()?;
        let pass = self.deque.another::<StealerSplits>();
        Ok(Stealer {
            number: self.number,
            reader,
            pass,
        })
    }

    /// Adds a stealer on another worker's deque to the end of this worker's stealers. The only error is out of memory.
    pub fn keep_stealer(&mut self, stealer: Stealer<N>) -> Result<(), Memory>
        ensures { OnOk result (self.new ≡ gains self.old stealer) }
    {
        add_item(&mut self.stealers, stealer)
    }

    /// Removes the last of the worker's stealers and returns it, or returns none if the worker has no stealer.
    pub fn give_stealer(&mut self) -> Option<Stealer<N>>
        ensures { MatchOption result ((self.old.stealers ≡ []) × (self.new ≡ self.old))
            (λ e. Gives e self.old self.new) }
    {
        self.stealers.pop()
    }

    /// Joins a stealer on the worker's own deque into the worker: the nodes that the stealer took count as taken by the
    /// worker.
    pub fn join_stealer(&mut self, stealer: Stealer<N>)
        requires ours { stealer.deque ≡ self.old.own.deque }
        requires made { 0 < self.old.own.view.made }
        ensures joined { self.new ≡ joins self.old stealer }
    {
        self.deque.absorb::<StealerSplits>(stealer.pass);
    }

    /// Pops the own deque a last time, and drops the worker with the node that this may give. The pop is there for the
    /// proof alone: if no stealer is out, it shows that the nodes put on the deque are those taken and then, in order,
    /// those left.
    pub fn pop_last_and_drop(mut self)
        ensures { HasLeft self.own.view }
    {
        let _left = self.deque.pop_as::<TakesFront<N>>();
    }
}
