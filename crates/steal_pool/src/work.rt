// What a seat does: it puts the right part of a node away, takes the next node, and works until it finds none.
ghost use Rattle.std.specs.Prelude.{◌≡◌, ◌<◌, ◌≤◌, ◌+◌, [], Some, None, IfSome, IfNone, MatchOption, OnOk, IfErr, length};
ghost use Rattle.spec_trees.specs.declared.tree.Node.{Node};
ghost use Rattle.spec_trees.specs.Tree.{IsLeaf, IsValid, mark_of};
ghost use Rattle.spec_trees.specs.declared.tree.Verdict.TheVariants.{Split};
ghost use Rattle.spec_pool.specs.Accounts.{EntersNode, KeepsRight, PutsRight};
ghost use Rattle.steal_pool.specs.Rule.{IsUsedUp};
ghost use Rattle.steal_pool.specs.Workers.{FindsNone, IsRight, Takes};
ghost use Rattle.steal_pool.specs.Seats.{Changes, Gets, IfFull, IsFull, IsFullOf, IsHolding, IsLeft, IsStoppedBy, SameSeat, Splits, Steps, Works, stop_at, with_refusal};
ghost use Rattle.steal_pool.specs.declared.worker.Pushed.TheVariants.{OnDeque, Kept, Memory};
ghost use Rattle.steal_pool.specs.declared.seat.PoolError.TheVariants.{TooMany};
ghost use Rattle.steal_pool.specs.declared.seat.Stop.TheVariants.{Memory as OutOfMemory};

use crate::seat::{PoolError, PoolSeat, Stop};
use crate::view::Naming;
use crate::worker::{Pushed, count_round};
use gf_edges::Gate;
use halving::{Judge, Mark, Node, rules_are_sound};
use spec_pool::Entry;
use spec_trees::Leaf;
use std::sync::Wait;

// Returns why a seat has to stop after the ledger's answer for a leaf: a full ledger, with the leaf, or out of memory.
// None if the leaf is in the ledger, entered now or before.
fn stop_after(entry: Entry, leaf: Leaf) -> Option<Stop>
    ensures { result ≡ stop_at entry leaf }
{
    match entry {
        Entry::Entered { place: _ } | Entry::Again { place: _ } => None,
        Entry::Full => Some(Stop::Full(leaf)),
        Entry::Memory => Some(Stop::Memory),
    }
}

impl<'p, N: Naming, J: Judge, G: Gate> PoolSeat<'p, N, J, G> {
    /// Splits the node in the hand: the left part stays in the hand, and `right`, the right part, goes to the back of
    /// the own deque (`OnDeque`). It goes on the local stack instead (`Kept`) if the deque is full, or took 64 nodes
    /// in a row without a pop that gave nothing. If memory is out, `right` comes back and nothing changes.
    pub fn push(&mut self, right: Node) -> Pushed
        requires right { IsRight N.rules self.old.worker right }
        ensures deque { result ≡ OnDeque → Changes (PutsRight N.rules right) self.old self.new }
        ensures few { result ≡ OnDeque → self.old.worker.pushed_in_a_row < 64 }
        ensures kept { result ≡ Kept → Changes (KeepsRight N.rules) self.old self.new }
        ensures counted { result ≡ OnDeque
            → self.new.worker.pushed_in_a_row ≡ self.old.worker.pushed_in_a_row + 1 }
        ensures uncounted { result ≡ Kept
            → self.new.worker.pushed_in_a_row ≡ self.old.worker.pushed_in_a_row }
        ensures memory { (n : Node) → result ≡ Memory n → (n ≡ right) × (self.new ≡ self.old) }
        ensures first { length self.old.worker.own.view.put < 64 → result ≡ OnDeque }
        ensures same { SameSeat self.old self.new }
        ensures refusal { self.new.refusal ≡ self.old.refusal }
    {
        rules_are_sound(self.judge);
        let Some(node) = self.worker.node() else {
            unreachable!()
        };
        let (left, _) = self.judge.cut(node);
        let pushed = self.worker.push(left, right);
        self.rounds = pushed.count(self.rounds);
        pushed
    }

    /// Takes the next node into the empty hand: the top of the local stack, else the front of the own deque, else a
    /// node of another deque. Other deques are tried by at most 10,000 steal attempts in at most 50 sweeps, with other
    /// threads let run after each sweep. If the own deque took 64 nodes in a row and was stolen empty, it is popped
    /// first, so that it takes nodes again. None means that stack and own deque are empty, and says nothing of the
    /// other deques. The call does not allocate, and waits for nobody.
    pub fn take(&mut self) -> Option<Node>
        requires empty { self.old.worker.hand ≡ None }
        ensures taken { IfSome result (λ n. Changes (Gets n) self.old self.new) }
        ensures order { MatchOption result (FindsNone self.old.worker self.new.worker)
            (λ n. Takes n self.old.worker self.new.worker) }
        ensures kept { IfNone result ((self.old.worker.kept ≡ []) × (self.new.worker.kept ≡ [])) }
        ensures hand { IfNone result (self.new.worker.hand ≡ None) }
        ensures used_up { IfNone result (IsUsedUp self.new.worker.own.view) }
        ensures works { Works N.rules self.old self.new }
        ensures same { SameSeat self.old self.new }
        ensures refusal { self.new.refusal ≡ self.old.refusal }
        ensures few { self.new.tried ≤ self.old.tried + 10000 }
    {
        self.worker.take(&mut self.attempts)
    }

    /// Returns the node in the seat's hand, or none if the hand is empty. `push` takes the right part of this node.
    pub fn node(&self) -> Option<Node>
        ensures hand { result ≡ self.now.worker.hand }
        ensures valid { IfSome result (IsValid N.rules) }
    {
        self.worker.node()
    }

    // Records in the seat the reason why it stops, for the end of the pool.
    fn note_stop(&mut self, stop: Stop)
        ensures { self.new ≡ with_refusal self.old (Some stop) }
    {
        self.refusal = Some(stop);
    }

    // Enters `leaf`, which is the node in the hand with its mark, into the ledger, and empties the hand. The error is
    // a full ledger or out of memory, and the hand keeps its node then. The call waits for the ledger's lock.
    fn enter_leaf<R: Wait>(&mut self, rt: &R, leaf: Leaf) -> Result<(), Stop>
        requires hand { self.old.worker.hand ≡ Some leaf.node }
        requires leaf { IsLeaf N.rules leaf }
        ensures entered { OnOk result (Changes (EntersNode N.rules) self.old self.new) }
        ensures works { Works N.rules self.old self.new }
        ensures same { SameSeat self.old self.new }
        ensures refusal { self.new.refusal ≡ self.old.refusal }
        ensures holds { IfErr result (λ e. self.new.worker.hand ≡ self.old.worker.hand) }
        ensures full { IfErr result (λ stop. IfFull stop (λ leaf. IsFullOf N.rules leaf self.new)) }
    {
        rules_are_sound(self.judge);
        let entry = self.ledger.enter(rt, &mut self.entries, leaf);
        match stop_after(entry, leaf) {
            Some(stop) => Err(stop),
            None => {
                self.worker.clear_hand();
                self.rounds = count_round(self.rounds);
                Ok(())
            }
        }
    }

    // Splits `node`, which is in the hand: its left part stays in the hand, its right part goes on the own deque or,
    // if the deque takes no more, on the local stack. The only error is out of memory, and the hand keeps the node
    // then.
    pub(crate) fn split_node(&mut self, node: Node) -> Result<(), Stop>
        requires hand { self.old.worker.hand ≡ Some node }
        requires valid { IsValid N.rules node }
        requires split { N.rules.verdict node ≡ Split }
        ensures split { OnOk result (Splits N.rules self.old self.new) }
        ensures works { Works N.rules self.old self.new }
        ensures same { SameSeat self.old self.new }
        ensures refusal { self.new.refusal ≡ self.old.refusal }
        ensures holds { IfErr result (λ e. self.new.worker.hand ≡ self.old.worker.hand) }
        ensures memory { IfErr result (λ stop. stop ≡ OutOfMemory) }
    {
        rules_are_sound(self.judge);
        let (left, right) = self.judge.cut(node);
        let pushed = self.worker.push(left, right);
        self.rounds = pushed.count(self.rounds);
        match pushed {
            Pushed::OnDeque => Ok(()),
            Pushed::Kept => Ok(()),
            Pushed::Memory(_) => Err(Stop::Memory),
        }
    }

    // Passes the pool's gate, then judges a valid node. Returns the mark of a leaf, or none for a node that is to be
    // split.
    pub(crate) fn judge_node(&self, node: Node) -> Option<Mark>
        requires valid { IsValid N.rules node }
        ensures { result ≡ mark_of (N.rules.verdict node) }
    {
        self.gate.pass(self.entries.number());
        self.judge.judge(node).mark()
    }

    // Judges `node`, which is in the hand, and enters it into the ledger as a leaf or splits it. The error is a full
    // ledger or out of memory, and the hand keeps the node then. The call waits for the ledger's lock.
    fn work_on_node<R: Wait>(&mut self, rt: &R, node: Node) -> Result<(), Stop>
        requires hand { self.old.worker.hand ≡ Some node }
        requires valid { IsValid N.rules node }
        ensures stepped { OnOk result (Steps N.rules self.old self.new) }
        ensures works { Works N.rules self.old self.new }
        ensures same { SameSeat self.old self.new }
        ensures refusal { self.new.refusal ≡ self.old.refusal }
        ensures holds { IfErr result (λ e. self.new.worker.hand ≡ self.old.worker.hand) }
        ensures full { IfErr result (λ stop. IfFull stop (λ leaf. IsFullOf N.rules leaf self.new)) }
    {
        match self.judge_node(node) {
            Some(mark) => self.enter_leaf(rt, Leaf { node, mark }),
            None => self.split_node(node),
        }
    }

    // Returns the node in the hand. If the hand is empty, it takes the next node into it first: from the local stack,
    // the own deque or another deque. None if none of them gives one.
    fn next_node(&mut self) -> Option<Node>
        ensures hand { result ≡ self.new.worker.hand }
        ensures valid { IfSome result (IsValid N.rules) }
        ensures kept { IfNone result (self.new.worker.kept ≡ []) }
        ensures used_up { IfNone result (IsUsedUp self.new.worker.own.view) }
        ensures works { Works N.rules self.old self.new }
        ensures same { SameSeat self.old self.new }
        ensures refusal { self.new.refusal ≡ self.old.refusal }
    {
        match self.node() {
            Some(node) => Some(node),
            None => match self.take() {
                Some(_) => self.node(),
                None => None,
            },
        }
    }

    /// Works on the node in the hand and on all nodes that it then takes: each is entered into the ledger as a leaf or
    /// is split. It ends when no node is found, or with an error: `TooMany` if the ledger is full for a leaf, or
    /// `Memory`. After an error the hand still holds the last node, and the seat keeps why it stopped. The gate is
    /// passed before each judging. The call waits for the ledger's lock.
    pub fn work<R: Wait>(&mut self, rt: &R) -> Result<(), PoolError>
        requires free { self.old.refusal ≡ None }
        ensures works { Works N.rules self.old self.new }
        ensures same { SameSeat self.old self.new }
        ensures hand { OnOk result (self.new.worker.hand ≡ None) }
        ensures kept { OnOk result (self.new.worker.kept ≡ []) }
        ensures used_up { OnOk result (IsUsedUp self.new.worker.own.view) }
        ensures free { OnOk result (self.new.refusal ≡ None) }
        ensures refusal { IfErr result (λ e. IsStoppedBy e self.new) }
        ensures holds { IfErr result (λ e. IsHolding self.new) }
        ensures full { IfErr result (λ e. e ≡ TooMany → IsFull N.rules self.new) }
        ensures left { IsLeft N.rules self.new }
    {
        for _ in rt.forever() {
            match self.next_node() {
                Some(node) => {
                    if let Err(stop) = self.work_on_node(rt, node) {
                        self.note_stop(stop);
                        return Err(stop.error());
                    }
                }
                None => return Ok(()),
            }
        }
        unreachable!()
    }
}
