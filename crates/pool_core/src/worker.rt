// What one worker holds, and what each step changes of it.
ghost use Rattle.std.specs.Prelude.{◌≡◌, [], Some, None, IsTrue, ◌↔◌, OnOk, OnErr, IfSome, IfNone};
ghost use Rattle.spec_trees.specs.declared.tree.Node.{Node};
ghost use Rattle.spec_trees.specs.declared.tree.Leaf.{Leaf};
ghost use Rattle.pool_core.specs.States.{Holding, holding, nothing, Pushes, Keeps, Pops, TakesKept, Gets, GivesUp};
ghost use Rattle.pool_core.specs.Views.{Goes, HoldsLeaf, HoldsNoLeaf, HoldsNoSplit, HoldsSplit, HoldsValid, IfRefused, IsStuck, empty_handed};
ghost use Rattle.pool_core.specs.declared.worker.StepError.TheVariants.{Refused, Memory};

use halving::{Judge, Leaf, Node, Verdict};
use std::alloc::Global;
use std::collections::VecDeque;
use std::marker::Model;

/// Why a step was not taken: its condition is false, or memory ran out. The pool is then as before.
#[derive(Drop, PartialEq, Eq)]
pub enum StepError {
    Refused,
    Memory,
}

/// A step that changes only what its own worker holds.
#[derive(Clone, Copy)]
pub enum OwnStep {
    Push,
    Keep,
    Pop,
    TakeKept,
}

#[derive(Drop)]
pub struct Worker {
    hand: Option<Node>,
    deque: VecDeque<Node>,
    kept: Vec<Node>,
}

impl Model for Worker {
    ghost use Rattle.pool_core.specs.States.{Holding, holding};

    ghost Value = { Holding };

    ghost view = { λ w. holding w.hand w.deque.items w.kept.items };
}

impl Worker {
    /// Makes a worker that holds the given node in its hand, or nothing, and whose deque and local stack are empty.
    pub fn new(alloc: Global, hand: Option<Node>) -> Worker
        ensures { result ≡ holding hand [] [] }
    {
        Worker {
            hand,
            deque: VecDeque::new(alloc),
            kept: Vec::new(alloc),
        }
    }

    /// Tells whether the worker holds no node: its hand, its deque and its local stack are empty.
    pub fn is_empty(&self) -> bool
        ensures { IsTrue result ↔ (self.now ≡ nothing) }
    {
        self.hand.is_none() && self.deque.is_empty() && self.kept.is_empty()
    }

    /// Takes a step that changes only what this worker holds. The error is `Refused` if the step's condition is false,
    /// or `Memory`, and the worker is unchanged then.
    pub fn take_own_step<J: Judge>(&mut self, judge: &J, step: OwnStep) -> Result<(), StepError>
        requires { HoldsValid (J.rules judge.now) self.old }
        ensures ok { OnOk result (Goes (J.rules judge.now) step self.old self.new) }
        ensures refused { IfRefused result (IsStuck (Goes (J.rules judge.now) step) self.old) }
        ensures unchanged { OnErr result (self.new ≡ self.old) }
    {
        match step {
            OwnStep::Push => self.push_right_part(judge),
            OwnStep::Keep => self.keep_right_part(judge),
            OwnStep::Pop => self.pop_deque(),
            OwnStep::TakeKept => self.pop_local_stack(),
        }
    }

    // Returns the left and the right part of the node in the hand, if the judge splits that node. None if the hand is
    // empty or its node is a leaf.
    fn parts_of_hand<J: Judge>(&self, judge: &J) -> Option<(Node, Node)>
        requires { HoldsValid (J.rules judge.now) self.now }
        ensures some { IfSome result (HoldsSplit (J.rules judge.now) self.now) }
        ensures none { IfNone result (HoldsNoSplit (J.rules judge.now) self.now) }
    {
        let node = self.hand?;
        let Verdict::Split = judge.judge(node) else {
            return None;
        };
        Some(judge.cut(node))
    }

    // Splits the node in the hand: the right part goes to the back of the deque, the left part stays in the hand. The
    // error is `Refused` if the hand holds no node to split, or `Memory`, and nothing changes then.
    fn push_right_part<J: Judge>(&mut self, judge: &J) -> Result<(), StepError>
        requires { HoldsValid (J.rules judge.now) self.old }
        ensures ok { OnOk result (Pushes (J.rules judge.now) self.old self.new) }
        ensures refused { IfRefused result (IsStuck (Pushes (J.rules judge.now)) self.old) }
        ensures unchanged { OnErr result (self.new ≡ self.old) }
    {
        let Some((left, right)) = self.parts_of_hand(judge) else {
            return Err(StepError::Refused);
        };
        if self.deque.push_back(right).is_err() {
            return Err(StepError::Memory);
        }
        self.hand = Some(left);
        Ok(())
    }

    // Splits the node in the hand: the right part goes on top of the local stack, the left part stays in the hand. The
    // error is `Refused` if the hand holds no node to split, or `Memory`, and nothing changes then.
    fn keep_right_part<J: Judge>(&mut self, judge: &J) -> Result<(), StepError>
        requires { HoldsValid (J.rules judge.now) self.old }
        ensures ok { OnOk result (Keeps (J.rules judge.now) self.old self.new) }
        ensures refused { IfRefused result (IsStuck (Keeps (J.rules judge.now)) self.old) }
        ensures unchanged { OnErr result (self.new ≡ self.old) }
    {
        let Some((left, right)) = self.parts_of_hand(judge) else {
            return Err(StepError::Refused);
        };
        if self.kept.push(right).is_err() {
            return Err(StepError::Memory);
        }
        self.hand = Some(left);
        Ok(())
    }

    // Moves the node at the front of the deque into the empty hand. The error is `Refused` if the hand already holds a
    // node or the deque is empty, and nothing changes then.
    fn pop_deque(&mut self) -> Result<(), StepError>
        ensures ok { OnOk result (Pops self.old self.new) }
        ensures refused { OnErr result (IsStuck Pops self.old) }
        ensures unchanged { OnErr result (self.new ≡ self.old) }
    {
        if self.hand.is_some() {
            return Err(StepError::Refused);
        }
        let Some(node) = self.take_front() else {
            return Err(StepError::Refused);
        };
        self.hand = Some(node);
        Ok(())
    }

    // Moves the node on top of the local stack into the empty hand. The error is `Refused` if the hand already holds a
    // node or the stack is empty, and nothing changes then.
    fn pop_local_stack(&mut self) -> Result<(), StepError>
        ensures ok { OnOk result (TakesKept self.old self.new) }
        ensures refused { OnErr result (IsStuck TakesKept self.old) }
        ensures unchanged { OnErr result (self.new ≡ self.old) }
    {
        if self.hand.is_some() {
            return Err(StepError::Refused);
        }
        let Some(node) = self.kept.pop() else {
            return Err(StepError::Refused);
        };
        self.hand = Some(node);
        Ok(())
    }

    /// Tells whether the worker's hand is empty, so that it may take a node.
    pub fn has_empty_hand(&self) -> bool
        ensures { IsTrue result ↔ (self.now.hand ≡ None) }
    {
        self.hand.is_none()
    }

    /// Removes the node at the front of the deque and returns it, or returns none if the deque is empty.
    pub fn take_front(&mut self) -> Option<Node>
        ensures some { IfSome result (λ n. GivesUp n self.old self.new) }
        ensures none { IfNone result ((n : Node) (y : Holding) → ¬ GivesUp n self.old y) }
        ensures unchanged { IfNone result (self.new ≡ self.old) }
    {
        self.deque.pop_front()
    }

    /// Puts a node into the hand, which has to be empty.
    pub fn take_into_hand(&mut self, node: Node)
        requires { self.old.hand ≡ None }
        ensures { Gets node self.old self.new }
    {
        self.hand = Some(node);
    }

    /// Returns the node in the hand with the mark that the judge gives it, as a leaf. None if the hand is empty or the
    /// judge splits its node. The hand keeps the node.
    pub fn leaf_in_hand<J: Judge>(&self, judge: &J) -> Option<Leaf>
        requires { HoldsValid (J.rules judge.now) self.now }
        ensures some { IfSome result (λ l. HoldsLeaf (J.rules judge.now) self.now l) }
        ensures none { IfNone result (HoldsNoLeaf (J.rules judge.now) self.now) }
    {
        let node = self.hand?;
        let mark = judge.judge(node).mark()?;
        Some(Leaf { node, mark })
    }

    /// Empties the hand, whose node was entered as a leaf.
    pub fn clear_hand(&mut self)
        ensures { self.new ≡ empty_handed self.old }
    {
        self.hand = None;
    }
}
