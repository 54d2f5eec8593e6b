// A stealer: the end of another worker's deque.
ghost use Rattle.std.specs.Prelude.{◌≡◌, ◌+◌, ◌<◌, ◌≤◌, IfSome, IfNone};
ghost use Rattle.spec_trees.specs.Tree.{IsValid};
ghost use Rattle.crossbeam_deque.specs.Steals.{MatchSteal};
ghost use Rattle.steal_pool.specs.Rule.{takes_one};

use crate::view::{Balance, DequeView, Naming, Steals};
use crossbeam_deque::{Pass, Steal, Stealer as Reader};
use spec_trees::Node;
use std::alloc::Global;
use std::marker::Model;

/// A stealer: the end of another worker's deque, from which it takes nodes.
#[derive(Drop)]
pub struct Stealer<N: Naming> {
    pub(crate) number: u32,
    pub(crate) reader: Reader<Node, Global, DequeView, Balance<N>>,
    pub(crate) pass: Pass<Node, DequeView>,
}

impl<N: Naming> Model for Stealer<N> {
    ghost use Rattle.std.specs.Prelude.{◌≡◌};
    ghost use Rattle.crossbeam_deque.specs.Handles.{view as seen, IsPassOf, stealer_deque};
    ghost use Rattle.steal_pool.specs.Rule.{End, end_of};

    ghost Value = { End };

    ghost view = { λ t. end_of t.number (stealer_deque t.reader) (seen t.pass) };

    ghost invariant = { λ t. IsPassOf (stealer_deque t.reader) t.pass
        × ((seen t.pass).owner ≡ 0) × ((seen t.pass).out ≡ 1) };
}

/// A count of steal attempts: how many are left in one search for a node, and how many were made in all searches. Each
/// attempt uses up one, so that a search ends.
#[derive(Drop)]
pub struct Attempts {
    pub left: u32,
    pub made: u64,
}

impl Attempts {
    /// Returns a count of which no attempt was made and none is left.
    pub fn new() -> Attempts
        ensures { result.made ≡ 0 }
    {
        Attempts { left: 0, made: 0 }
    }

    /// Begins a search for a node: 10,000 attempts are left, for all deques together.
    pub fn begin_search(&mut self)
        ensures left { self.new.left ≡ 10000 }
        ensures made { self.new.made ≡ self.old.made }
    {
        self.left = 10_000;
    }

    // Uses up one attempt.
    fn use_one(&mut self)
        requires some { 0 < self.old.left }
        ensures left { self.new.left + 1 ≡ self.old.left }
        ensures made { self.new.made ≤ self.old.made + 1 }
    {
        self.left -= 1;
        self.made = self.made.saturating_add(1);
    }
}

impl<N: Naming> Stealer<N> {
    /// Returns the number of the worker that owns the deque from which this stealer takes nodes.
    pub fn owner_number(&self) -> u32
        ensures { result ≡ self.now.worker }
    {
        self.number
    }

    // Tries once to take the node at the front of the deque, and uses up one attempt. The answer is the node, `Empty`,
    // or `Retry` if another worker took from the deque meanwhile, which may then still hold nodes.
    fn try_steal(&mut self, attempts: &mut Attempts) -> Steal<Node>
        requires some { 0 < attempts.old.left }
        ensures taken { MatchSteal result (self.new ≡ self.old) (self.new ≡ self.old)
            (λ n. (self.new ≡ takes_one self.old n) × IsValid N.rules n) }
        ensures counted { attempts.new.left + 1 ≡ attempts.old.left }
        ensures made { attempts.new.made ≤ attempts.old.made + 1 }
    {
        attempts.use_one();
        self.reader.steal_as::<Steals<N>>(&mut self.pass)
    }

    /// Takes the node at the front of the deque and returns it. If another worker takes from the deque at the same
    /// time, it tries again while attempts are left. None means that the deque was found empty or that no attempt is
    /// left.
    pub fn steal(&mut self, attempts: &mut Attempts) -> Option<Node>
        ensures taken { IfSome result (λ n. (self.new ≡ takes_one self.old n) × IsValid N.rules n) }
        ensures none { IfNone result (self.new ≡ self.old) }
        ensures fewer { attempts.new.made + attempts.new.left ≤ attempts.old.made + attempts.old.left }
    {
        while attempts.left > 0 {
            match self.try_steal(attempts) {
                Steal::Success(node) => return Some(node),
                Steal::Empty => return None,
                Steal::Retry => {}
            }
        }
        None
    }
}
