// What an end of a deque knows, and the rule that every step on a deque keeps.
ghost use Rattle.spec_trees.specs.Tree.{Rules};

use crossbeam_deque::protocol::{Join, Lesson, Outcome, Protocol, Split};
use spec_trees::Node;
use std::collections::LinkedList;
use std::marker::{Brand, PhantomData};

/// A name for the rules by which the nodes of a pool are valid. A deque's rule is a type, so it needs such a name; a
/// call picks it for the judge that it is passed.
pub trait Naming {
    ghost use Rattle.spec_trees.specs.Tree.{Rules};

    ghost rules: { Rules };
}

impl Naming for Brand {
    ghost use Rattle.steal_pool.specs.Rule.{no_rules};

    ghost rules = { no_rules };
}

/// What an end of a deque knows: whether it is its owner's (1 or 0), how many stealers the owner has made and not
/// joined, whether it is such a stealer (1 or 0), and the nodes that were put and taken by it. Contracts alone speak
/// of it; no value of it is made.
pub struct DequeView {
    pub owner: u64,
    pub made: u64,
    pub out: u64,
    pub put: LinkedList<Node>,
    pub taken: LinkedList<Node>,
}

/// The rule of one deque: what was put is, in order, what was taken and what it holds.
pub struct Balance<N> {
    of: PhantomData<N>,
}

impl<N: Naming> Protocol<Node, DequeView> for Balance<N> {
    ghost use Rattle.steal_pool.specs.Rule.{Balanced, opening, spent};

    ghost holds = { Balanced N.rules };

    ghost first = { opening };

    ghost guest = { spent };
}

/// The step of a push by the owner.
pub struct Puts;

impl Outcome<Node, DequeView> for Puts {
    ghost use Rattle.std.specs.Prelude.{◌≡◌};
    ghost use Rattle.steal_pool.specs.Rule.{with_put};

    ghost then = { λ v xs w. w ≡ with_put v xs };
}

/// The step of a pop by the owner. Where no stealer is out, it takes the oldest node that is left; where it takes
/// none, none is left.
pub struct Takes<N> {
    of: PhantomData<N>,
}

impl<N: Naming> Outcome<Node, DequeView> for Takes<N> {
    ghost use Rattle.steal_pool.specs.Rule.{OwnerTakes, IsUsedUp};

    ghost then = { OwnerTakes N.rules };

    ghost empty = { IsUsedUp };
}

/// The step of asking how many nodes a deque holds. Nothing is known from the answer, since others take from it
/// meanwhile.
pub struct Looks;

impl Lesson<Node, DequeView> for Looks {
    ghost use Rattle.std.specs.Prelude.{⊤};

    ghost fact = { λ v xs. ⊤ };
}

/// The step of a steal. Where it gives no node, the stealer learns nothing.
pub struct Steals<N> {
    of: PhantomData<N>,
}

impl<N: Naming> Outcome<Node, DequeView> for Steals<N> {
    ghost use Rattle.steal_pool.specs.Rule.{HasTaken};

    ghost then = { HasTaken N.rules };
}

/// The step that makes a stealer, and the one that joins it.
pub struct StealerSplits;

impl Split<DequeView> for StealerSplits {
    ghost use Rattle.steal_pool.specs.Rule.{made_one, stealer_out};

    ghost left = { made_one };

    ghost right = { λ v. stealer_out };
}

impl Join<DequeView> for StealerSplits {
    ghost use Rattle.steal_pool.specs.Rule.{joined_one, spent as nothing};

    ghost both = { joined_one };

    ghost spent = { nothing };
}
