// The times at which a function is at least 0.
ghost use Rattle.std.specs.Prelude.{◌≡◌, ℤ, ◌≤ℤ◌, int_lt, if◌then◌else◌, IfOk, OnOk, pos, ◌+ℤ◌};
ghost use Rattle.spec_intervals.specs.declared.signs.Sign.TheVariants.{Open};
ghost use Rattle.spec_expressions.specs.Term.{IsFormula, exact_of};
ghost use Rattle.spec_events.specs.Functions.{IsNotNegative};
ghost use Rattle.spec_sets.specs.Pairs.{AreOf, AreSets};
ghost use Rattle.spec_sets.specs.Points.{point_of};
ghost use Rattle.spec_sets.specs.Signs.{AreTold, Follow, end_from, sign_after, sign_in, sign_of_leaves};
ghost use Rattle.spec_sets.specs.Spans.{earliest, latest};
ghost use Rattle.gf_sets.specs.Adding.{AreAdded, ComesNext};

use crate::formula_signs::FormulaSigns;
use crate::pair::Pair;
use crate::sign_source::SignSource;
use crate::spans::Spans;
use event_expr::{Formula, States};
use ival_core::Sign;
use spec_trees::{Leaf, Mark, Node, Turn};
use std::alloc::{AllocError, Global};

/// Returns the times, from `from` to the end of the last of some leaves, at which a function is sure to be at least
/// 0, and those at which it may be. The leaves follow one another from `from`, and their times are such as the states
/// can be asked for, in their unit. A clear leaf has the sign of its end, a leaf with one turn is told at its end
/// alone, and an undecided one never. If the marks are true of the function, it is at least 0 at each sure time, and
/// each time at which it is at least 0 is possible. The states are asked at `from` and at the end of each clear leaf.
/// The only error is out of memory.
pub fn at_least<S: States>(
    alloc: Global,
    f: &Formula,
    states: &S,
    from: i64,
    leaves: &[Leaf],
) -> Result<Pair, AllocError>
    requires follow { Follow from leaves.now }
    requires early { earliest ≤ℤ from }
    requires late { end_from from leaves.now ≤ℤ latest }
    requires fits { (t : ℤ) → from ≤ℤ t → t ≤ℤ end_from from leaves.now → S.fits states.now t t }
    ensures signs { IfOk result (λ pair.
        AreOf (sign_of_leaves (point_of (S.answer states.now) f.now) from leaves.now)
        from (end_from from leaves.now) pair.sure pair.maybe) }
    ensures meets { IfOk result (λ pair. IsFormula f.now
        → AreTold (IsNotNegative (exact_of (S.exact states.now) f.now)) leaves.now
        → AreSets (IsNotNegative (exact_of (S.exact states.now) f.now))
        from (end_from from leaves.now) pair.sure pair.maybe) }
{
    let signs = FormulaSigns { formula: f, states };
    times_at_least(alloc, &signs, from, leaves)
}

/// Returns the times as `at_least` does, by what tells the function's sign at `from` and at the end of each clear leaf.
/// The only error is out of memory.
pub fn times_at_least<P: SignSource>(
    alloc: Global,
    signs: &P,
    from: i64,
    leaves: &[Leaf],
) -> Result<Pair, AllocError>
    requires follow { Follow from leaves.now }
    requires early { earliest ≤ℤ from }
    requires late { end_from from leaves.now ≤ℤ latest }
    requires fits { (t : ℤ) → from ≤ℤ t → t ≤ℤ end_from from leaves.now → P.fits signs.now t }
    ensures { IfOk result (λ pair. AreOf (sign_of_leaves (P.sign signs.now) from leaves.now)
        from (end_from from leaves.now) pair.sure pair.maybe) }
{
    let mut pair = Pair {
        sure: Spans::new(alloc),
        maybe: Spans::new(alloc),
    };
    pair.add_with_sign(from, from, signs.sign_at(from))?;
    for leaf in leaves {
        add_leaf(&mut pair, signs, leaf)?;
    }
    Ok(pair)
}

// Adds the times of a leaf after its first to a pair of sets, which end there: a clear leaf's with the sign of its
// end, an undecided one's as open, and those of a leaf with a turn by that turn. The only error is out of memory.
fn add_leaf<P: SignSource>(pair: &mut Pair, signs: &P, leaf: &Leaf) -> Result<(), AllocError>
    requires next { ComesNext leaf.now.node pair.old.sure pair.old.maybe }
    requires fits { P.fits signs.now leaf.now.node.b }
    ensures { OnOk result (AreAdded
        (sign_in (P.sign signs.now) leaf.now.node leaf.now.mark)
        (leaf.now.node.a +ℤ pos 1) leaf.now.node.b
        pair.old.sure pair.old.maybe pair.new.sure pair.new.maybe) }
{
    match leaf.mark {
        Mark::Clear => add_node(pair, &leaf.node, sign_at_end(signs, &leaf.node)),
        Mark::Undecided => add_node(pair, &leaf.node, Sign::Open),
        Mark::One(turn) => add_node_with_turn(pair, &leaf.node, turn),
    }
}

// Adds the times of a node after its first to a pair of sets, all with one sign. The only error is out of memory.
fn add_node(pair: &mut Pair, node: &Node, sign: Sign) -> Result<(), AllocError>
    requires { ComesNext node.now pair.old.sure pair.old.maybe }
    ensures { OnOk result (AreAdded (λ t. sign) (node.now.a +ℤ pos 1) node.now.b
        pair.old.sure pair.old.maybe pair.new.sure pair.new.maybe) }
{
    pair.add_with_sign(node.a + 1, node.b, sign)
}

// Adds the times of a node after its first, in which the function has one turn: the last time with the sign after the
// turn, and those before it as open. The only error is out of memory.
fn add_node_with_turn(pair: &mut Pair, node: &Node, turn: Turn) -> Result<(), AllocError>
    requires { ComesNext node.now pair.old.sure pair.old.maybe }
    ensures { OnOk result (AreAdded
        (λ t. if int_lt t node.now.b then Open else sign_after turn)
        (node.now.a +ℤ pos 1) node.now.b
        pair.old.sure pair.old.maybe pair.new.sure pair.new.maybe) }
{
    pair.add_with_sign(node.a + 1, node.b - 1, Sign::Open)?;
    pair.add_with_sign(node.b, node.b, sign_after(turn))
}

// Returns the sign of a function at the last time of a node, at which the whole of a clear node has it.
fn sign_at_end<P: SignSource>(signs: &P, node: &Node) -> Sign
    requires { P.fits signs.now node.now.b }
    ensures { result ≡ P.sign signs.now node.now.b }
{
    signs.sign_at(node.b)
}

// Returns the sign of a function after a turn: `Yes` after a rise, since the function is then at least 0, and `No`
// after a fall.
fn sign_after(turn: Turn) -> Sign
    ensures { result ≡ sign_after turn }
{
    match turn {
        Turn::Rise => Sign::Yes,
        Turn::Fall => Sign::No,
    }
}
