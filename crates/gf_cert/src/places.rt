// The place of a leaf among the nodes that wait for their leaves.
ghost use Rattle.std.specs.Prelude.{◌≡◌, reverse, IfOk, Some};
ghost use Rattle.spec_trees.specs.declared.tree.Node.{Node};
ghost use Rattle.spec_trees.specs.Tree.{IsValid};
ghost use Rattle.spec_searches.specs.Found.{rules};
ghost use Rattle.spec_certificates.specs.Checks.{is_mark, leaf_at, or_broken, at_line};
ghost use Rattle.spec_certificates.specs.Places.{is_same, waiting_after};
ghost use Rattle.spec_faults.specs.declared.numbers.TheConstants.{CERT_PLACE};
ghost use Rattle.gf_cert.specs.Answers.{Gives};
ghost use Rattle.gf_cert.specs.Search.{cutting};
ghost use Rattle.gf_cert.specs.Steps.{AreValid};

use crate::errors::CertError;
use crate::lines::fault_at;
use event_judge::{EventJudge, Judge, Node};
use spec_faults::{CERT_END, CERT_MARK, CERT_PLACE};
use spec_trees::{Leaf, Mark, Turn};

// Tells whether two nodes have the same first time, last time and depth.
fn are_same_node(one: Node, other: Node) -> bool
    ensures { result ≡ is_same one other }
{
    one.a == other.a && one.b == other.b && one.depth == other.depth
}

// Tells whether a mark is that of a leaf with exactly one event, which turns in the given direction: a rise or a fall.
fn is_mark_of_turn(turn: Turn, mark: Mark) -> bool
    ensures { result ≡ is_mark (Some (Mark.One turn)) mark }
{
    match mark {
        Mark::Clear => false,
        Mark::One(Turn::Rise) => matches!(turn, Turn::Rise),
        Mark::One(Turn::Fall) => matches!(turn, Turn::Fall),
        Mark::Undecided => false,
    }
}

// Tells whether the mark that a certificate gives a leaf is `found`, the mark that the verdict of its node gives. A
// node whose verdict gives none is no leaf, so no mark is right.
fn is_mark_of_leaf(found: Option<Mark>, mark: Mark) -> bool
    ensures { result ≡ is_mark found mark }
{
    match found {
        None => false,
        Some(Mark::Clear) => matches!(mark, Mark::Clear),
        Some(Mark::One(turn)) => is_mark_of_turn(turn, mark),
        Some(Mark::Undecided) => matches!(mark, Mark::Undecided),
    }
}

// Cuts the node `first`, and its left part again, until that part is `node`. Right parts go onto the stack of waiting
// nodes, whose last is the next one. If cutting does not lead to `node`, the error is that `line` breaks a rule; the
// other error is out of memory.
fn cut_down_to(
    judge: &EventJudge<'_>,
    waiting: &mut Vec<Node>,
    first: Node,
    node: Node,
    line: u32,
) -> Result<(), CertError>
    requires first { IsValid (rules judge.now.search) first }
    requires others { AreValid (rules judge.now.search) waiting.old.items }
    ensures place { Gives (λ _. reverse waiting.new.items)
        (or_broken (at_line line CERT_PLACE)
        (waiting_after (cutting judge.now.search) first (reverse waiting.old.items) node))
        result }
    ensures valid { IfOk result (λ _. IsValid (rules judge.now.search) node) }
    ensures others { IfOk result (λ _. AreValid (rules judge.now.search) waiting.new.items) }
{
    // A law, which does nothing at run time: the rules of the judge's search are sound, and they cut a valid node into
    // valid parts.
    judge.nodes_may_be_cut();
    let mut here = first;
    while !are_same_node(here, node) {
        if !judge.may_be_cut(here) {
            return Err(fault_at(line, CERT_PLACE).into());
        }
        let (left, right) = judge.parts(here);
        waiting.push(right)?;
        here = left;
    }
    Ok(())
}

/// Checks that a leaf, which the line `line` states, comes next, and takes it from the stack of waiting nodes, whose
/// last is the next one. That node is cut until it is the leaf's, and `marking`, a judge of the same search, says what
/// its mark has to be. The error is that no node waits, that cutting does not lead to the leaf, that its mark is not
/// that of the verdict, or out of memory.
pub(crate) fn place_leaf<J: Judge>(
    judge: &EventJudge<'_>,
    marking: &J,
    waiting: &mut Vec<Node>,
    leaf: Leaf,
    line: u32,
) -> Result<(), CertError>
    requires rules { J.rules marking.now ≡ rules judge.now.search }
    requires waiting { AreValid (rules judge.now.search) waiting.old.items }
    ensures place { Gives (λ _. reverse waiting.new.items)
        (leaf_at (cutting judge.now.search) line (reverse waiting.old.items) leaf) result }
    ensures valid { IfOk result (λ _. AreValid (rules judge.now.search) waiting.new.items) }
{
    let Some(first) = waiting.pop() else {
        return Err(fault_at(line, CERT_END).into());
    };
    cut_down_to(judge, waiting, first, leaf.node, line)?;
    if is_mark_of_leaf(marking.judge(leaf.node).mark(), leaf.mark) {
        Ok(())
    } else {
        Err(fault_at(line, CERT_MARK).into())
    }
}
