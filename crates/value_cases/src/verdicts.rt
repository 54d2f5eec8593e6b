// Rows of the verdicts on the nodes of searches, and of where these are cut.
ghost use Rattle.std.specs.Prelude.{◌≡◌, ◌≤ℤ◌, IfOk, pos};
ghost use Rattle.spec_trees.specs.Cuts.{CanCut, cut_of};
ghost use Rattle.spec_trees.specs.Tree.{IsValid};
ghost use Rattle.spec_kinds.specs.Asks.{IsAsk};
ghost use Rattle.value_cases.specs.Nodes.{IsWithin};

use crate::asks::{next_ask, scene_of_ask};
use crate::events::event_of_ask;
use crate::fields::{Fields, RowError};
use crate::names::next_cut_rule;
use crate::scenes::states_of_scene;
use eph_model::Ephemeris;
use event_judge::EventJudge;
use gf_hooks::{Cutter, rule_cut};
use halving::{Judge, Node, Turn, Verdict};
use spec_kinds::Ask;
use spec_trees::CutRule;
use std::alloc::Global;

// The time at which the parts of a node meet, and the depth of each.
type Meeting = (i64, [u32; 2]);

// A verdict, and where the parts of a node meet that is split.
type Judgement = (Verdict, Option<Meeting>);

// Reads a node of a search: its two times, in order and within those of the ephemeris, and its depth, which is at most
// `depth`. Any other is malformed.
fn next_node(ephemeris: &Ephemeris, depth: u32, fields: &mut Fields<'_>) -> Result<Node, RowError>
    ensures { IfOk result (IsWithin ephemeris.now depth) }
{
    let node = Node {
        a: fields.next_number::<i64>(),
        b: fields.next_number::<i64>(),
        depth: fields.next_number::<u32>(),
    };
    if node.a < ephemeris.start() || node.b <= node.a || ephemeris.end() < node.b {
        return Err(RowError::Malformed);
    }
    if depth < node.depth {
        return Err(RowError::Malformed);
    }
    Ok(node)
}

// Reads the time at which a row expects that the two parts of a node meet, and the depth that both have.
fn expected_meeting(fields: &mut Fields<'_>) -> Meeting {
    let time = fields.next_number::<i64>();
    let depth = fields.next_number::<u32>();
    (time, [depth, depth])
}

// Reads the verdict that a row expects, and for a node that is split the time at which its parts meet and their depth.
fn expected_judgement(fields: &mut Fields<'_>) -> Judgement {
    let verdict = match fields.next_word() {
        "clear" => Verdict::Clear,
        "rise" => Verdict::One(Turn::Rise),
        "fall" => Verdict::One(Turn::Fall),
        "undecided" => Verdict::Undecided,
        "split" => Verdict::Split,
        _ => {
            fields.refuse();
            Verdict::Clear
        }
    };
    let meeting = match verdict {
        Verdict::Split => Some(expected_meeting(fields)),
        _ => None,
    };
    (verdict, meeting)
}

// Returns the verdict of a judge on a valid node, and for a node that is split where its two parts meet.
fn judgement_on<J: Judge>(judge: &J, node: Node) -> Judgement
    requires { IsValid (J.rules judge.now) node }
{
    let verdict = judge.judge(node);
    let meeting = match verdict {
        Verdict::Split => Some(meeting_of_parts(judge.cut(node))),
        _ => None,
    };
    (verdict, meeting)
}

// Returns the time at which the left and the right part of a node meet, and their depths. It is read from the left
// part: the judge's contract says that the right part starts where the left one ends.
fn meeting_of_parts((left, right): (Node, Node)) -> Meeting {
    (left.b, [left.depth, right.depth])
}

// A width and a depth down to which nodes are split, and the rule by which they are cut.
#[derive(Clone, Copy)]
struct Splitting {
    width: i64,
    depth: u32,
    rule: CutRule,
}

// Reads how a search splits nodes: the width, of at least 1, and the depth down to which it does, and the rule by
// which it cuts them.
fn next_splitting(fields: &mut Fields<'_>) -> Result<Splitting, RowError>
    ensures { IfOk result (λ splitting. pos 1 ≤ℤ splitting.width) }
{
    let width = fields.next_number::<i64>();
    if width < 1 {
        return Err(RowError::Malformed);
    }
    Ok(Splitting {
        width,
        depth: fields.next_number::<u32>(),
        rule: next_cut_rule(fields),
    })
}

// Returns the verdict on a node in the search for the event of an ask, and where the node is cut, with a judge that
// cuts by the given cutter.
fn judgement_by_cutter(
    alloc: Global,
    ephemeris: &Ephemeris,
    ask: &Ask,
    splitting: Splitting,
    cutter: Cutter,
    node: Node,
) -> Result<Judgement, RowError>
    requires ask { IsAsk ask.now }
    requires width { pos 1 ≤ℤ splitting.width }
    requires node { IsWithin ephemeris.now splitting.depth node }
{
    let states = states_of_scene(ephemeris, scene_of_ask(ask))?;
    let event = event_of_ask(alloc, ephemeris, ask)?;
    let (width, depth) = (splitting.width, splitting.depth);
    let judge = EventJudge::new(states, ephemeris, event, width, depth, cutter);
    Ok(judgement_on(&judge, node))
}

// Returns the verdict on a node in the search for the event of an ask, and where the node is cut. It makes the cutter,
// which holds the closure that cuts by the rule of the search, in a box.
fn judgement_in_search(
    alloc: Global,
    ephemeris: &Ephemeris,
    ask: &Ask,
    splitting: Splitting,
    node: Node,
) -> Result<Judgement, RowError>
    requires ask { IsAsk ask.now }
    requires width { pos 1 ≤ℤ splitting.width }
    requires node { IsWithin ephemeris.now splitting.depth node }
{
    let rule = splitting.rule;
    let cut = move |from: i64, to: i64| -> i64
        requires { CanCut from to }
        ensures { result ≡ cut_of rule from to }
    { rule_cut(rule, from, to) };
    let Ok(cut) = Box::new(alloc, cut) else {
        return Err(RowError::Memory);
    };
    judgement_by_cutter(
        alloc,
        ephemeris,
        ask,
        splitting,
        Cutter::new(rule, cut),
        node,
    )
}

/// Compares a verdict: the row has an ask, a width, a depth and a rule by which nodes are cut, a node, the verdict on
/// it, and, if the node is split, the time of the cut and the depth of its parts.
pub(crate) fn verdict_agrees(
    alloc: Global,
    ephemeris: &Ephemeris,
    fields: &mut Fields<'_>,
) -> Result<bool, RowError> {
    let ask = next_ask(fields)?;
    let splitting = next_splitting(fields)?;
    let node = next_node(ephemeris, splitting.depth, fields)?;
    let expected = expected_judgement(fields);
    Ok(judgement_in_search(alloc, ephemeris, &ask, splitting, node)? == expected)
}
