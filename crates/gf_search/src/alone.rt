// The search of an ephemeris in the calling thread. Nothing waits.
ghost use Rattle.std.specs.Prelude.{◌≡◌, ◌<◌, ◌≤◌, All, IfErr, IfOk, true};
ghost use Rattle.spec_trees.specs.Cuts.{CanCut, cut_of};
ghost use Rattle.spec_trees.specs.Tree.{IsValid, leaf_count, leaves};
ghost use Rattle.spec_searches.specs.Found.{rules};
ghost use Rattle.spec_stills.specs.Still.{IsStill};
ghost use Rattle.still_judge.specs.Manners.{rules_in};
ghost use Rattle.spec_outcomes.specs.Outcomes.{Stops};
ghost use Rattle.spec_outcomes.specs.Queries.{IsQuery, is_within, search};
ghost use Rattle.gf_search.specs.Wanted.{AreWanted, IsWanted, StopsAt};
ghost use Rattle.gf_search.specs.Walks.{IsWalk};

use crate::by_stills::wanted_leaves;
use crate::events::sound_event;
use crate::found::Found;
use crate::tree::Tree;
use crate::wanted::Wanted;
use eph_model::Ephemeris;
use event_judge::{EventJudge, EventSearch, Judge, Naming, RememberingJudge};
use gf_hooks::{CutRule, Cutter, rule_cut};
use gf_query::{judge, root_of};
use halving::{RunError, run_one};
use spec_outcomes::{Query, Refusal, Span};
use spec_stills::eager_laws::eager_trees_are_sound;
use spec_stills::served_laws::served_trees_are_sound;
use spec_trees::{Leaf, Node};
use std::alloc::{AllocError, Global};
use std::marker::Brand;
use still_judge::{Manner, SignJudge, StillJudge, StillList};
use still_spans::{StillSpan, still_spans};

/// Returns the leaves of a judge's tree at a root, in order of time. Errors: `TooManyLeaves` if there are more than
/// `most`, or `Memory`.
pub(crate) fn leaves_by_one<J: Judge>(
    alloc: Global,
    most: u32,
    judge: &J,
    root: Node,
) -> Result<Vec<Leaf>, Refusal>
    requires valid { IsValid (J.rules judge.now) root }
    ensures leaves { IfOk result (λ found. found.items ≡ leaves (J.rules judge.now) root) }
    ensures few { IfOk result (λ found. leaf_count (J.rules judge.now) root ≤ most) }
    ensures stopped { IfErr result (λ refusal.
        StopsAt most (leaf_count (J.rules judge.now) root) refusal) }
{
    match run_one(alloc, judge, root, most) {
        Ok(found) => Ok(found),
        Err(RunError::TooMany) => Err(Refusal::TooManyLeaves { most }),
        Err(RunError::Memory) => Err(Refusal::Memory),
    }
}

// Finds still spans of a search over the times of a node, or none if the search does not halve its nodes: no span
// would serve one. The only error is out of memory.
fn spans_worth_seeking(
    alloc: Global,
    search: &EventSearch,
    node: Node,
) -> Result<Vec<StillSpan>, AllocError>
    ensures { IfOk result (λ spans. All (IsStill search.now) spans.items) }
{
    match search.rule() {
        CutRule::Third => Ok(Vec::new(alloc)),
        CutRule::Half => still_spans(alloc, search, node.a, node.b),
    }
}

// Returns still spans of a search over the times of a node, in order of time. The only error is `Memory`.
fn still_spans_alone(alloc: Global, search: &EventSearch, node: Node) -> Result<StillList, Refusal>
    ensures still { IfOk result (λ stills. All (IsStill search.now) stills) }
    ensures memory { IfErr result (λ refusal. refusal ≡ Refusal.Memory) }
{
    match spans_worth_seeking(alloc, search, node) {
        Ok(spans) => Ok(StillList::new(spans)),
        Err(_) => Err(Refusal::Memory),
    }
}

// Returns the leaves of the tree of a search in a manner, in order of time. Errors: `TooManyLeaves` if there are more
// than `most`, or `Memory`.
fn leaves_in_manner_alone<P: Judge, J: Judge>(
    alloc: Global,
    most: u32,
    tree: &Tree<'_, '_, P, J>,
    manner: Manner,
) -> Result<Vec<Leaf>, Refusal>
    ensures { IsWalk most (rules_in manner tree.now.search.now tree.now.stills.now)
        tree.now.root result }
{
    eager_trees_are_sound();
    served_trees_are_sound();
    match manner {
        Manner::Exact if tree.stills.is_empty() => leaves_by_one(
            alloc, most, tree.plain, tree.root,
        ),
        _ => {
            let judge = StillJudge::new(tree.judge, tree.search, tree.stills, manner);
            leaves_by_one(alloc, most, &judge, tree.root)
        }
    }
}

// Returns the leaves that are wanted of the tree of a search at a root, in order of time, by a judge of its nodes and
// by judges before it, as `wanted_leaves_by_crew` does. Errors: `TooManyLeaves` if the tree has more leaves than
// `most`, or `Memory`.
fn wanted_leaves_alone<'t, P: Judge>(
    alloc: Global,
    most: u32,
    wanted: Wanted,
    plain: &'t P,
    search: &'t EventSearch<'_>,
    stills: &'t StillList,
    root: Node,
) -> Result<Vec<Leaf>, Refusal>
    requires rules { P.rules plain.now ≡ rules search.now }
    requires still { All (IsStill search.now) stills.now }
    requires valid { IsValid (rules search.now) root }
    ensures found { IfOk result (λ found. AreWanted wanted most search.now root found.items) }
    ensures stopped { IfErr result (λ refusal.
        StopsAt most (leaf_count (rules search.now) root) refusal) }
{
    let Ok(signs) = SignJudge::new(alloc, plain, search, stills) else {
        return Err(Refusal::Memory);
    };
    let tree = Tree {
        plain: &*plain,
        judge: &signs,
        search: &*search,
        stills: &*stills,
        root,
    };
    let walk = |manner: Manner| -> Result<Vec<Leaf>, Refusal>
        ensures { IsWalk most
            (rules_in manner tree.entry.search.now tree.entry.stills.now) tree.entry.root result }
    { leaves_in_manner_alone(alloc, most, &tree, manner) };
    wanted_leaves(&walk, most, &tree, wanted)
}

// Returns the leaves that are wanted of the tree at a root of the search that a call has named, in order of time, by a
// judge of its nodes, with the still spans by which they were found. What is found out of the search is remembered.
// Errors: `TooManyLeaves` if the tree has more leaves than `most`, or `Memory`.
fn found_of_named_search_alone<N: Naming + Send + Sync, J: Judge>(
    alloc: Global,
    most: u32,
    wanted: Wanted,
    judge: &J,
    search: &EventSearch,
    root: Node,
) -> Result<Found, Refusal>
    requires named { search.now ≡ N.search }
    requires rules { J.rules judge.now ≡ rules search.now }
    requires valid { IsValid (rules search.now) root }
    ensures found { IfOk result (λ found.
        AreWanted wanted most search.now root found.leaves.items) }
    ensures still { IfOk result (λ found. All (IsStill search.now) found.stills) }
    ensures stopped { IfErr result (λ refusal.
        StopsAt most (leaf_count (rules search.now) root) refusal) }
{
    let Ok(plain) = RememberingJudge::<N, J>::new(alloc, judge, search) else {
        return Err(Refusal::Memory);
    };
    let Ok(stills) = still_spans_alone(alloc, search, root) else {
        return Err(Refusal::Memory);
    };
    match wanted_leaves_alone(alloc, most, wanted, &plain, search, &stills, root) {
        Ok(leaves) => Ok(Found { leaves, stills }),
        Err(refusal) => Err(refusal),
    }
}

/// Searches a span of an ephemeris for the events of a query and returns the leaves that are wanted, with the still
/// spans by which they were found. The header is read for what the call ensures. Errors: the fault of the event;
/// `TooManyLeaves` if the search has more leaves than `most`; `Memory`.
pub(crate) fn found_alone(
    alloc: Global,
    most: u32,
    wanted: Wanted,
    ephemeris: &Ephemeris,
    query: &Query,
    span: Span,
) -> Result<Found, Refusal>
    requires block { 0 < ephemeris.now.blocks }
    requires query { IsQuery query.now }
    requires within { is_within span ephemeris.now ≡ true }
    ensures found { IfOk result (λ found.
        IsWanted wanted most query.now ephemeris.now span found.leaves.items) }
    ensures still { IfOk result (λ found.
        All (IsStill (search query.now ephemeris.now)) found.stills) }
    ensures stopped { IfErr result (λ refusal.
        Stops most query.now ephemeris.now span refusal) }
{
    let _header = ephemeris.header();
    let event = sound_event(alloc, ephemeris, query, span)?;
    let rule = query.cut;
    let Ok(cut) = Box::new(
        alloc,
        move |a: i64, b: i64| -> i64
            requires { CanCut a b }
            ensures { result ≡ cut_of rule a b }
        { rule_cut(rule, a, b) },
    ) else {
        return Err(Refusal::Memory);
    };
    let judge = judge(ephemeris, query, event, Cutter::new(rule, cut));
    let root = root_of(span);
    found_of_named_search_alone::<Brand, EventJudge>(
        alloc,
        most,
        wanted,
        &judge,
        &judge.search,
        root,
    )
}
