// The search of an ephemeris by the workers of a crew. Here alone a search waits and starts threads.
ghost use Rattle.std.specs.Prelude.{◌≡◌, ◌<◌, All, IfErr, IfOk, true};
ghost use Rattle.spec_trees.specs.Cuts.{CanCut, cut_of};
ghost use Rattle.spec_trees.specs.Tree.{IsValid, leaf_count};
ghost use Rattle.spec_searches.specs.Found.{rules};
ghost use Rattle.spec_stills.specs.Still.{IsStill};
ghost use Rattle.still_judge.specs.Manners.{rules_in};
ghost use Rattle.spec_outcomes.specs.Outcomes.{Stops};
ghost use Rattle.spec_outcomes.specs.Queries.{IsQuery, is_within, search};
ghost use Rattle.gf_search.specs.Wanted.{AreWanted, IsWanted, StopsAt};
ghost use Rattle.gf_search.specs.Walks.{IsWalk};

use crate::book::leaves_by_crew;
use crate::by_stills::wanted_leaves;
use crate::crew::Crew;
use crate::events::sound_event;
use crate::found::Found;
use crate::tree::Tree;
use crate::wanted::Wanted;
use eph_model::Ephemeris;
use event_judge::{EventJudge, EventSearch, Judge, Naming, RememberingJudge};
use gf_edges::Gate;
use gf_hooks::{Cutter, rule_cut};
use gf_query::{judge, root_of};
use spec_outcomes::{Query, Refusal, Span};
use spec_stills::eager_laws::eager_trees_are_sound;
use spec_stills::served_laws::served_trees_are_sound;
use spec_trees::{Leaf, Node};
use std::marker::Brand;
use std::sync::Wait;
use std::thread::Threads;
use still_judge::{Manner, SignJudge, StillJudge, StillList};
use still_spans::still_spans_by;

// Finds still spans of a search over the times of a node, by the workers of a crew, and returns them in order of
// time. The only error is `Memory`.
fn still_spans_over_node<R: Threads + Sync, G>(
    crew: &Crew<R, G>,
    search: &EventSearch,
    node: Node,
) -> Result<StillList, Refusal>
    ensures still { IfOk result (λ stills. All (IsStill search.now) stills) }
    ensures memory { IfErr result (λ refusal. refusal ≡ Refusal.Memory) }
{
    match still_spans_by(
        crew.runtime,
        crew.alloc,
        search,
        node.a,
        node.b,
        crew.workers,
    ) {
        Ok(spans) => Ok(StillList::new(spans)),
        Err(_) => Err(Refusal::Memory),
    }
}

// Returns the leaves of the tree of a search in a manner, in order of time, as the workers of a crew find them.
// Errors: `TooManyLeaves` if there are more than the crew may find, or `Memory`.
fn leaves_in_manner_by_crew<R: Threads + Wait + Sync, P: Judge, J: Judge, G: Gate>(
    crew: &Crew<R, G>,
    tree: &Tree<'_, '_, P, J>,
    manner: Manner,
) -> Result<Vec<Leaf>, Refusal>
    ensures { IsWalk crew.now.max_leaves (rules_in manner tree.now.search.now tree.now.stills.now)
        tree.now.root result }
{
    eager_trees_are_sound();
    served_trees_are_sound();
    match manner {
        Manner::Exact if tree.stills.is_empty() => leaves_by_crew(crew, tree.plain, tree.root),
        _ => {
            let judge = StillJudge::new(tree.judge, tree.search, tree.stills, manner);
            leaves_by_crew(crew, &judge, tree.root)
        }
    }
}

// Returns the leaves that are wanted of the tree of a search at a root, in order of time, by a judge of its nodes.
// Before it stand judges that take from still spans of the search what they decide: by the spans, and then by the
// signs at the ends of nodes. Errors: `TooManyLeaves` if the tree has more leaves than the crew may find, or `Memory`.
fn wanted_leaves_by_crew<'t, R: Threads + Wait + Sync, P: Judge, G: Gate>(
    crew: &Crew<R, G>,
    wanted: Wanted,
    plain: &'t P,
    search: &'t EventSearch<'_>,
    stills: &'t StillList,
    root: Node,
) -> Result<Vec<Leaf>, Refusal>
    requires rules { P.rules plain.now ≡ rules search.now }
    requires still { All (IsStill search.now) stills.now }
    requires valid { IsValid (rules search.now) root }
    ensures found { IfOk result (λ found.
        AreWanted wanted crew.now.max_leaves search.now root found.items) }
    ensures stopped { IfErr result (λ refusal.
        StopsAt crew.now.max_leaves (leaf_count (rules search.now) root) refusal) }
{
    let Ok(signs) = SignJudge::new(crew.alloc, plain, search, stills) else {
        return Err(Refusal::Memory);
    };
    let tree = Tree {
        plain: &*plain,
        judge: &signs,
        search: &*search,
        stills: &*stills,
        root,
    };
    let walk = |manner: Manner| -> Result<Vec<Leaf>, Refusal>
        ensures { IsWalk crew.entry.now.max_leaves
            (rules_in manner tree.entry.search.now tree.entry.stills.now) tree.entry.root result }
    { leaves_in_manner_by_crew(crew, &tree, manner) };
    wanted_leaves(&walk, crew.max_leaves, &tree, wanted)
}

// Returns the leaves that are wanted of the tree at a root of the search that a call has named, in order of time, by a
// judge of its nodes, with the still spans by which they were found. What one worker finds out of the search is
// remembered for all of them. Errors: `TooManyLeaves` if the tree has more leaves than the crew may find, or `Memory`.
fn found_of_named_search_by_crew<
    R: Threads + Wait + Sync,
    N: Naming + Send + Sync,
    J: Judge,
    G: Gate,
>(
    crew: &Crew<R, G>,
    wanted: Wanted,
    judge: &J,
    search: &EventSearch,
    root: Node,
) -> Result<Found, Refusal>
    requires named { search.now ≡ N.search }
    requires rules { J.rules judge.now ≡ rules search.now }
    requires valid { IsValid (rules search.now) root }
    ensures found { IfOk result (λ found.
        AreWanted wanted crew.now.max_leaves search.now root found.leaves.items) }
    ensures still { IfOk result (λ found. All (IsStill search.now) found.stills) }
    ensures stopped { IfErr result (λ refusal.
        StopsAt crew.now.max_leaves (leaf_count (rules search.now) root) refusal) }
{
    let Ok(plain) = RememberingJudge::<N, J>::new(crew.alloc, judge, search) else {
        return Err(Refusal::Memory);
    };
    let Ok(stills) = still_spans_over_node(crew, search, root) else {
        return Err(Refusal::Memory);
    };
    match wanted_leaves_by_crew(crew, wanted, &plain, search, &stills, root) {
        Ok(leaves) => Ok(Found { leaves, stills }),
        Err(refusal) => Err(refusal),
    }
}

/// Searches a span of an ephemeris for the events of a query, by the workers of a crew, and returns the leaves that are
/// wanted, with the still spans by which they were found. The header is read for what the call ensures. Errors: the
/// fault of the event; `TooManyLeaves` if the search has more leaves than the crew may find; `Memory`.
pub(crate) fn found_by_crew<R: Threads + Wait + Sync, G: Gate>(
    crew: &Crew<R, G>,
    wanted: Wanted,
    ephemeris: &Ephemeris,
    query: &Query,
    span: Span,
) -> Result<Found, Refusal>
    requires block { 0 < ephemeris.now.blocks }
    requires query { IsQuery query.now }
    requires within { is_within span ephemeris.now ≡ true }
    ensures found { IfOk result (λ found.
        IsWanted wanted crew.now.max_leaves query.now ephemeris.now span found.leaves.items) }
    ensures still { IfOk result (λ found.
        All (IsStill (search query.now ephemeris.now)) found.stills) }
    ensures stopped { IfErr result (λ refusal.
        Stops crew.now.max_leaves query.now ephemeris.now span refusal) }
{
    let _header = ephemeris.header();
    let event = sound_event(crew.alloc, ephemeris, query, span)?;
    let rule = query.cut;
    let Ok(cut) = Box::new(
        crew.alloc,
        move |a: i64, b: i64| -> i64
            requires { CanCut a b }
            ensures { result ≡ cut_of rule a b }
        { rule_cut(rule, a, b) },
    ) else {
        return Err(Refusal::Memory);
    };
    let judge = judge(ephemeris, query, event, Cutter::new(rule, cut));
    let root = root_of(span);
    found_of_named_search_by_crew::<R, Brand, EventJudge, G>(
        crew,
        wanted,
        &judge,
        &judge.search,
        root,
    )
}
