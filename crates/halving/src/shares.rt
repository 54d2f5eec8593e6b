// The leaves of a root, by workers that walk shares of its tree.
ghost use Rattle.std.specs.Prelude.{◌≡◌, ◌+◌, ◌<◌, ◌≤◌, ◌++◌, length, List, Err, IfOk, IfErr, IfSome, IfNone, OnOk};
ghost use Rattle.std.specs.List.{insert};
ghost use Rattle.std.specs.Thread.{IsSync};
ghost use Rattle.spec_trees.specs.Tree.{Covers, IsValid, leaf_count, leaves};
ghost use Rattle.spec_trees.specs.declared.tree.Leaf.{Leaf};
ghost use Rattle.halving.specs.Shares.{AreEnough, AreJudged, IsJudged, IsWalk, IsWidest, NoneIsSplit, leaves_of, split_width};
ghost use Rattle.halving.specs.declared.run.RunError.TheVariants.{TooMany, Memory};

use crate::run::{RunError, append, run_one};
use gf_hooks::{Judge, rules_are_sound};
use spec_trees::{Leaf, Node, Verdict};
use std::alloc::Global;
use std::thread::{Threads, join};

/// A node and its verdict.
#[derive(Clone, Copy)]
pub(crate) struct Share {
    pub(crate) node: Node,
    pub(crate) verdict: Verdict,
}

// Judges a valid node, and returns it with its verdict as a share of the tree.
fn judged_share<J: Judge>(judge: &J, node: Node) -> Share
    requires { IsValid (J.rules judge.now) node }
    ensures judged { IsJudged (J.rules judge.now) result }
    ensures node { result.node ≡ node }
{
    Share {
        node,
        verdict: judge.judge(node),
    }
}

// Inserts a share into a list, before the share that has that place. The only error is out of memory.
fn insert_share(shares: &mut Vec<Share>, place: usize, share: Share) -> Result<(), RunError>
    requires { place ≤ length shares.old.items }
    ensures ok { OnOk result (shares.new.items ≡ insert shares.old.items place share) }
    ensures err { IfErr result (λ e. e ≡ Memory) }
{
    match shares.insert(place, share) {
        Ok(()) => Ok(()),
        Err(_) => Err(RunError::Memory),
    }
}

// Returns the width in ticks of a share's node if that node is to be split, and else 0.
fn split_width(share: Share) -> u64
    ensures { result ≡ split_width share }
{
    match share.verdict {
        Verdict::Split => share.node.b.abs_diff(share.node.a),
        Verdict::Clear => 0,
        Verdict::One(_) => 0,
        Verdict::Undecided => 0,
    }
}

// Returns the place of the widest share whose node is to be split, the leftmost of equals, or none if no share is to
// be split.
fn place_of_widest_split(shares: &[Share]) -> Option<usize>
    ensures some { IfSome result (IsWidest shares.now) }
    ensures none { IfNone result (NoneIsSplit shares.now) }
{
    let mut place = 0;
    let mut widest = 0;
    for k in 0..shares.len() {
        let width = split_width(shares[k]);
        if width > widest {
            place = k;
            widest = width;
        }
    }
    if widest > 0 { Some(place) } else { None }
}

// Replaces the share at a place, whose node is to be split, by the shares of its two parts. The only error is out of
// memory.
fn cut_share<J: Judge>(judge: &J, shares: &mut Vec<Share>, place: usize) -> Result<(), RunError>
    requires judged { AreJudged (J.rules judge.now) shares.old.items }
    requires widest { IsWidest shares.old.items place }
    ensures judged { OnOk result (AreJudged (J.rules judge.now) shares.new.items) }
    ensures leaves { OnOk result (leaves_of (J.rules judge.now) shares.new.items
        ≡ leaves_of (J.rules judge.now) shares.old.items) }
    ensures length { OnOk result (length shares.new.items ≡ length shares.old.items + 1) }
    ensures err { IfErr result (λ e. e ≡ Memory) }
{
    rules_are_sound(judge);
    let share = shares.remove(place);
    let (left, right) = judge.cut(share.node);
    insert_share(shares, place, judged_share(judge, right))?;
    insert_share(shares, place, judged_share(judge, left))
}

// Cuts the root's tree from the top, the widest node first, and returns its parts as shares. It stops when there is
// one share for each worker, or no share is to be split. The only error is out of memory.
fn deal_shares<J: Judge>(
    alloc: Global,
    judge: &J,
    root: Node,
    workers: u32,
) -> Result<Vec<Share>, RunError>
    requires workers { 1 ≤ workers }
    requires valid { IsValid (J.rules judge.now) root }
    ensures judged { IfOk result (λ shares. AreJudged (J.rules judge.now) shares.items) }
    ensures leaves { IfOk result (λ shares. leaves_of (J.rules judge.now) shares.items
        ≡ leaves (J.rules judge.now) root) }
    ensures enough { IfOk result (λ shares. AreEnough workers shares.items) }
    ensures err { IfErr result (λ e. e ≡ Memory) }
{
    let mut shares = Vec::new(alloc);
    append(&mut shares, judged_share(judge, root))?;
    while shares.len() < workers as usize {
        let Some(place) = place_of_widest_split(&shares) else {
            return Ok(shares);
        };
        cut_share(judge, &mut shares, place)?;
    }
    Ok(shares)
}

// Returns the leaves of two neighbouring parts of a tree, the left ones first, or `TooMany` if they are more than
// `limit` together. An error of either part is returned, the left one's first.
fn join_leaves(
    left: Result<Vec<Leaf>, RunError>,
    right: Result<Vec<Leaf>, RunError>,
    limit: u32,
) -> Result<Vec<Leaf>, RunError>
    ensures { (xs ys : List Leaf) → IsWalk xs limit left → IsWalk ys limit right
        → IsWalk (xs ++ ys) limit result }
{
    let mut found = match left {
        Ok(found) => found,
        Err(e) => return Err(e),
    };
    let mut more = match right {
        Ok(more) => more,
        Err(e) => return Err(e),
    };
    if found.len() + more.len() > limit as usize {
        return Err(RunError::TooMany);
    }
    match found.append(&mut more) {
        Ok(()) => Ok(found),
        Err(_) => Err(RunError::Memory),
    }
}

// Returns the leaves of all shares from left to right, or `TooMany` if they are more than `limit`. It halves the list
// down to single shares, and walks both halves at once in two threads.
fn walk_shares<R: Threads + Sync, J: Judge>(
    rt: &R,
    alloc: Global,
    judge: &J,
    shares: &[Share],
    limit: u32,
) -> Result<Vec<Leaf>, RunError>
    requires some { 0 < length shares.now }
    requires judged { AreJudged (J.rules judge.now) shares.now }
    ensures { IsWalk (leaves_of (J.rules judge.now) shares.now) limit result }
{
    if shares.len() == 1 {
        return run_one(alloc, judge, shares[0].node, limit);
    }
    let (left, right) = shares.split_at(shares.len() / 2);
    let (first, second) = join(
        rt,
        || -> Result<Vec<Leaf>, RunError>
            requires { IsSync R.row × (0 < length left.now)
                × AreJudged (J.rules judge.now) left.now }
            ensures { IsWalk (leaves_of (J.rules judge.entry.now) left.entry.now) limit result }
        { walk_shares(rt, alloc, judge, left, limit) },
        || -> Result<Vec<Leaf>, RunError>
            requires { IsSync R.row × (0 < length right.now)
                × AreJudged (J.rules judge.now) right.now }
            ensures { IsWalk (leaves_of (J.rules judge.entry.now) right.entry.now) limit result }
        { walk_shares(rt, alloc, judge, right, limit) },
    );
    join_leaves(first, second, limit)
}

/// Returns the leaves of a valid root's tree from left to right, or `TooMany` if there are more than `limit`, or
/// `Memory`. The tree is cut from the top into a share for each of 1 to 64 workers. Each share is walked as by
/// `run_one`, in a thread of its own if one can be made.
pub fn run_shares<R: Threads + Sync, J: Judge>(
    rt: &R,
    alloc: Global,
    judge: &J,
    root: Node,
    workers: u32,
    limit: u32,
) -> Result<Vec<Leaf>, RunError>
    requires workers { (1 ≤ workers) × (workers ≤ 64) }
    requires valid { IsValid (J.rules judge.now) root }
    ensures leaves { IfOk result (λ found. found.items ≡ leaves (J.rules judge.now) root) }
    ensures cover { IfOk result (λ found. Covers root.a found.items root.b) }
    ensures few { IfOk result (λ found. length found.items ≤ limit) }
    ensures too_many { result ≡ Err TooMany → limit < leaf_count (J.rules judge.now) root }
{
    rules_are_sound(judge);
    let shares = match deal_shares(alloc, judge, root, workers) {
        Ok(shares) => shares,
        Err(e) => return Err(e),
    };
    walk_shares(rt, alloc, judge, &shares, limit)
}
