// The leaves of a root, by one walk.
ghost use Rattle.std.specs.Prelude.{◌≡◌, ◌<◌, ◌≤◌, [], ◌∷◌, ◌++◌, length, Err, IfOk, IfErr, OnOk};
ghost use Rattle.spec_trees.specs.Tree.{Covers, IsValid, leaf_count, leaves};
ghost use Rattle.halving.specs.declared.run.RunError.TheVariants.{TooMany, Memory};

use gf_hooks::{Judge, rules_are_sound};
use spec_trees::{Leaf, Node};
use std::alloc::Global;

/// Why a walk has no leaves to give: they are more than the limit, or memory ran out.
#[derive(Drop, PartialEq, Eq)]
pub enum RunError {
    TooMany,
    Memory,
}

// Appends an item to a list. The only error is `Memory`: out of memory.
pub(crate) fn append<T: Drop>(list: &mut Vec<T>, item: T) -> Result<(), RunError>
    ensures ok { OnOk result (list.new.items ≡ list.old.items ++ item ∷ []) }
    ensures err { IfErr result (λ e. e ≡ Memory) }
{
    match list.push(item) {
        Ok(()) => Ok(()),
        Err(_) => Err(RunError::Memory),
    }
}

/// Returns the leaves of a valid root's tree from left to right, or `TooMany` if there are more than `limit`, or
/// `Memory`. Besides the next node only right parts of nodes wait, so memory is taken for the leaves and for the
/// tree's depth.
pub fn run_one<J: Judge>(
    alloc: Global,
    judge: &J,
    root: Node,
    limit: u32,
) -> Result<Vec<Leaf>, RunError>
    requires { IsValid (J.rules judge.now) root }
    ensures leaves { IfOk result (λ found. found.items ≡ leaves (J.rules judge.now) root) }
    ensures cover { IfOk result (λ found. Covers root.a found.items root.b) }
    ensures few { IfOk result (λ found. length found.items ≤ limit) }
    ensures too_many { result ≡ Err TooMany → limit < leaf_count (J.rules judge.now) root }
{
    rules_are_sound(judge);
    let mut found = Vec::new(alloc);
    let mut waiting = Vec::new(alloc);
    append(&mut waiting, root)?;
    while let Some(node) = waiting.pop() {
        match judge.judge(node).mark() {
            Some(mark) => {
                if found.len() == limit as usize {
                    return Err(RunError::TooMany);
                }
                append(&mut found, Leaf { node, mark })?;
            }
            None => {
                let (left, right) = judge.cut(node);
                append(&mut waiting, right)?;
                append(&mut waiting, left)?;
            }
        }
    }
    Ok(found)
}
