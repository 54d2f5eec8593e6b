// The windows that leaves in order make.
ghost use Rattle.std.specs.Prelude.{◌≡◌, ◌++◌, [], All, IfOk, OnOk};
ghost use Rattle.spec_trees.specs.Tree.{HasTime};
ghost use Rattle.spec_trees.specs.Windows.{window_of, windows};
ghost use Rattle.spec_trees.specs.Runs.{ended, longer};

use spec_trees::{Holds, Leaf, Mark, Window};
use std::alloc::{AllocError, Global};

// Returns the window of a leaf, which holds `holds`: from the time after the leaf's first up to its last. The first
// time belongs to the leaf before.
fn window_of_leaf(leaf: &Leaf, holds: Holds) -> Window
    requires { HasTime leaf.now }
    ensures { result ≡ window_of leaf.now.node holds }
{
    let last = leaf.node.b;
    let first = leaf.node.a + 1;
    Window { first, last, holds }
}

// Returns the undecided window of a run of undecided leaves that is made longer by the leaf after it. Without a run the
// leaf begins one, and the window is its own.
fn extend_run(run: Option<Window>, leaf: &Leaf) -> Window
    requires { HasTime leaf.now }
    ensures { result ≡ longer run leaf.now.node }
{
    let own = window_of_leaf(leaf, Holds::Undecided);
    match run {
        Some(run) => Window {
            first: run.first,
            ..own
        },
        None => own,
    }
}

// Appends the window of a run of undecided leaves, which has ended, to the windows found so far. Without a run nothing
// is appended. The only error is out of memory.
fn add_run(found: &mut Vec<Window>, run: Option<Window>) -> Result<(), AllocError>
    ensures { OnOk result (found.new.items ≡ found.old.items ++ ended run []) }
{
    if let Some(run) = run {
        found.push(run)?;
    }
    Ok(())
}

/// Returns the windows that leaves make, in order of time. The leaves are in order of time, and each holds at least
/// one time. Each leaf with an event makes a certain window, each longest run of undecided leaves makes an undecided
/// one, and clear leaves make none. Times are ticks of TDB since J2000. The only error is out of memory.
pub fn leaf_windows(alloc: Global, leaves: &[Leaf]) -> Result<Vec<Window>, AllocError>
    requires { All HasTime leaves.now }
    ensures { IfOk result (λ v. v.items ≡ windows leaves.now) }
{
    let mut found = Vec::new(alloc);
    let mut run = None;
    for leaf in leaves {
        match leaf.mark {
            Mark::Clear => {
                add_run(&mut found, run)?;
                run = None;
            }
            Mark::One(turn) => {
                add_run(&mut found, run)?;
                run = None;
                found.push(window_of_leaf(leaf, Holds::Certain(turn)))?;
            }
            Mark::Undecided => run = Some(extend_run(run, leaf)),
        }
    }
    add_run(&mut found, run)?;
    Ok(found)
}
