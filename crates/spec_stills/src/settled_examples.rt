// Worked values of settled leaves, by computation. The calls do nothing when they run.
ghost use Rattle.std.specs.Prelude.{◌≡◌, true, false, pos};
ghost use Rattle.spec_trees.specs.declared.tree.Mark.TheVariants as M;
ghost use Rattle.spec_trees.specs.declared.tree.Turn.TheVariants.{Rise};
ghost use Rattle.spec_trees.specs.CutExamples.{clear_at};
ghost use Rattle.spec_trees.specs.Tree.{leaf_of};
ghost use Rattle.spec_events.specs.VerdictExamples.{node_at};
ghost use Rattle.spec_stills.specs.Settled.{clears, part_with, settled_by};

/// Works out which nodes the clear leaf from 60 to 68 clears: itself and the node from 64 to 65 within it, but neither
/// the one from 67 to 69 nor the one from 59 to 61, which only overlap it. A leaf with an event or an undecided one
/// clears nothing.
pub fn a_clear_leaf_clears_nodes_within_it()
    ensures inside { clears (node_at (pos 64) (pos 65) 9) (clear_at 6 (pos 60) (pos 68)) ≡ true }
    ensures whole { clears (node_at (pos 60) (pos 68) 6) (clear_at 6 (pos 60) (pos 68)) ≡ true }
    ensures over_the_end { clears (node_at (pos 67) (pos 69) 8) (clear_at 6 (pos 60) (pos 68)) ≡ false }
    ensures over_the_begin { clears (node_at (pos 59) (pos 61) 8) (clear_at 6 (pos 60) (pos 68)) ≡ false }
    ensures one { clears (node_at (pos 64) (pos 65) 9)
        (leaf_of (node_at (pos 60) (pos 68) 6) (M.One Rise)) ≡ false }
    ensures undecided { clears (node_at (pos 64) (pos 65) 9)
        (leaf_of (node_at (pos 60) (pos 68) 6) M.Undecided) ≡ false }
{}

/// Works out what settling makes of the leaf from 64 to 65: if it lies in a clear leaf of the search's tree (`true`),
/// it becomes clear if it was undecided, and stays if it has one event. Else it stays undecided.
pub fn only_undecided_leaves_are_settled()
    ensures cleared { settled_by true (leaf_of (node_at (pos 64) (pos 65) 9) M.Undecided)
        ≡ clear_at 9 (pos 64) (pos 65) }
    ensures undecided { settled_by false (leaf_of (node_at (pos 64) (pos 65) 9) M.Undecided)
        ≡ leaf_of (node_at (pos 64) (pos 65) 9) M.Undecided }
    ensures one { settled_by true (leaf_of (node_at (pos 64) (pos 65) 9) (M.One Rise))
        ≡ leaf_of (node_at (pos 64) (pos 65) 9) (M.One Rise) }
{}

/// Works out which of two parts, from 60 to 64 and from 64 to 68, holds a node: the first if the node starts before 64,
/// as the one from 63 to 64, else the second.
pub fn the_part_of_a_node_is_found_by_its_start()
    ensures first { part_with (node_at (pos 60) (pos 64) 7, node_at (pos 64) (pos 68) 7)
        (node_at (pos 63) (pos 64) 9) ≡ node_at (pos 60) (pos 64) 7 }
    ensures second { part_with (node_at (pos 60) (pos 64) 7, node_at (pos 64) (pos 68) 7)
        (node_at (pos 64) (pos 65) 9) ≡ node_at (pos 64) (pos 68) 7 }
{}
