// Worked values of trees, leaves and windows, by computation. The calls do nothing when they run.
ghost use Rattle.std.specs.Prelude.{◌≡◌, pos, neg_ℤ};
ghost use Rattle.spec_trees.specs.Cuts.{middle};
ghost use Rattle.spec_trees.specs.Examples.{five_leaves, four_entries, four_leaves, node, single_units, three_units, three_windows};
ghost use Rattle.spec_trees.specs.Order.{ordered_leaves};
ghost use Rattle.spec_trees.specs.Tree.{leaves};
ghost use Rattle.spec_trees.specs.Windows.{windows};

/// Works out the leaves of the node from 0 to 3 that is cut after its first unit of time and then after its second:
/// three clear leaves, of one unit each.
pub fn three_units_have_three_leaves()
    ensures { leaves single_units (node (pos 0) (pos 3)) ≡ three_units }
{}

/// Works out the windows of five leaves over the times from 0 to 6: a clear one up to 2, undecided ones up to 3 and up
/// to 4, a rise at 5 and an undecided one up to 6. They are the undecided times 3 to 4, the rise at 5 and the undecided
/// time 6.
pub fn five_leaves_make_three_windows()
    ensures { windows five_leaves ≡ three_windows }
{}

/// Works out that four leaves that end at 5, 2, 4 and 6, in the order in which workers entered them, are put in order
/// of time: those that end at 2, 4, 5 and 6.
pub fn entered_leaves_are_put_in_order()
    ensures { ordered_leaves four_entries ≡ four_leaves }
{}

/// Works out middles of nodes: that of the node from -3 to 0, of odd width, is rounded down to -2, and that of the node
/// from 0 to 8 is 4.
pub fn middles_are_rounded_down()
    ensures odd { middle (node (neg_ℤ (pos 3)) (pos 0)) ≡ neg_ℤ (pos 2) }
    ensures even { middle (node (pos 0) (pos 8)) ≡ pos 4 }
{}
