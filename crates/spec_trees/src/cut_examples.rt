// Worked values of cuts, by computation. The calls do nothing when they run.
ghost use Rattle.std.specs.Prelude.{◌≡◌, pos, neg_ℤ};
ghost use Rattle.spec_trees.specs.declared.cuts.CutRule.TheVariants.{Half, Third};
ghost use Rattle.spec_trees.specs.Cuts.{cut_of};
ghost use Rattle.spec_trees.specs.CutExamples.{cut_at_thirds, halved, pairs};
ghost use Rattle.spec_trees.specs.Examples.{node};
ghost use Rattle.spec_trees.specs.Tree.{leaves};

/// Works out cut times: the middle of [0, 8] is 4 and that of [-3, 0] is -2, rounded down. The first third of [0, 8] is
/// 2, rounded down too, and that of [4, 6] is 5, since a cut is at least one unit after the start.
pub fn cuts_are_rounded_down()
    ensures half { cut_of Half (pos 0) (pos 8) ≡ pos 4 }
    ensures half_of_an_odd_width { cut_of Half (neg_ℤ (pos 3)) (pos 0) ≡ neg_ℤ (pos 2) }
    ensures third { cut_of Third (pos 0) (pos 8) ≡ pos 2 }
    ensures third_of_two_units { cut_of Third (pos 4) (pos 6) ≡ pos 5 }
{}

/// Works out the leaves of the node from 0 to 8 whose parts are cut until none is wider than two units. Cut at the
/// middle they end at 2, 4, 6 and 8; cut at the first third they end at 2, 4, 5, 6 and 8.
pub fn eight_units_are_cut_into_leaves()
    ensures by_half { leaves (pairs Half) (node (pos 0) (pos 8)) ≡ halved }
    ensures by_third { leaves (pairs Third) (node (pos 0) (pos 8)) ≡ cut_at_thirds }
{}
