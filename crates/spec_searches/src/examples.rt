// Worked values of searches, by computation. The calls do nothing when they run.
ghost use Rattle.std.specs.Prelude.{◌≡◌, None, Some, pos};
ghost use Rattle.spec_numbers.specs.Numbers.{minus};
ghost use Rattle.spec_trees.specs.declared.cuts.CutRule.TheVariants.{Half, Third};
ghost use Rattle.spec_events.specs.VerdictExamples.{node_at};
ghost use Rattle.spec_searches.specs.Found.{root};
ghost use Rattle.spec_searches.specs.Search.{border_cut, guards_from, parts_at, parts_by};

/// Works out where a node into which a border of granules falls is cut: one tick before the border, as at -23734711 for
/// the border -23734710, or at the border itself if the tick before it is the node's start.
pub fn nodes_are_cut_before_borders()
    ensures before { border_cut (node_at (minus 23734712) (minus 23734707) 0) (minus 23734710)
        ≡ minus 23734711 }
    ensures at { border_cut (node_at (minus 15163345) (minus 15163342) 0) (minus 15163344)
        ≡ minus 15163344 }
{}

/// Works out the two parts of a node. If it is cut at a border, here -17075286, they keep its depth, 17; if it is cut
/// by the rule, here in the middle, they are one deeper.
pub fn parts_at_a_border_keep_their_depth()
    ensures at_a_border { parts_by Third (Some (minus 17075286))
        (node_at (minus 17075288) (minus 17075251) 17)
        ≡ parts_at (minus 17075287) 17 (node_at (minus 17075288) (minus 17075251) 17) }
    ensures by_the_rule { parts_by Half None (node_at (pos 24787864) (pos 24787866) 1)
        ≡ (node_at (pos 24787864) (pos 24787865) 2, node_at (pos 24787865) (pos 24787866) 2) }
{}

/// Works out the time from which on the conditions of an event are tested at a node: its start if it is wider than one
/// unit of time, else its end, which is its one time.
pub fn conditions_of_one_unit_are_tested_at_its_end()
    ensures wide { guards_from (root (pos 4) (pos 6)) ≡ pos 4 }
    ensures unit { guards_from (root (pos 4) (pos 5)) ≡ pos 5 }
{}
