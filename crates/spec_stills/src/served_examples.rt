// Worked values of served trees, by computation. The calls do nothing when they run.
ghost use Rattle.std.specs.Prelude.{◌≡◌, pos};
ghost use Rattle.spec_trees.specs.declared.cuts.CutRule.TheVariants.{Half};
ghost use Rattle.spec_trees.specs.declared.tree.Verdict.TheVariants.{Clear};
ghost use Rattle.spec_events.specs.VerdictExamples.{node_at};
ghost use Rattle.spec_searches.specs.Search.{Search, verdict_of};
ghost use Rattle.spec_stills.specs.StillExamples.{both, cutting};
ghost use Rattle.spec_stills.specs.ServedTree.{served_verdict};

/// Works out verdicts in a served tree: the node from 64 to 72, which a still span serves, is clear. The node from 60
/// to 68, in which a span starts, is judged as in the search's tree.
pub fn served_nodes_are_clear_and_others_judged()
    ensures served { (s : Search)
        → served_verdict (cutting Half s) both (node_at (pos 64) (pos 72) 6) ≡ Clear }
    ensures judged { (s : Search)
        → served_verdict (cutting Half s) both (node_at (pos 60) (pos 68) 6)
        ≡ verdict_of (cutting Half s) (node_at (pos 60) (pos 68) 6) }
{}
