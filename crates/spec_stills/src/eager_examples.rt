// Worked values of eager trees, by computation. The calls do nothing when they run.
ghost use Rattle.std.specs.Prelude.{◌≡◌, [], ◌∷◌, true, false, pos};
ghost use Rattle.spec_trees.specs.declared.cuts.CutRule.TheVariants.{Half};
ghost use Rattle.spec_trees.specs.declared.tree.Verdict.TheVariants.{Clear, Split};
ghost use Rattle.spec_events.specs.VerdictExamples.{node_at};
ghost use Rattle.spec_searches.specs.Search.{Search, verdict_of};
ghost use Rattle.spec_stills.specs.StillExamples.{both, cutting, late};
ghost use Rattle.spec_stills.specs.Eager.{begin_in, eager_verdict};

/// Works out in which nodes the span that starts at 64 starts: in those from 64 to 72 and from 60 to 68, which have 64
/// as their start or inside, not in the one from 60 to 64, which ends there, nor in the one from 65 on.
pub fn spans_begin_in_nodes_that_hold_their_start()
    ensures first { begin_in (late ∷ []) (node_at (pos 64) (pos 72) 6) ≡ true }
    ensures inside { begin_in (late ∷ []) (node_at (pos 60) (pos 68) 6) ≡ true }
    ensures last { begin_in (late ∷ []) (node_at (pos 60) (pos 64) 6) ≡ false }
    ensures after { begin_in (late ∷ []) (node_at (pos 65) (pos 72) 6) ≡ false }
{}

/// Works out which nodes of an eager tree are split without being judged: those in which a still span starts, here 60
/// to 68, that no span serves and that are wider than the width 2 and less deep than 40. A served node is clear; any
/// other has the search's verdict.
pub fn wide_nodes_where_spans_begin_are_split_unjudged()
    ensures split { (s : Search)
        → eager_verdict (cutting Half s) both (node_at (pos 60) (pos 68) 6) ≡ Split }
    ensures served { (s : Search)
        → eager_verdict (cutting Half s) both (node_at (pos 64) (pos 72) 6) ≡ Clear }
    ensures narrow { (s : Search)
        → eager_verdict (cutting Half s) both (node_at (pos 63) (pos 65) 6)
        ≡ verdict_of (cutting Half s) (node_at (pos 63) (pos 65) 6) }
    ensures deep { (s : Search)
        → eager_verdict (cutting Half s) both (node_at (pos 60) (pos 68) 40)
        ≡ verdict_of (cutting Half s) (node_at (pos 60) (pos 68) 40) }
    ensures elsewhere { (s : Search)
        → eager_verdict (cutting Half s) both (node_at (pos 128) (pos 136) 6)
        ≡ verdict_of (cutting Half s) (node_at (pos 128) (pos 136) 6) }
{}
