// Worked values of still spans, by computation. The calls do nothing when they run.
ghost use Rattle.std.specs.Prelude.{◌≡◌, [], ◌∷◌, true, false, pos};
ghost use Rattle.spec_trees.specs.declared.cuts.CutRule.TheVariants.{Half, Third};
ghost use Rattle.spec_trees.specs.CutExamples.{clear_at};
ghost use Rattle.spec_events.specs.VerdictExamples.{node_at};
ghost use Rattle.spec_searches.specs.Search.{Search};
ghost use Rattle.spec_stills.specs.StillExamples.{both, cutting, early, early_again};
ghost use Rattle.spec_stills.specs.Still.{is_served, serves};
ghost use Rattle.spec_stills.specs.Weights.{weight};

/// Works out which nodes a still span serves: at depth 37 one of 24 ticks, which three halvings make 3 ticks wide, as
/// the span wants. It serves none of 25 ticks, none within three of the depth 40, none past its end, and none that is
/// cut at its first third.
pub fn a_span_serves_nodes_that_halving_makes_narrow()
    ensures narrow { (s : Search)
        → serves (cutting Half s) early (node_at (pos 0) (pos 24) 37) ≡ true }
    ensures wide { (s : Search)
        → serves (cutting Half s) early (node_at (pos 0) (pos 25) 37) ≡ false }
    ensures deep { (s : Search)
        → serves (cutting Half s) early (node_at (pos 0) (pos 24) 38) ≡ false }
    ensures across { (s : Search)
        → is_served (cutting Half s) both (node_at (pos 60) (pos 68) 6) ≡ false }
    ensures thirds { (s : Search)
        → serves (cutting Third s) early (node_at (pos 0) (pos 24) 37) ≡ false }
{}

/// Works out what leaves weigh, by the first span that serves each. In a span that allows five halvings a leaf of 24
/// ticks weighs 8, since three make it 3 ticks wide, one of 25 ticks 16, one of 7 ticks 4 and one of 3 ticks 1. A leaf
/// that no span serves weighs 1.
pub fn leaves_weigh_two_to_their_halvings()
    ensures early { (s : Search) → weight (cutting Half s) both (clear_at 6 (pos 40) (pos 60)) ≡ 8 }
    ensures late { (s : Search) → weight (cutting Half s) both (clear_at 6 (pos 68) (pos 128)) ≡ 32 }
    ensures across { (s : Search) → weight (cutting Half s) both (clear_at 6 (pos 60) (pos 68)) ≡ 1 }
    ensures first { (s : Search) → weight (cutting Half s) (early ∷ early_again ∷ [])
        (clear_at 6 (pos 40) (pos 60)) ≡ 8 }
    ensures three { (s : Search) → weight (cutting Half s) both (clear_at 6 (pos 70) (pos 94)) ≡ 8 }
    ensures four { (s : Search) → weight (cutting Half s) both (clear_at 6 (pos 70) (pos 95)) ≡ 16 }
    ensures two { (s : Search) → weight (cutting Half s) both (clear_at 6 (pos 70) (pos 77)) ≡ 4 }
    ensures none { (s : Search) → weight (cutting Half s) both (clear_at 6 (pos 70) (pos 73)) ≡ 1 }
{}
