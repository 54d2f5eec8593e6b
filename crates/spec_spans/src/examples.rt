// Worked values of joined windows, of blocks and of pieces, by computation. The calls do nothing when they run.
ghost use Rattle.std.specs.Prelude.{◌≡◌, ◌∷◌, ◌++◌, [], pos};
ghost use Rattle.spec_trees.specs.declared.tree.Turn.TheVariants.{Rise};
ghost use Rattle.spec_trees.specs.declared.window.Holds.TheVariants.{Certain, Undecided};
ghost use Rattle.spec_trees.specs.Examples.{window};
ghost use Rattle.spec_searches.specs.Search.{Search};
ghost use Rattle.spec_searches.specs.Found.{leaves_of};
ghost use Rattle.spec_spans.specs.Examples.{earlier, last_two_blocks, later, later_by_one, three_blocks};
ghost use Rattle.spec_spans.specs.Joins.{joined};
ghost use Rattle.spec_spans.specs.Pieces.{AreSeams, leaves_of_pieces};
ghost use Rattle.spec_spans.specs.Searches.{some_blocks};
ghost use Rattle.spec_spans.specs.Seams.{block_start};

/// Works out windows of two spans that meet at 6: the undecided windows 4 to 6 and 7 to 8 are joined to 4 to 8. Windows
/// with a tick between them (6 and 8) or of which one is certain stay apart, and a span without windows adds none.
pub fn undecided_windows_that_touch_are_joined()
    ensures one { joined earlier later
        ≡ window (pos 1) (pos 1) (Certain Rise) ∷ window (pos 4) (pos 8) Undecided
        ∷ window (pos 9) (pos 9) (Certain Rise) ∷ [] }
    ensures apart { joined earlier later_by_one ≡ earlier ++ later_by_one }
    ensures certain { joined later earlier ≡ later ++ earlier }
    ensures none { joined [] later ≡ later }
{}

/// Works out blocks of an ephemeris of three blocks of 100 ticks from 1000 on: the last starts at 1200, and the
/// ephemeris of the last two alone starts at 1100 and has the last four of its six numbers.
pub fn some_blocks_have_their_start_and_numbers()
    ensures start { block_start three_blocks 2 ≡ pos 1200 }
    ensures last_two { some_blocks 1 2 three_blocks ≡ last_two_blocks }
{}

/// Works out pieces of the span from 0 to 20: no cut leaves it whole, and cuts at 5 and 9 make three pieces, whose
/// leaves follow one another. Cuts have to lie inside the span, so not at 20, and in order, so not 9 and then 5.
pub fn cut_times_make_pieces()
    ensures whole { (s : Search) → leaves_of_pieces s (pos 0) [] (pos 20) ≡ leaves_of s (pos 0) (pos 20) }
    ensures three { (s : Search) → leaves_of_pieces s (pos 0) (pos 5 ∷ pos 9 ∷ []) (pos 20)
        ≡ leaves_of s (pos 0) (pos 5) ++ (leaves_of s (pos 5) (pos 9) ++ leaves_of s (pos 9) (pos 20)) }
    ensures inside { (s : Search) → AreSeams s (pos 0) (pos 20 ∷ []) (pos 20) → ⊥ }
    ensures in_order { (s : Search) → AreSeams s (pos 0) (pos 9 ∷ pos 5 ∷ []) (pos 20) → ⊥ }
{}
