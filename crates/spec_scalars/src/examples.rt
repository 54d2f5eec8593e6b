// Worked values of scalars, by computation. The calls do nothing when they run.
ghost use Rattle.std.specs.Prelude.{◌≡◌, pos};
ghost use Rattle.spec_numbers.specs.Numbers.{minus};
ghost use Rattle.spec_trees.specs.declared.tree.Turn.TheVariants.{Rise};
ghost use Rattle.spec_trees.specs.declared.tree.Verdict.TheVariants.{Clear, One, Split, Undecided};
ghost use Rattle.spec_trees.specs.declared.window.Holds.TheVariants as H;
ghost use Rattle.spec_events.specs.VerdictExamples.{node_at};
ghost use Rattle.spec_scalars.specs.Examples.{one_window, quad, reach, search_to, square_less_100};
ghost use Rattle.spec_scalars.specs.Quads.{quad_at, quad_reach};
ghost use Rattle.spec_scalars.specs.Searches.{span, verdict_of, windows_of};

/// Works out t^2 - 100: its value at time 10, which is 0, and the bounds of its values and of its changes from each
/// time to the next over the spans from -50 to 50, from 9 to 10, and at 10 alone, which has no change.
pub fn values_and_steps_of_t_squared_less_100_are_bounded()
    ensures at { quad_at square_less_100 (pos 10) ≡ pos 0 }
    ensures wide { quad_reach square_less_100 (minus 50) (pos 50)
        ≡ reach (minus 100) (pos 2400) (minus 99) (pos 99) }
    ensures narrow { quad_reach square_less_100 (pos 9) (pos 10)
        ≡ reach (minus 19) (pos 0) (pos 19) (pos 19) }
    ensures single { quad_reach square_less_100 (pos 10) (pos 10)
        ≡ reach (pos 0) (pos 0) (pos 0) (pos 0) }
{}

/// Works out the bounds of the values and of the changes from each time to the next of -2 t^2 + 5 t + 3, whose square
/// has a factor below 0: from -2 to 3, and from 2 to 4.
pub fn values_and_steps_of_a_negative_square_are_bounded()
    ensures about_0 { quad_reach (quad (minus 2) (pos 5) (pos 3)) (minus 2) (pos 3)
        ≡ reach (minus 25) (pos 18) (minus 5) (pos 11) }
    ensures past_0 { quad_reach (quad (minus 2) (pos 5) (pos 3)) (pos 2) (pos 4)
        ≡ reach (minus 19) (pos 15) (minus 9) (minus 5) }
{}

/// Works out verdicts of nodes in the search of t^2 - 100: a node with neither a known sign nor a known direction is
/// split, or undecided at the depth limit 0. One below 0 throughout is clear, and the tick from 9 to 10 has one rise.
pub fn verdicts_on_t_squared_less_100_find_its_rise()
    ensures root { verdict_of (search_to 40 square_less_100) (node_at (minus 50) (pos 50) 0)
        ≡ Split }
    ensures deep { verdict_of (search_to 0 square_less_100) (node_at (minus 50) (pos 50) 0)
        ≡ Undecided }
    ensures below_zero { verdict_of (search_to 40 square_less_100) (node_at (minus 7) (pos 6) 3)
        ≡ Clear }
    ensures passing { verdict_of (search_to 40 square_less_100) (node_at (pos 9) (pos 10) 7)
        ≡ One Rise }
{}

/// Works out the windows of t - 2 from 0 to 4: a rise at 2, or, if nodes are cut down to depth 0 only, the whole span
/// undecided, which are the times from 1 to 4.
pub fn a_line_has_one_window()
    ensures found { windows_of (search_to 40 (quad (pos 0) (pos 1) (minus 2)))
        (span (pos 0) (pos 4)) ≡ one_window (pos 2) (pos 2) (H.Certain Rise) }
    ensures undecided { windows_of (search_to 0 (quad (pos 0) (pos 1) (minus 2)))
        (span (pos 0) (pos 4)) ≡ one_window (pos 1) (pos 4) H.Undecided }
{}
