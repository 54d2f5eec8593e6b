// Worked verdicts, by computation. The calls do nothing when they run.
ghost use Rattle.std.specs.Prelude.{◌≡◌, true, false, [], ◌∷◌, pos};
ghost use Rattle.spec_intervals.specs.declared.signs.Sign.TheVariants.{No, Yes};
ghost use Rattle.spec_numbers.specs.Numbers.{minus};
ghost use Rattle.spec_trees.specs.declared.tree.Turn.TheVariants.{Fall, Rise};
ghost use Rattle.spec_trees.specs.declared.tree.Verdict.TheVariants.{Clear, One, Split, Undecided};
ghost use Rattle.spec_events.specs.declared.dir.Dir.TheVariants as D;
ghost use Rattle.spec_events.specs.Events.{IsEvent};
ghost use Rattle.spec_events.specs.Functions.{EventsOf};
ghost use Rattle.spec_events.specs.Verdict.{verdict};
ghost use Rattle.spec_events.specs.VerdictExamples.{border_findings, constant_guard, criteria, guarded_verdict, line, line_verdict, node_at, nothing_known, passing};

/// Works out the event of the line `t - 1339200` km: it rises at 1339200. It is no event if only falls are wanted, and
/// a guard decides whether it counts: one that has to be at least 0 and is 2 * 10^12 holds; the same guard below 0 does
/// not.
pub fn a_line_has_one_event()
    ensures rise { EventsOf line D.Any [] Rise passing }
    ensures unwanted { IsEvent (EventsOf line D.Fall []) passing → ⊥ }
    ensures guarded { EventsOf line D.Any (constant_guard true ∷ []) Rise passing }
    ensures refuted { IsEvent (EventsOf line D.Any (constant_guard false ∷ [])) passing → ⊥ }
{}

/// Works out verdicts of nodes from 1339000 to 1339400 for the line `t - 1339200` km and a width of 60. Nodes on one
/// side of 0 are clear; the node from 1339150 to 1339200, which is narrow enough, has one rise; wider nodes with the
/// rise are split.
pub fn verdicts_on_a_line_find_its_rise()
    ensures root { line_verdict (criteria D.Any 60 40)
        (node_at (pos 1339000) (pos 1339400) 0) ≡ Split }
    ensures left { line_verdict (criteria D.Any 60 40)
        (node_at (pos 1339000) (pos 1339200) 1) ≡ Split }
    ensures below_zero { line_verdict (criteria D.Any 60 40)
        (node_at (pos 1339000) (pos 1339100) 2) ≡ Clear }
    ensures near { line_verdict (criteria D.Any 60 40)
        (node_at (pos 1339100) (pos 1339200) 2) ≡ Split }
    ensures lower { line_verdict (criteria D.Any 60 40)
        (node_at (pos 1339100) (pos 1339150) 3) ≡ Clear }
    ensures passing { line_verdict (criteria D.Any 60 40)
        (node_at (pos 1339150) (pos 1339200) 3) ≡ One Rise }
    ensures above_zero { line_verdict (criteria D.Any 60 40)
        (node_at (pos 1339200) (pos 1339400) 1) ≡ Clear }
{}

/// Works out verdicts at limits: at the greatest depth, here 0, a wide node is undecided, and so is one of a single
/// tick without a known sign. A rising line has no fall, and a guard that is false makes the node clear.
pub fn limits_directions_and_guards_decide_verdicts()
    ensures deep { line_verdict (criteria D.Any 1 0)
        (node_at (pos 1339000) (pos 1339400) 0) ≡ Undecided }
    ensures falls { line_verdict (criteria D.Fall 1 40)
        (node_at (minus 43200) (pos 2721600) 0) ≡ Clear }
    ensures guarded { guarded_verdict true ≡ One Rise }
    ensures refuted { guarded_verdict false ≡ Clear }
    ensures no_sign { verdict (criteria D.Any 1 40) (node_at (pos 15) (pos 16) 4) nothing_known
        ≡ Undecided }
{}

/// Works out verdicts of nodes into which a border of granules falls: nodes of 37 ticks and of more are split at any
/// depth and width, and a node of one tick, whose signs go from `Yes` to `No`, has one fall.
pub fn nodes_at_a_border_are_split_down_to_one_tick()
    ensures wide { verdict (criteria D.Rise 2 40) (node_at (minus 17075288) (minus 17075251) 17)
        (border_findings No Yes) ≡ Split }
    ensures deep { verdict (criteria D.Any 60 12) (node_at (minus 734400) (pos 1986097) 9)
        (border_findings No No) ≡ Split }
    ensures single { verdict (criteria D.Fall 1 40) (node_at (minus 23734709) (minus 23734708) 0)
        (border_findings Yes No) ≡ One Fall }
{}
