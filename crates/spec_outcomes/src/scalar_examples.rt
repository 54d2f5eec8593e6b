// Worked windows and outcomes of polynomials. The calls do nothing when they run.
ghost use Rattle.std.specs.Prelude.{◌≡◌, ◌∷◌, [], Err, Ok, pos};
ghost use Rattle.spec_numbers.specs.Numbers.{minus};
ghost use Rattle.spec_trees.specs.declared.tree.Turn.TheVariants.{Fall, Rise};
ghost use Rattle.spec_trees.specs.declared.window.Holds.TheVariants.{Certain, Undecided};
ghost use Rattle.spec_output.specs.Report.{scalar_report};
ghost use Rattle.spec_outcomes.specs.declared.refusal.Refusal.TheVariants.{Outside};
ghost use Rattle.spec_outcomes.specs.ScalarExamples.{square_less_100, window};
ghost use Rattle.spec_outcomes.specs.Scalars.{scalar_of, scalar_windows};

/// Works out the windows of t^2 - 100 from -50 to 50: it falls at -9 and rises at 10. If nodes are cut down to depth 0
/// only, the whole span, which is the times from -49 to 50, is one undecided window.
pub fn t_squared_less_100_passes_0_at_minus_9_and_10()
    ensures found { scalar_windows (square_less_100 (minus 50) (pos 50) 40)
        ≡ window (minus 9) (minus 9) (Certain Fall) ∷ window (pos 10) (pos 10) (Certain Rise) ∷ [] }
    ensures undecided { scalar_windows (square_less_100 (minus 50) (pos 50) 0)
        ≡ window (minus 49) (pos 50) Undecided ∷ [] }
{}

/// Works out the outcomes of two searches of t^2 - 100: from -50 to 50 its windows are reported; from 50 to -50 there
/// is no time, and the refusal names this span and the greatest that may be asked for.
pub fn spans_without_times_are_refused()
    ensures reported { scalar_of (square_less_100 (minus 50) (pos 50) 0)
        ≡ Ok (scalar_report (square_less_100 (minus 50) (pos 50) 0)
        (window (minus 49) (pos 50) Undecided ∷ [])) }
    ensures refused { scalar_of (square_less_100 (pos 50) (minus 50) 40)
        ≡ Err (Outside (record { from = pos 50; upto = minus 50 })
        (record { from = minus 999_999_999_999; upto = pos 999_999_999_999 })) }
{}
