// Worked values of margins. The calls do nothing when they run.

ghost use Rattle.std.specs.Prelude.{◌≡◌, ◌*◌, ◌^◌, pos};
ghost use Rattle.spec_numbers.specs.Numbers.{minus};
ghost use Rattle.spec_intervals.specs.Fraction.{fraction};
ghost use Rattle.spec_intervals.specs.Interval.{interval};
ghost use Rattle.spec_searches.specs.Search.{Search};
ghost use Rattle.spec_stills.specs.Margins.{HasMargin, StepsFit, multiple, opposite, range_at};
ghost use Rattle.spec_stills.specs.MarginExamples.{level, walk};

/// Works out margins, by which a function keeps away from 0 over a span. The constant function of 5 km, 5 * 2^24 units
/// of 2^-24 km, has a margin of 5 from time 0 to 64, and none of 6; -5 km has a margin of 5 too.
pub fn constant_functions_have_their_magnitude_as_margin()
    ensures range { (s : Search) → range_at (level (pos 5) s) (pos 7)
        ≡ interval (pos (5 * 2 ^ 24)) (pos (5 * 2 ^ 24)) (minus 24) }
    ensures above { (s : Search) → HasMargin (level (pos 5) s) (pos 0) (pos 64) (fraction (pos 5) 1) }
    ensures below { (s : Search) → HasMargin (level (minus 5) s) (pos 0) (pos 64) (fraction (pos 5) 1) }
    ensures no_more { (s : Search)
        → HasMargin (level (pos 5) s) (pos 0) (pos 64) (fraction (pos 6) 1) → ⊥ }
{}

/// Works out the opposite of 5/2, which is -5/2, and three times 5/2, which is 15/2.
pub fn fractions_are_negated_and_multiplied()
    ensures opposite { opposite (fraction (pos 5) 2) ≡ fraction (minus 5) 2 }
    ensures multiple { multiple 3 (fraction (pos 5) 2) ≡ fraction (pos 15) 2 }
{}

/// Works out which steps fit a margin of 24. Steps of up to 3 fit over nodes of 14 units, since 15 times 3 is 45 and
/// twice 31/32 of 24 is 46.5, but not over 15. The range of 40 to 90 may be in units of 1/64, since 1024 of these are
/// 16, not of 1/32.
pub fn steps_fit_over_14_units()
    ensures fit { StepsFit (walk (minus 6)) 14 (fraction (pos 24) 1) }
    ensures wider { StepsFit (walk (minus 6)) 15 (fraction (pos 24) 1) → ⊥ }
    ensures coarser { StepsFit (walk (minus 5)) 14 (fraction (pos 24) 1) → ⊥ }
{}
