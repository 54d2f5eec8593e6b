// Laws of margins. Each is the contract of a function that does nothing.
ghost use Rattle.std.specs.Prelude.{◌≡◌, ◌≤◌, ℤ, pos, ◌≤ℤ◌, ◌<ℤ◌};
ghost use Rattle.spec_intervals.specs.declared.signs.Sign.TheVariants.{Yes, No};
ghost use Rattle.spec_intervals.specs.Fraction.{Fraction, IsFraction};
ghost use Rattle.spec_bodies.specs.Views.{Fits};
ghost use Rattle.spec_searches.specs.Search.{IsSearch, Search};
ghost use Rattle.spec_bounds.specs.Steady.{sign_at};
ghost use Rattle.spec_bounds.specs.Terms.{bound_over};
ghost use Rattle.spec_stills.specs.declared.still.StillSpan.{StillSpan};
ghost use Rattle.spec_stills.specs.Still.{IsStill};
ghost use Rattle.spec_stills.specs.Margins.{HasMargin, IsAbove, IsBelow, StepsFit};

/// States that a span is still, with the sign that the function has at its first time, if the function keeps a margin
/// from 0 over it and its steps, by a bound over times around it, fit the margin. For nodes of one unit no fit is
/// needed.
pub fn margins_make_spans_still()
    ensures steps { (s : Search) (x : StillSpan) (g : Fraction) (c d : ℤ) → IsSearch s
        → Fits s.view c d → c ≤ℤ x.from → x.from <ℤ x.upto → x.upto ≤ℤ d
        → HasMargin s x.from x.upto g → sign_at s x.from ≡ x.sign
        → StepsFit (bound_over s.view s.event.function c d) x.widest g → IsStill s x }
    ensures units { (s : Search) (x : StillSpan) (g : Fraction) (c d : ℤ) → IsSearch s
        → Fits s.view c d → c ≤ℤ x.from → x.upto ≤ℤ d → HasMargin s x.from x.upto g
        → sign_at s x.from ≡ x.sign → x.widest ≤ 1 → IsStill s x }
{}

/// States that the side of 0 on which a function keeps a positive margin over a span tells its sign at each time of the
/// span: `Yes` above 0, `No` below.
pub fn margins_tell_signs()
    ensures above { (s : Search) (a b : ℤ) (g : Fraction) (t : ℤ) → pos 0 <ℤ g.numerator
        → IsFraction g → IsAbove s a b g → a ≤ℤ t → t ≤ℤ b → sign_at s t ≡ Yes }
    ensures below { (s : Search) (a b : ℤ) (g : Fraction) (t : ℤ) → IsSearch s → Fits s.view a b
        → pos 0 <ℤ g.numerator → IsFraction g → IsBelow s a b g → a ≤ℤ t → t ≤ℤ b
        → sign_at s t ≡ No }
{}
