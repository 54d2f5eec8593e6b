// A law of all cuts. It is the contract of a function that does nothing.
ghost use Rattle.std.specs.Prelude.{ℤ, ◌<ℤ◌};
ghost use Rattle.spec_trees.specs.declared.cuts.CutRule.{CutRule};
ghost use Rattle.spec_trees.specs.Cuts.{CanCut, cut_of};

/// States that each cut rule cuts a span at a time after its start `a` and before its end `b`, if the span may be cut:
/// it is longer than one unit, and both ends are at most 2^50 in magnitude.
pub fn cuts_lie_inside()
    ensures above { (rule : CutRule) (a b : ℤ) → CanCut a b → a <ℤ cut_of rule a b }
    ensures below { (rule : CutRule) (a b : ℤ) → CanCut a b → cut_of rule a b <ℤ b }
{}
