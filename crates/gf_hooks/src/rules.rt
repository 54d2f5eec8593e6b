// The cuts of the named rules.
ghost use Rattle.std.specs.Prelude.{◌≡◌};
ghost use Rattle.spec_trees.specs.declared.cuts.CutRule.TheVariants.{Third};
ghost use Rattle.spec_trees.specs.Cuts.{CanCut, cut_of};

use spec_trees::CutRule;

// Returns the time a third of the way from `a` to `b`, rounded down, but at least one tick after `a`.
fn third_cut(a: i64, b: i64) -> i64
    requires { CanCut a b }
    ensures { result ≡ cut_of Third a b }
{
    let third = (b - a) / 3;
    if third < 1 { a + 1 } else { a + third }
}

/// Returns the time at which a rule cuts the span from `a` to `b`, in ticks of TDB since J2000: strictly between the
/// two, after a half or a third of the span, rounded down. The closures of cutters call it.
pub fn rule_cut(rule: CutRule, a: i64, b: i64) -> i64
    requires { CanCut a b }
    ensures { result ≡ cut_of rule a b }
{
    match rule {
        CutRule::Half => a + (b - a) / 2,
        CutRule::Third => third_cut(a, b),
    }
}
