// A closure that cuts spans, and the rule that it follows.
ghost use Rattle.std.specs.Prelude.{◌≡◌, ℤ, ◌<ℤ◌};
ghost use Rattle.spec_trees.specs.Cuts.{CanCut, cut_of};

use spec_trees::CutRule;

/// A closure that returns the time at which a span, from a first time to a second one, is cut.
pub type Cut = Box<dyn Fn(i64, i64) -> i64 + Send + Sync>;

/// A closure that cuts spans, and the rule whose cuts it returns.
#[derive(Drop)]
pub struct Cutter {
    rule: CutRule,
    cut: Cut,
    ghost callable: { (a b : ℤ) → CanCut a b → Cut.pre cut a b },
    ghost answers: { (a b time : ℤ) → CanCut a b → Cut.post cut a b time → time ≡ cut_of rule a b },
}

impl Cutter {
    /// Keeps a closure together with the rule whose cuts it returns. The closure can be called for each span that can
    /// be cut.
    pub fn new(rule: CutRule, cut: Cut) -> Cutter
        requires callable { (a b : ℤ) → CanCut a b → Cut.pre cut a b }
        requires answers { (a b time : ℤ) → CanCut a b
            → Cut.post cut a b time → time ≡ cut_of rule a b }
        ensures { result.rule ≡ rule }
    {
        Cutter { rule, cut }
    }

    /// Returns the rule by which spans are cut.
    pub fn rule(&self) -> CutRule
        ensures { result ≡ self.now.rule }
    {
        self.rule
    }

    /// Returns the time at which the rule cuts the span from `a` to `b`, in ticks of TDB since J2000: strictly
    /// between the two.
    pub fn cut(&self, a: i64, b: i64) -> i64
        requires { CanCut a b }
        ensures cut { result ≡ cut_of self.now.rule a b }
        ensures above { a <ℤ result }
        ensures below { result <ℤ b }
    {
        (self.cut)(a, b)
    }
}
