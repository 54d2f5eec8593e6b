// The verdicts on the nodes of a scalar's search, and where the nodes are cut.
ghost use Rattle.std.specs.Prelude.{◌≡◌, ◌≤ℤ◌, pos, unsigned_abs};
ghost use Rattle.spec_trees.specs.Tree.{IsValid};
ghost use Rattle.spec_scalars.specs.Searches.{rules, search_over, verdict_of};
ghost use Rattle.gf_uds.specs.Found.{reach_sign};

use crate::judge::ScalarJudge;
use crate::law::{Law, law_holds};
use crate::scalar::Scalar;
use crate::verdicts::{
    is_decided_by_ends, is_turnless, reach_sign, verdict_by_ends, verdict_by_limits,
};
use gf_hooks::{CutRule, rule_cut};
use halving::{Judge, Node, Verdict};
use spec_events::Dir;
use spec_intervals::Sign;
use spec_scalars::Plan;

impl<L: Law + Drop> ScalarJudge<L> {
    /// Makes the judge of a search for the times at which a scalar passes 0 in the direction `want`. Nodes are split
    /// that are wider than `width` times and less deep than `depth`, and are cut by the rule `cut`.
    pub fn new(scalar: Scalar<L>, want: Dir, width: i64, depth: u32, cut: CutRule) -> ScalarJudge<L>
        requires some_width { pos 1 ≤ℤ width }
        ensures scalar { result.scalar ≡ scalar }
        ensures plan { result.plan ≡ record {
          dir = want;
          width = unsigned_abs width;
          depth = depth;
          cut = cut;
        } }
    {
        law_holds(&scalar.law);
        ScalarJudge {
            scalar,
            plan: Plan {
                dir: want,
                width: width.unsigned_abs(),
                depth,
                cut,
            },
        }
    }

    // Returns the sign of the scalar at a time, or `Open` if the scalar's bounds at that time lie on both sides of 0. A
    // value of 0 counts as positive.
    fn sign_at(&self, t: i64) -> Sign
        requires from { self.now.scalar.first ≤ℤ t }
        requires to { t ≤ℤ self.now.scalar.last }
        ensures { result ≡ reach_sign ((L.scalar self.now.scalar.law).reach t t) }
    {
        reach_sign(self.scalar.reach(t, t))
    }

    // Returns the depth from which on nodes are not split. It reads the field through a call, since the proof of `cut`
    // needs the fact that the depth fits 32 bits.
    fn depth_limit(&self) -> u32
        ensures { result ≡ self.now.plan.depth }
    {
        self.plan.depth
    }

    // Returns the verdict of a valid node: clear if the bounds over the whole node show that no wanted event is in it.
    // Else the signs at its two ends give the verdict, if they decide. Else it is split, or undecided at the limits of
    // width and depth.
    fn verdict(&self, node: Node) -> Verdict
        requires { let s = search_over (L.scalar self.now.scalar.law)
            self.now.scalar.first self.now.scalar.last self.now.plan in IsValid (rules s) node }
        ensures { let s = search_over (L.scalar self.now.scalar.law)
            self.now.scalar.first self.now.scalar.last self.now.plan in
            result ≡ verdict_of s node }
    {
        let whole = self.scalar.reach(node.a, node.b);
        if is_turnless(self.plan, whole) {
            Verdict::Clear
        } else if is_decided_by_ends(node, whole) {
            verdict_by_ends(self.plan, node, self.sign_at(node.a), self.sign_at(node.b))
        } else {
            verdict_by_limits(self.plan, node)
        }
    }
}

impl<L: Law + Sync + Drop> Judge for ScalarJudge<L> {
    ghost rules = { λ judge. rules (search_over (L.scalar judge.scalar.law)
        judge.scalar.first judge.scalar.last judge.plan) };

    // Returns the verdict of a valid node of the scalar's tree.
    fn judge(&self, node: Node) -> Verdict {
        self.verdict(node)
    }

    // Cuts a node at the time that the rule names, and returns its left and its right part, one level deeper. The limit
    // of depth is read for the proof alone: a split node lies above it, so one more level fits 32 bits.
    fn cut(&self, node: Node) -> (Node, Node) {
        let _deepest = self.depth_limit();
        let time = rule_cut(self.plan.cut, node.a, node.b);
        let depth = node.depth + 1;
        (
            Node {
                a: node.a,
                b: time,
                depth,
            },
            Node {
                a: time,
                b: node.b,
                depth,
            },
        )
    }

    ghost sound = { λ judge. judge.sound };
}
