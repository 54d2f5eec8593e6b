// The verdicts that signs at the two ends of a node tell, and the judge by them.
ghost use Rattle.std.specs.Prelude.{◌≡◌, ◌<ℤ◌, All, IfOk, IfSome, false};
ghost use Rattle.spec_trees.specs.Cuts.{is_wide};
ghost use Rattle.spec_trees.specs.Tree.{IsValid};
ghost use Rattle.spec_searches.specs.Found.{rules};
ghost use Rattle.spec_searches.specs.Search.{verdict_of};
ghost use Rattle.spec_stills.specs.Still.{IsStill};
ghost use Rattle.still_judge.specs.EndSigns.{AreCertifiedIn, HasEndSigns};

use crate::beginning::may_be_split;
use crate::certified_times::certified_times;
use crate::sign_judge::{EndSigns, SignJudge};
use crate::still_list::StillList;
use event_judge::EventSearch;
use gf_hooks::{Judge, Node, Verdict, differ, has_no_turn, turn_to};
use ival_core::Sign;
use std::alloc::{AllocError, Global};

// Tells whether a node is wider than one tick.
#[inline(always)]
fn is_wide(node: Node) -> bool
    requires { node.a <ℤ node.b }
    ensures { result ≡ is_wide node }
{
    1 < node.b.abs_diff(node.a)
}

impl<'j, 's, 'e, J: Judge> SignJudge<'j, 's, 'e, J> {
    /// Makes the judge of a search's nodes by the signs that its still spans tell. `judge` has the rules of the search,
    /// and is asked of the nodes that no signs decide. The only error is out of memory.
    pub fn new(
        alloc: Global,
        judge: &'j J,
        search: &'j EventSearch<'e>,
        stills: &'s StillList,
    ) -> Result<SignJudge<'j, 's, 'e, J>, AllocError>
        requires rules { J.rules judge.now ≡ rules search.now }
        requires still { All (IsStill search.now) stills.now }
        ensures { IfOk result (λ made. J.rules made.judge.now ≡ J.rules judge.now) }
    {
        let signs = EndSigns::new(alloc, search, stills)?;
        Ok(SignJudge { judge, signs })
    }
}

impl<'j, 's, 'e> EndSigns<'j, 's, 'e> {
    // Keeps still spans of a search, with the times beside turns at which its conditions are certified. The only error is
    // out of memory.
    fn new(
        alloc: Global,
        search: &'j EventSearch<'e>,
        stills: &'s StillList,
    ) -> Result<EndSigns<'j, 's, 'e>, AllocError>
        requires { All (IsStill search.now) stills.now }
        ensures { IfOk result (λ made. made.search.now ≡ search.now) }
    {
        let certified = certified_times(alloc, search, stills)?;
        Ok(EndSigns {
            search,
            stills,
            certified,
        })
    }

    // Returns the last of the times that lies in a node and at which each condition of the event is certified, or none.
    fn certified_time_in(&self, node: Node) -> Option<i64>
        ensures { IfSome result (AreCertifiedIn self.now.search.now node) }
    {
        let count = self
            .certified
            .partition_point(|time: &i64| -> bool { *time <= node.b });
        let Some(place) = count.checked_sub(1) else {
            return None;
        };
        let time = self.certified[place];
        if node.a <= time && time <= node.b {
            Some(time)
        } else {
            None
        }
    }

    // Returns the verdict of a node that is one tick wide, by the signs at its two times: clear if these show no turn that
    // is wanted, and one event if they show one and each condition is certified at the last time. Else none is returned.
    fn one_tick_verdict(&self, node: Node, first: Sign, last: Sign) -> Option<Verdict>
        requires signs { HasEndSigns self.now.search.now node first last }
        requires narrow { is_wide node ≡ false }
        ensures { IfSome result (λ verdict. verdict ≡ verdict_of self.now.search.now node) }
    {
        self.search.is_search();
        let dir = self.search.event().dir();
        if has_no_turn(dir, first, last) {
            return Some(Verdict::Clear);
        }
        match self.certified_time_in(node) {
            Some(time) if time == node.b && differ(dir, first, last) => {
                Some(Verdict::One(turn_to(last)))
            }
            _ => None,
        }
    }

    // Returns the verdict of a wide node, by the signs at its ends: it is split if these show a turn that is wanted,
    // conditions are certified at one of its times, and the limits of the search allow it. Else none is returned.
    fn wide_verdict(&self, node: Node, first: Sign, last: Sign) -> Option<Verdict>
        requires { HasEndSigns self.now.search.now node first last }
        ensures { IfSome result (λ verdict. verdict ≡ verdict_of self.now.search.now node) }
    {
        self.search.is_search();
        if !may_be_split(self.search, node) || !differ(self.search.event().dir(), first, last) {
            return None;
        }
        match self.certified_time_in(node) {
            Some(_) => Some(Verdict::Split),
            None => None,
        }
    }

    // Returns the verdict of a node if still spans hold both its ends and the signs there tell it, or none.
    fn verdict_by_signs(&self, node: Node) -> Option<Verdict>
        requires { IsValid (rules self.now.search.now) node }
        ensures { IfSome result (λ verdict. verdict ≡ verdict_of self.now.search.now node) }
    {
        let Some(first) = self.stills.sign_at(node.a) else {
            return None;
        };
        let Some(last) = self.stills.sign_at(node.b) else {
            return None;
        };
        if is_wide(node) {
            self.wide_verdict(node, first, last)
        } else {
            self.one_tick_verdict(node, first, last)
        }
    }
}

impl<'j, 's, 'e, J: Judge> Judge for SignJudge<'j, 's, 'e, J> {
    ghost rules = { λ judge. J.rules judge.judge.now };

    // Returns the verdict of a node, by the signs at its ends or by the other judge.
    fn judge(&self, node: Node) -> Verdict {
        match self.signs.verdict_by_signs(node) {
            Some(verdict) => verdict,
            None => self.judge.judge(node),
        }
    }

    // Returns the parts of a node, as the other judge does.
    fn cut(&self, node: Node) -> (Node, Node) {
        self.judge.cut(node)
    }

    ghost sound = { λ judge. J.sound judge.judge.now };
}
