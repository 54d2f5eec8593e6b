// The verdicts of nodes by what is remembered: signs at their ends.
ghost use Rattle.std.specs.Prelude.{◌≡◌, IfSome, IsTrue, [], false, true};
ghost use Rattle.spec_events.specs.Verdict.{differ, is_known};
ghost use Rattle.spec_searches.specs.Search.{crosses, verdict_of};
ghost use Rattle.spec_bounds.specs.Steady.{sign_at};
ghost use Rattle.event_judge.specs.Found.{whole_enclosure};
ghost use Rattle.event_judge.specs.Plain.{IsByKnownEnds, IsPlain, IsPlainUnit};

use crate::memory::Memory;
use crate::naming::Naming;
use crate::search_memory::SearchMemory;
use crate::search_time::SearchTime;
use crate::valid_node::ValidNode;
use gf_hooks::{Verdict, differ};
use ival_core::{Enclosure, Sign};
use spec_bounds::laws::{ends_that_differ, middles_are_told};

// Tells whether a sign is known: `Yes` or `No`, but not `Open`.
#[inline(always)]
fn is_known(sign: Sign) -> bool
    ensures { result ≡ is_known sign }
{
    matches!(sign, Sign::Yes | Sign::No)
}

impl<'s, 'e> ValidNode<'s, 'e> {
    // Tells whether only the limits decide if the end signs differ: no conditions, a wide node, and no border in it.
    fn needs_only_limits(self) -> bool
        ensures { IsTrue result → IsPlain self.entry.search.now self.entry.node }
    {
        self.has_no_guard()
            && self.is_wide()
            && !self.is_narrow()
            && self.nearest_border().is_none()
    }

    // Tells whether the event has no conditions.
    fn has_no_guard(self) -> bool
        ensures { IsTrue result → self.entry.search.now.event.conditions ≡ [] }
    {
        self.search.event().guards().is_empty()
    }
}

impl<N: Naming> SearchMemory for Memory<N> {
    ghost use Rattle.std.specs.Prelude.{◌≡◌};

    ghost knows = { λ s. s ≡ N.search };

    // Returns the sign of the function at the time: as it is remembered, or made anew and then remembered.
    fn sign_at(&self, time: SearchTime) -> Sign {
        match self.remembered_sign(time) {
            Some(sign) => sign,
            None => {
                let sign = time.sign();
                self.keep_sign(time, sign);
                sign
            }
        }
    }

    // Keeps whether the node had a turn between its ends. Of a node that is to be split the sign in its middle is kept
    // too.
    fn keep_verdict(&self, node: ValidNode, over: &Enclosure, verdict: Verdict) {
        if verdict != Verdict::Split {
            self.keep_turn(false);
            return;
        }
        self.keep_middle_sign(node, over);
        let turns = self.has_wanted_turn(node);
        self.keep_turn(turns);
    }
}

impl<N: Naming> Memory<N> {
    // Returns the verdict that the signs at a node's ends tell of a monotone function, if each of them is `Yes` or
    // `No`, or none.
    fn verdict_by_known_ends(&self, node: ValidNode) -> Option<Verdict>
        requires named { node.search.now ≡ N.search }
        ensures { IfSome result (IsByKnownEnds N.search node.entry.node) }
    {
        let (first, last) = node.end_signs(self);
        if is_known(first) && is_known(last) {
            Some(node.steady_verdict(first, last))
        } else {
            None
        }
    }

    // Returns the verdict of a node one tick wide, of an event without conditions: by the signs at its ends, or by
    // enclosures if one of these signs is open. No border falls into the node.
    fn unit_verdict(&self, node: ValidNode) -> Verdict
        requires named { node.search.now ≡ N.search }
        requires unit { IsPlainUnit node.search.now node.node }
        requires uncrossed { crosses node.search.now node.node ≡ false }
        ensures { result ≡ verdict_of N.search node.entry.node }
    {
        node.search.is_search();
        match self.verdict_by_known_ends(node) {
            Some(verdict) => verdict,
            None => node.borderless_verdict(self),
        }
    }

    // Tells whether the signs at a node's two ends are both remembered, and differ in the wanted direction.
    fn knows_turn(&self, node: ValidNode) -> bool
        requires named { node.search.now ≡ N.search }
        ensures { IsTrue result → differ N.search.event.dir
            (sign_at N.search node.entry.node.a) (sign_at N.search node.entry.node.b) ≡ true }
    {
        match (
            self.remembered_sign(node.first()),
            self.remembered_sign(node.last()),
        ) {
            (Some(first), Some(last)) => differ(node.search.event().dir(), first, last),
            _ => false,
        }
    }

    // Returns the verdict of a node whose end signs differ as wanted, by the limits.
    fn verdict_by_turn(&self, node: ValidNode) -> Verdict
        requires named { node.search.now ≡ N.search }
        requires plain { IsPlain node.search.now node.node }
        requires turn { differ N.search.event.dir
            (sign_at N.search node.node.a) (sign_at N.search node.node.b) ≡ true }
        ensures { result ≡ verdict_of N.search node.entry.node }
    {
        ends_that_differ();
        node.search.is_search();
        node.limit_verdict()
    }

    // Returns the verdict of a node if what is remembered shows it, or none.
    fn remembered_verdict(&self, node: ValidNode) -> Option<Verdict>
        requires named { node.search.now ≡ N.search }
        ensures { IfSome result (λ verdict. verdict ≡ verdict_of N.search node.entry.node) }
    {
        if self.knows_turn(node) && node.needs_only_limits() {
            Some(self.verdict_by_turn(node))
        } else {
            None
        }
    }

    // Tells whether the signs at a node's two ends, recalled or made anew, differ in the wanted direction.
    fn has_wanted_turn(&self, node: ValidNode) -> bool
        requires named { node.search.now ≡ N.search }
        ensures { IsTrue result → differ N.search.event.dir
            (sign_at N.search node.entry.node.a) (sign_at N.search node.entry.node.b) ≡ true }
    {
        let (first, last) = (self.sign_at(node.first()), self.sign_at(node.last()));
        differ(node.search.event().dir(), first, last)
    }

    // Keeps the sign in the middle of a node, by the enclosure over it all: the middle will be an end of its parts.
    fn keep_middle_sign(&self, node: ValidNode, over: &Enclosure)
        requires named { node.search.now ≡ N.search }
        requires uncrossed { crosses node.search.now node.node ≡ false }
        requires over { over.now ≡ whole_enclosure node.search.now node.node }
    {
        middles_are_told();
        node.search.is_search();
        self.keep_sign(node.middle(), over.mid.sign());
    }

    // Returns the verdict of a node with no border in it, if nothing that is remembered shows it. The signs at its ends
    // are asked first if they may tell it alone, or if the last such node had a turn between them.
    fn uncrossed_verdict(&self, node: ValidNode) -> Verdict
        requires named { node.search.now ≡ N.search }
        requires uncrossed { crosses node.search.now node.node ≡ false }
        ensures { result ≡ verdict_of N.search node.entry.node }
    {
        if !node.is_wide() && node.has_no_guard() {
            self.unit_verdict(node)
        } else if self.expects_turn() && node.needs_only_limits() && self.has_wanted_turn(node) {
            self.verdict_by_turn(node)
        } else {
            node.borderless_verdict(self)
        }
    }

    /// Returns the verdict of a node, by what is remembered or anew.
    pub(crate) fn judge(&self, node: ValidNode) -> Verdict
        requires named { node.search.now ≡ N.search }
        ensures { result ≡ verdict_of N.search node.entry.node }
    {
        match self.remembered_verdict(node) {
            Some(verdict) => verdict,
            None => match node.nearest_border() {
                None => self.uncrossed_verdict(node),
                Some(_) => node.border_verdict(self),
            },
        }
    }
}
