// Laws of every run over an ephemeris. Each is the contract of a function that does nothing.
ghost use Rattle.std.specs.Prelude.{◌≡◌, ◌≢◌, ◌<◌, ◌≤◌, ◌<ℤ◌, ◌≤ℤ◌, ◌-ℤ◌, None, false, pos, true};
ghost use Rattle.spec_ephemeris.specs.Ephemeris.{Ephemeris, IsEphemeris};
ghost use Rattle.spec_trees.specs.declared.tree.Node.{Node};
ghost use Rattle.spec_searches.specs.Search.{Search, crosses};
ghost use Rattle.spec_requests.specs.declared.request.ScalarAsk.{ScalarAsk};
ghost use Rattle.spec_requests.specs.Limits.{IsScalarWithinLimits};
ghost use Rattle.spec_outcomes.specs.Certificates.{cutting};
ghost use Rattle.spec_outcomes.specs.Outcomes.{cause_of};
ghost use Rattle.spec_outcomes.specs.Queries.{AreFound, IsQuery, leaves_in, search};
ghost use Rattle.spec_outcomes.specs.Refusals.{status_of};
ghost use Rattle.spec_outcomes.specs.Scalars.{ArePassings, scalar_windows};

use crate::query::{Query, Span};
use crate::refusal::Refusal;
use crate::statuses::{NOT_WRITTEN, REPORTED};

/// States that a search over a checked ephemeris, against which no cause stands, finds all events of its query: the
/// windows of its leaves are those of the events in the span.
pub fn searches_find_the_events()
    ensures { (q : Query) (e : Ephemeris) (span : Span) → IsEphemeris e → 0 < e.blocks → IsQuery q
        → cause_of q e span ≡ None → AreFound (search q e) span (leaves_in (search q e) span) }
{}

/// States that the search of a polynomial within its limits finds each time of a span at which it passes 0 in a wanted
/// direction: its windows are those of these times. The span has to hold at least one time.
pub fn polynomials_pass_0_in_their_windows()
    ensures { (ask : ScalarAsk) → IsScalarWithinLimits ask → ask.from <ℤ ask.to
        → ArePassings ask (scalar_windows ask) }
{}

/// States that no cause for which a run writes no text has an exit status of a run that has one: neither 0 nor 5.
pub fn refusals_have_statuses_of_their_own()
    ensures reported { (refusal : Refusal) → status_of refusal ≢ REPORTED }
    ensures unwritten { (refusal : Refusal) → status_of refusal ≢ NOT_WRITTEN }
{}

/// States which nodes a certificate may cut, whatever their verdict: those wider than a tick that lie above the
/// greatest depth or have a border of granules inside, and no others.
pub fn nodes_may_be_cut_further()
    ensures above { (s : Search) (n : Node) → pos 1 <ℤ (n.b -ℤ n.a) → n.depth < s.depth
        → (cutting s).may n ≡ true }
    ensures border { (s : Search) (n : Node) → pos 1 <ℤ (n.b -ℤ n.a) → crosses s n ≡ true
        → (cutting s).may n ≡ true }
    ensures narrow { (s : Search) (n : Node) → (n.b -ℤ n.a) ≤ℤ pos 1 → (cutting s).may n ≡ false }
    ensures below { (s : Search) (n : Node) → crosses s n ≡ false → s.depth ≤ n.depth
        → (cutting s).may n ≡ false }
{}
