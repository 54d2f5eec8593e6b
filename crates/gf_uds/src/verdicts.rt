// The verdict of a node, by what is known of the scalar.
ghost use Rattle.std.specs.Prelude.{◌≡◌, ◌^◌, ◌≤ℤ◌, ◌<ℤ◌, [], neg_ℤ, pos};
ghost use Rattle.spec_trees.specs.Cuts.{is_wide};
ghost use Rattle.spec_events.specs.Stages.{end_verdict, limit_verdict};
ghost use Rattle.spec_scalars.specs.Searches.{criteria_of};
ghost use Rattle.gf_uds.specs.Found.{is_steady_by, is_turnless_by, reach_sign};

use gf_hooks::{Steps, differ, has_no_turn, is_one_way, turn_to};
use halving::{Node, Verdict};
use spec_intervals::Sign;
use spec_scalars::{Plan, Reach};

/// Returns the sign that all values within the bounds have: `Yes` if none is below 0, `No` if all are, else `Open`.
pub(crate) fn reach_sign(reach: Reach) -> Sign
    ensures { result ≡ reach_sign reach }
{
    if reach.lo >= 0 {
        Sign::Yes
    } else if reach.hi < 0 {
        Sign::No
    } else {
        Sign::Open
    }
}

// Returns the part of a scalar's bounds that bounds its change from each time to the next.
fn step_bounds(reach: Reach) -> Steps
    ensures { result ≡ record { lo = reach.step_lo; hi = reach.step_hi } }
{
    Steps {
        lo: reach.step_lo,
        hi: reach.step_hi,
    }
}

/// Tells whether `whole`, the bounds of the scalar over a whole node, shows that the scalar nowhere in the node passes
/// 0 in a direction that the plan wants.
pub(crate) fn is_turnless(plan: Plan, whole: Reach) -> bool
    ensures { result ≡ is_turnless_by plan whole }
{
    gf_hooks::is_turnless(plan.dir, reach_sign(whole), step_bounds(whole))
}

// Tells whether a node is wider than one time, so that a time lies strictly between its ends.
fn is_wider_than_one(node: Node) -> bool
    requires inside { node.a <ℤ node.b }
    requires early { neg_ℤ (pos (2 ^ 50)) ≤ℤ node.a }
    requires late { node.b ≤ℤ pos (2 ^ 50) }
    ensures { result ≡ is_wide node }
{
    node.b - node.a > 1
}

/// Tells whether the scalar's signs at a node's two ends decide how often it passes 0 between them. They do if the node
/// has only one time after its first, and if its bounds `whole` show that the scalar only rises or only falls.
pub(crate) fn is_decided_by_ends(node: Node, whole: Reach) -> bool
    requires inside { node.a <ℤ node.b }
    requires early { neg_ℤ (pos (2 ^ 50)) ≤ℤ node.a }
    requires late { node.b ≤ℤ pos (2 ^ 50) }
    ensures { result ≡ is_steady_by node whole }
{
    !is_wider_than_one(node) || is_one_way(step_bounds(whole))
}

/// Returns the verdict of a node of which neither the bounds nor the signs at the ends decide. It is split if it is
/// wider than the plan's width and less deep than its depth, and else undecided.
pub(crate) fn verdict_by_limits(plan: Plan, node: Node) -> Verdict
    requires inside { node.a <ℤ node.b }
    requires early { neg_ℤ (pos (2 ^ 50)) ≤ℤ node.a }
    requires late { node.b ≤ℤ pos (2 ^ 50) }
    ensures { result ≡ limit_verdict (criteria_of plan) node }
{
    if node.b.abs_diff(node.a) > plan.width && node.depth < plan.depth {
        Verdict::Split
    } else {
        Verdict::Undecided
    }
}

/// Returns the verdict of a node by the scalar's signs at its two ends, if they decide how it passes 0 between them.
/// The node is clear if they show no wanted turn. It is one event if they differ and the node is no wider than the
/// plan's width. Else it is split, or undecided at the limits of width and depth.
pub(crate) fn verdict_by_ends(plan: Plan, node: Node, first: Sign, last: Sign) -> Verdict
    requires inside { node.a <ℤ node.b }
    requires early { neg_ℤ (pos (2 ^ 50)) ≤ℤ node.a }
    requires late { node.b ≤ℤ pos (2 ^ 50) }
    ensures { result ≡ end_verdict (criteria_of plan) node [] first last }
{
    if has_no_turn(plan.dir, first, last) {
        Verdict::Clear
    } else if node.b.abs_diff(node.a) <= plan.width && differ(plan.dir, first, last) {
        Verdict::One(turn_to(last))
    } else {
        verdict_by_limits(plan, node)
    }
}
