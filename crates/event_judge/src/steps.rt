// The steps of a function over some times, and what they show of its turns there.
ghost use Rattle.std.specs.Prelude.{◌≡◌};
ghost use Rattle.spec_intervals.specs.Signs.{sign_of};
ghost use Rattle.spec_events.specs.Stages.{is_turnless};
ghost use Rattle.spec_events.specs.Verdict.{is_one_way};

use gf_hooks::Steps;
use ival_core::{Enclosure, Ival};
use spec_events::Dir;

// Returns the two ends of an interval of steps, in the interval's own unit.
#[inline(always)]
fn step_ends(step: &Ival) -> Steps
    ensures lo { result.lo ≡ step.now.lo }
    ensures hi { result.hi ≡ step.now.hi }
{
    let (lo, hi, _) = step.parts();
    Steps { lo, hi }
}

/// Tells whether a function only rises or only falls, by its steps: then signs at two ends show the turns between them.
#[inline(always)]
pub(crate) fn is_monotone(step: Ival) -> bool
    ensures { result ≡ is_one_way step }
{
    gf_hooks::is_one_way(step_ends(&step))
}

/// Tells whether an enclosure shows that its function has no wanted turn: it has one sign, or no step leads that way.
#[inline(always)]
pub(crate) fn is_turnless(dir: Dir, over: &Enclosure) -> bool
    ensures { result ≡ is_turnless dir (sign_of over.now.range) over.now.step }
{
    gf_hooks::is_turnless(dir, over.range.sign(), step_ends(&over.step))
}
