// The tests that show, by a function's sign over a node and by its steps, that it has no turn there.
ghost use Rattle.std.specs.Prelude.{◌≡◌};
ghost use Rattle.spec_events.specs.Stages.{is_turnless};
ghost use Rattle.spec_events.specs.Verdict.{falls, is_known, is_one_way, rises, steps_against};
ghost use Rattle.gf_hooks.specs.Held.{steps_interval};

use crate::steps::Steps;
use spec_events::Dir;
use spec_intervals::Sign;

// Tells whether a sign is known: `Yes` or `No`, but not `Open`.
#[inline(always)]
fn is_known(sign: Sign) -> bool
    ensures { result ≡ is_known sign }
{
    matches!(sign, Sign::Yes | Sign::No)
}

// Tells whether the function rises or stays from each time to the next: the lower end of its steps is not below 0.
#[inline(always)]
fn has_no_falling_step(steps: Steps) -> bool
    ensures { result ≡ rises (steps_interval steps) }
{
    steps.lo >= 0
}

// Tells whether the function falls or stays from each time to the next: the upper end of its steps is not above 0.
#[inline(always)]
fn has_no_rising_step(steps: Steps) -> bool
    ensures { result ≡ falls (steps_interval steps) }
{
    steps.hi <= 0
}

/// Tells whether the function is monotone: none of its steps falls, or none rises. Then the signs at the ends of a
/// node show its turns.
#[inline(always)]
pub fn is_one_way(steps: Steps) -> bool
    ensures { result ≡ is_one_way (steps_interval steps) }
{
    has_no_falling_step(steps) || has_no_rising_step(steps)
}

// Tells whether no step of the function can make a turn in the direction that is wanted. It is false if both
// directions are wanted.
#[inline(always)]
fn lead_against_wanted(dir: Dir, steps: Steps) -> bool
    ensures { result ≡ steps_against dir (steps_interval steps) }
{
    match dir {
        Dir::Any => false,
        Dir::Rise => has_no_rising_step(steps),
        Dir::Fall => has_no_falling_step(steps),
    }
}

/// Tells whether the function is known to have no turn that is wanted: it has one sign over all times, or none of its
/// steps leads in the direction that is wanted.
#[inline(always)]
pub fn is_turnless(dir: Dir, over: Sign, steps: Steps) -> bool
    ensures { result ≡ is_turnless dir over (steps_interval steps) }
{
    is_known(over) || lead_against_wanted(dir, steps)
}
