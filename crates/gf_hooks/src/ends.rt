// The turns between the ends of a node, by the signs of a function there.
ghost use Rattle.std.specs.Prelude.{◌≡◌};
ghost use Rattle.spec_events.specs.Events.{wants};
ghost use Rattle.spec_events.specs.Stages.{has_no_turn};
ghost use Rattle.spec_events.specs.Verdict.{agree, differ, differ_against, turn_to};

use spec_events::Dir;
use spec_intervals::Sign;
use spec_trees::Turn;

// Tells whether the signs at a first and a last time are known, `Yes` or `No`, and equal.
#[inline(always)]
fn are_known_and_equal(first: Sign, last: Sign) -> bool
    ensures { result ≡ agree first last }
{
    matches!((first, last), (Sign::Yes, Sign::Yes) | (Sign::No, Sign::No))
}

// Tells whether a turn has the direction that is wanted. With `Any` each turn has.
#[inline(always)]
fn is_wanted(dir: Dir, turn: Turn) -> bool
    ensures { result ≡ wants dir turn }
{
    match dir {
        Dir::Any => true,
        Dir::Rise => turn == Turn::Rise,
        Dir::Fall => turn == Turn::Fall,
    }
}

/// Tells whether the signs at a first and a last time are known and differ, so that the function turns between them,
/// and the turn has the direction that is wanted.
#[inline(always)]
pub fn differ(dir: Dir, first: Sign, last: Sign) -> bool
    ensures { result ≡ differ dir first last }
{
    match (first, last) {
        (Sign::No, Sign::Yes) => is_wanted(dir, Turn::Rise),
        (Sign::Yes, Sign::No) => is_wanted(dir, Turn::Fall),
        _ => false,
    }
}

// Tells whether the signs at a first and a last time are known and differ, but the turn between them does not have
// the direction that is wanted.
#[inline(always)]
fn differ_unwanted(dir: Dir, first: Sign, last: Sign) -> bool
    ensures { result ≡ differ_against dir first last }
{
    match (first, last) {
        (Sign::No, Sign::Yes) => !is_wanted(dir, Turn::Rise),
        (Sign::Yes, Sign::No) => !is_wanted(dir, Turn::Fall),
        _ => false,
    }
}

/// Tells whether the signs at a first and a last time are known, and show no turn in a wanted direction from the
/// first to the last.
#[inline(always)]
pub fn has_no_turn(dir: Dir, first: Sign, last: Sign) -> bool
    ensures { result ≡ has_no_turn dir first last }
{
    are_known_and_equal(first, last) || differ_unwanted(dir, first, last)
}

/// Returns the turn after which a function has this sign: a rise for `Yes`, else a fall.
#[inline(always)]
pub fn turn_to(sign: Sign) -> Turn
    ensures { result ≡ turn_to sign }
{
    match sign {
        Sign::Yes => Turn::Rise,
        Sign::No | Sign::Open => Turn::Fall,
    }
}
