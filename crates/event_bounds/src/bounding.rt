// The bounds of formulas for which steps of a list stand.
ghost use Rattle.std.specs.Prelude.{◌≡◌, ◌<◌, ◌≤◌};
ghost use Rattle.spec_bodies.specs.Views.{Fits};
ghost use Rattle.spec_bounds.specs.Terms.{bound_over};
ghost use Rattle.spec_expressions.specs.Term.{Term};
ghost use Rattle.spec_steps.specs.ColumnTerms.{of_term, sight_of};
ghost use Rattle.column_steps.specs.Listed.{IsMadeAt, listed_term, slot_limit, step_count};
ghost use Rattle.event_bounds.specs.Spans.{IsBoundOf, IsSpanRight};

use crate::bound::Bound;
use crate::spans::Span;
use crate::times::BoundTimes;
use body_states::{BodyStates, Quantity, RangeRows};
use column_steps::{MAX_STEPS, StepList, StepPlace, fill};
use event_expr::rules::TimeSpan;
use ival_core::Ival;
use spec_steps::laws::terms_mean_their_formulas;

/// The number of slots that is enough for most formulas: fewer take less time to clear. They are less than 2,048 bytes.
const FEW_STEPS: usize = 42;

/// The number of slots for longer formulas, as for the extremes of separations, which have up to 91 steps.
const MANY_STEPS: usize = 96;

/// Returns the bound of the formula for which a step of a list stands, over the times from `a` to `b`. Times are in
/// the unit of the ephemeris that the states read. Parts that are the same are bounded once. Rows that are needed are
/// kept in `rows` for later calls, of any list and states.
pub fn bound_over(
    rows: &mut RangeRows,
    listed: StepPlace,
    states: &BodyStates,
    a: i64,
    b: i64,
) -> Bound
    requires sight { listed.steps.now.sight ≡ sight_of states.now }
    requires step { listed.place < step_count listed.steps.now }
    requires slot { listed.place < slot_limit }
    requires fits { Fits states.now a b }
    ensures range { (e : Term)
        → IsMadeAt listed.entry.steps.now listed.entry.place (of_term (sight_of states.now) e)
        → result.range ≡ (bound_over states.now e a b).range }
    ensures step { (e : Term)
        → IsMadeAt listed.entry.steps.now listed.entry.place (of_term (sight_of states.now) e)
        → result.step ≡ (bound_over states.now e a b).step }
{
    terms_mean_their_formulas();
    let (steps, place) = (listed.steps, listed.place);
    let times = TimeSpan::new(a, b);
    let axes = steps.axes_read(Quantity::Position, place);
    let position = states.column_ranges(Quantity::Position, axes, &times, rows);
    let axes = steps.axes_read(Quantity::Velocity, place);
    let velocity = states.column_ranges(Quantity::Velocity, axes, &times, rows);
    let span = Span {
        states,
        times: BoundTimes { span: &times },
        position: &position,
        velocity: &velocity,
    };
    step_bound(&span, steps, place)
}

// Returns the bound of a step's term, by the fewest of 42, 96 and 256 slots that are enough for the steps up to it.
fn step_bound(span: &Span, steps: &StepList, place: usize) -> Bound
    requires ready { IsSpanRight span.now }
    requires sight { steps.now.sight ≡ sight_of span.now.states.now }
    requires step { place < step_count steps.now }
    requires slot { place < slot_limit }
    ensures { IsBoundOf span.now (listed_term steps.now place) result }
{
    if place < FEW_STEPS {
        step_bound_by_slots::<FEW_STEPS>(span, steps, place)
    } else if place < MANY_STEPS {
        step_bound_by_slots::<MANY_STEPS>(span, steps, place)
    } else {
        step_bound_by_slots::<MAX_STEPS>(span, steps, place)
    }
}

// Returns the bound of a step's term by `N` slots, for it and those before. Not inlined, to clear these slots alone.
#[inline(never)]
fn step_bound_by_slots<const N: usize>(span: &Span, steps: &StepList, place: usize) -> Bound
    requires ready { IsSpanRight span.now }
    requires sight { steps.now.sight ≡ sight_of span.now.states.now }
    requires step { place < step_count steps.now }
    requires room { place < N }
    requires few { N ≤ 256 }
    ensures { IsBoundOf span.now (listed_term steps.now place) result }
{
    let zero = Ival::zero();
    let (range, step) = (zero, zero);
    let mut slots = [Bound { range, step }; N];
    fill(span, steps, 0, place + 1, &mut slots);
    slots[place]
}
