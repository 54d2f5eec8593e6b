// Whole numbers of units that a margin allows.
ghost use Rattle.std.specs.Prelude.{◌≡◌, ◌+◌, ◌*◌, ◌^◌, ◌≤◌, pos, ◌-ℤ◌, ◌≤ℤ◌, IfSome, IsTrue};
ghost use Rattle.spec_models.specs.Ends.{NoMore, greatest_end, in_units};
ghost use Rattle.spec_stills.specs.Margins.{StepsFit};
ghost use Rattle.event_bounds.specs.Made.{bound_made};
ghost use Rattle.span_models.specs.Margins.{margin_of};

use event_bounds::Bound;
use ival_core::Ival;
use span_models::Margin;

/// The greatest number of times that a number is doubled.
const MAX_DOUBLINGS: i64 = 60;

/// The greatest number of times that nodes of a span are halved.
const MAX_NODE_HALVINGS: u32 = 12;

/// The greatest width, in ticks, that is said of the nodes of a span.
const GREATEST_WIDTH: u128 = 1 << 60;

// Returns `size` times 2 to the power of `times`. The remainder by 64 changes nothing, and spares the compiled code a
// test for shifts that are too great.
fn power_multiple(size: u64, times: u32) -> u128
    requires { times ≤ 60 }
    ensures { result ≡ size * 2 ^ times }
{
    u128::from(size) * (1u128 << (times % 64))
}

// Returns `size` divided by 2 to the power of `times`, rounded down. It is 0 if `times` is 64 or more.
fn power_quotient(size: u64, times: u64) -> u128
    ensures { result * 2 ^ times ≤ size }
{
    if 63 < times {
        0
    } else {
        u128::from(size) >> (times % 64)
    }
}

// Returns by how much the exponent `high` is above `low`, or 60 if it is by more: 60 doublings of any 64-bit number
// fit into 128 bits.
fn exponent_rise(low: i32, high: i32) -> u32
    requires { low ≤ℤ high }
    ensures upto { pos result ≤ℤ (high -ℤ low) }
    ensures few { result ≤ 60 }
{
    (i64::from(high) - i64::from(low)).min(MAX_DOUBLINGS) as u32
}

// Returns by how much the exponent `high` is above `low`.
fn exponent_gap(low: i32, high: i32) -> u64
    requires { low ≤ℤ high }
    ensures { pos result ≡ high -ℤ low }
{
    (i64::from(high) - i64::from(low)) as u64
}

// Returns how many units of 2^`unit` fit into `size` units of 2^`exponent`, rounded down, or a smaller number if
// `exponent` is more than 60 above `unit`.
fn units_within(size: u64, exponent: i32, unit: i32) -> u128
    ensures { NoMore (in_units (pos result) unit) (in_units (pos size) exponent) }
{
    if unit <= exponent {
        power_multiple(size, exponent_rise(unit, exponent))
    } else {
        power_quotient(size, exponent_gap(exponent, unit))
    }
}

// Returns the greater magnitude of the two ends of an interval, in its units.
fn greatest_end(x: &Ival) -> u128
    ensures { result ≡ greatest_end x.now }
{
    let (lo, hi, _) = x.parts();
    lo.unsigned_abs().max(hi.unsigned_abs())
}

// Returns how many units of an interval fit into a margin, rounded down, or a smaller number if the margin's exponent
// is more than 60 above the interval's.
fn units_in_margin(x: &Ival, margin: Margin) -> u128
    ensures { NoMore (in_units (pos result) x.now.s) (margin_of margin) }
{
    units_within(margin.size, margin.exponent, x.parts().2)
}

// Returns a number of steps less one, but at most 2^60. None is returned if that would be below 1. A margin has to
// hold one step more than the node has.
fn steps_less_one(steps: u128) -> Option<u64>
    ensures { IfSome result (λ few. few + 1 ≤ steps) }
{
    if steps < 2 {
        None
    } else {
        Some((steps - 1).min(GREATEST_WIDTH) as u64)
    }
}

// Returns one less than the number of steps of `step` units that fit into `units`, at most 2^60, and 2^60 if a step
// takes no units. None is returned if fewer than two steps fit.
fn steps_within(units: u128, step: u128) -> Option<u64>
    ensures { IfSome result (λ few. step * (few + 1) ≤ units) }
{
    if step == 0 {
        return Some(GREATEST_WIDTH as u64);
    }
    steps_less_one(units / step)
}

// Returns at most 31 sixteenths of a number, a bit less than its double. From its middle to an end a node has half
// its steps, so all of them may be nearly twice what the margin at the middle allows.
fn take_31_sixteenths(units: u128) -> u128
    ensures { 16 * result ≤ 31 * units }
{
    (units / 16).saturating_mul(31)
}

// Tells whether 1024 units of an interval fit into a margin, so that rounding to these units loses little of it.
fn has_fine_unit(range: &Ival, margin: Margin) -> bool
    ensures { IsTrue result → NoMore (in_units (pos 1024) range.now.s) (margin_of margin) }
{
    1024 <= units_in_margin(range, margin)
}

/// Returns the greatest width in ticks of a node in which the steps of a bound cannot use up a margin. None is
/// returned if there is no such width, or if the bound's unit is too coarse for the margin.
pub(crate) fn max_width_by_steps(bound: &Bound, margin: Margin) -> Option<u64>
    ensures { IfSome result (λ few. StepsFit (bound_made bound.now) few (margin_of margin)) }
{
    if has_fine_unit(&bound.range, margin) {
        let units = units_in_margin(&bound.step, margin);
        steps_within(take_31_sixteenths(units), greatest_end(&bound.step))
    } else {
        None
    }
}

/// Returns how often a width is halved until it is at most `widest`. None is returned if that is more than 12 times.
pub(crate) fn halving_count(width: u64, widest: u64) -> Option<u32> {
    for times in 0..=MAX_NODE_HALVINGS {
        if width <= widest.saturating_mul(1 << times) {
            return Some(times);
        }
    }
    None
}
