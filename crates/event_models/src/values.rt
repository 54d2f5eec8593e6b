// Models of positions and velocities, from the models of their sums.
ghost use Rattle.std.specs.Prelude.{◌≡◌, ◌<◌, ◌≤◌, ◌+◌, ◌*◌, ◌/◌, ◌^◌, pos, ◌+ℤ◌, ◌≤ℤ◌, unsigned_abs, IfSome};
ghost use Rattle.spec_chebyshev.specs.Rows.{u_unit};
ghost use Rattle.spec_ephemeris.specs.Series.{Series};
ghost use Rattle.spec_motions.specs.Enclosures.{IsSeries, sum_exponent};
ghost use Rattle.spec_bodies.specs.declared.quantity.Quantity.TheVariants.{Position, Velocity};
ghost use Rattle.spec_covers.specs.Combining.{IsUpto, ScalesTo, scaled_loss};
ghost use Rattle.event_models.specs.Granules.{AreAxisSums, IsAxisModel, IsGranuleOver, IsServed, IsValueOf, first_place};

use crate::granules::axis_coefficients;
use crate::length_factors::LengthFactors;
use crate::row_room::RowRoom;
use crate::sums::weighted_sum;
use crate::times::ModelTimes;
use body_states::Quantity;
use eph_model::Granule;
use span_models::{Model, settled};

/// The exponent of 2 of the unit of a sum of coefficients times entries.
const SUM_EXPONENT: i32 = -24 - 42;

/// The exponent of 2 of the unit of a sum of coefficients times slopes, before it is divided.
const SLOPE_EXPONENT: i32 = -24 - 50;

/// Returns a model of a quantity along a granule's axis, by a row that serves it and the factors that are kept, or None if
/// a number passes its limit.
pub(crate) fn axis_model(
    quantity: Quantity,
    granule: &Granule,
    axis: usize,
    room: &RowRoom,
    times: &ModelTimes,
    factors: &LengthFactors,
) -> Option<Model>
    requires granule { IsGranuleOver times.now.first times.now.last granule.now }
    requires axis { axis < 3 }
    requires served { IsServed quantity times.now.first times.now.last granule.now room.now }
    ensures { IsAxisModel quantity times.now.first times.now.last granule.now axis result }
{
    let sum = sum_model(quantity, granule, axis, room, times)?;
    match quantity {
        Quantity::Position => position_model(&sum),
        Quantity::Velocity => velocity_model(&sum, granule.seconds, factors),
    }
}

// Returns a model of the sum of coefficients times a row's entries, or None if one is too wide or a limit is passed.
fn sum_model(
    quantity: Quantity,
    granule: &Granule,
    axis: usize,
    room: &RowRoom,
    times: &ModelTimes,
) -> Option<Model>
    requires granule { IsGranuleOver times.now.first times.now.last granule.now }
    requires axis { axis < 3 }
    requires served { IsServed quantity times.now.first times.now.last granule.now room.now }
    ensures { AreAxisSums quantity times.now.first times.now.last granule.now axis result }
{
    let pairs = axis_coefficients(granule, axis);
    let wide = weighted_sum(pairs, &room.rows, first_place(quantity))?;
    settled(&wide.coefficients, wide.error, SUM_EXPONENT)
}

// Returns the place of the first coefficient that counts: 0 for positions, 1 for velocities, which lack the constant.
fn first_place(quantity: Quantity) -> usize
    ensures equals { result ≡ first_place quantity }
    ensures few { result ≤ 1 }
{
    match quantity {
        Quantity::Position => 0,
        Quantity::Velocity => 1,
    }
}

// Returns a position's model from its sum's, with 64 units for its rounding, or None if the error passes its limit.
fn position_model(sum: &Model) -> Option<Model>
    ensures { (s : Series) → IfSome result (IsValueOf Position s sum.now) }
{
    let _error = sum.error();
    sum.widened(64)
}

// Returns a velocity's model from its sum's, times 2 / seconds of the granule, or None if it passes its limits.
fn velocity_model(sum: &Model, seconds: i64, factors: &LengthFactors) -> Option<Model>
    requires long { pos 1 ≤ℤ seconds }
    ensures { (s : Series) → IsSeries s → s.duration ≡ unsigned_abs seconds
        → IfSome result (IsValueOf Velocity s sum.now) }
{
    let product = scaled_model(sum, seconds, factors)?;
    let units = lost_units(sum, &product, seconds)?;
    product.widened(units)
}

// Returns a model of the numbers near a model times 2 / seconds. None is returned if it passes its limits.
fn scaled_model(sum: &Model, seconds: i64, factors: &LengthFactors) -> Option<Model>
    requires long { pos 1 ≤ℤ seconds }
    ensures { IfSome result (ScalesTo (unsigned_abs seconds) sum.now) }
{
    let factor = factors.factor(seconds)?;
    sum.product(&factor)
}

// Returns the most that a velocity's rounding changes, in units of `product`, or None if exponents are too far apart.
fn lost_units(sum: &Model, product: &Model, seconds: i64) -> Option<u64>
    requires long { pos 1 ≤ℤ seconds }
    ensures { IfSome result (λ units. IsUpto units product.now
        (scaled_loss (sum_exponent u_unit) sum.now (unsigned_abs seconds))) }
{
    let coarser = greater_exponent(product.exponent(), SLOPE_EXPONENT);
    let raised = exponent_gap(coarser, sum.exponent());
    let lowered = exponent_gap(product.exponent(), coarser);
    let _error = sum.error();
    if raised <= 41 && lowered <= 14 {
        Some(velocity_loss(raised, lowered, seconds))
    } else {
        None
    }
}

// Returns the greater of two exponents of 2.
fn greater_exponent(a: i32, b: i32) -> i32
    requires a { unsigned_abs a ≤ 2 ^ 20 }
    requires b { unsigned_abs b ≤ 2 ^ 20 }
    ensures first { a ≤ℤ result }
    ensures second { b ≤ℤ result }
    ensures small { unsigned_abs result ≤ 2 ^ 20 }
{
    if a < b { b } else { a }
}

// Returns by how much the exponent `to` is above `from`, and 0 if it is below.
fn exponent_gap(from: i32, to: i32) -> u32
    requires from { unsigned_abs from ≤ 2 ^ 20 }
    requires to { unsigned_abs to ≤ 2 ^ 20 }
    ensures upto { to ≤ℤ (from +ℤ pos result) }
    ensures exact { from ≤ℤ to → to ≡ from +ℤ pos result }
{
    if from < to { (to - from) as u32 } else { 0 }
}

// Returns the most that a velocity's rounding changes, `(floor(2^(7 + raised) / seconds) + 3) 2^lowered` units of the
// product, which are `lowered` bits finer than the enclosure's, if the sum loses `raised` bits.
fn velocity_loss(raised: u32, lowered: u32, seconds: i64) -> u64
    requires raised { raised ≤ 41 }
    requires lowered { lowered ≤ 14 }
    requires long { pos 1 ≤ℤ seconds }
    ensures { result ≡ (128 * 2 ^ raised / unsigned_abs seconds + 3) * 2 ^ lowered }
{
    power_multiple(quotient(power_multiple(128, raised), seconds) + 3, lowered)
}

// Returns `z` times 2 to the power of `k`, which is below 2^64.
fn power_multiple(z: u64, k: u32) -> u64
    requires few { k ≤ 41 }
    requires small { z * 2 ^ k < 2 ^ 64 }
    ensures { result ≡ z * 2 ^ k }
{
    z << k
}

// Returns `z / seconds`, rounded down.
fn quotient(z: u64, seconds: i64) -> u64
    requires long { pos 1 ≤ℤ seconds }
    ensures equals { result ≡ z / unsigned_abs seconds }
    ensures small { result ≤ z }
{
    z / seconds as u64
}
