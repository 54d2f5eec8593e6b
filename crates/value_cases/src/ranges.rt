// Rows of the intervals of positions, of velocities and of their changes over a span of a granule.
ghost use Rattle.std.specs.Prelude.{◌<◌, ◌≤ℤ◌, ◌+ℤ◌};
ghost use Rattle.spec_motions.specs.Granules.{IsEvaluable};

use crate::fields::{Fields, RowError};
use crate::parts::{Parts, next_decimal, next_interval_parts, next_pair};
use cheby_difference::{position_step, velocity, velocity_step};
use cheby_enclose::{is_evaluable, position};
use eph_model::{Granule, Rounded, pair_of};
use ival_core::is_distance;
use spec_text::Decimal;
use std::alloc::Global;

// The farthest that a granule starts from J2000, in seconds.
const FARTHEST: i64 = 1 << 50;

// The greatest length of a granule, in seconds.
const LONGEST: i64 = 1 << 40;

// The number of components of a granule.
const COMPONENTS: usize = 3;

// The most coefficients of a component.
const MAX_COEFFICIENTS: usize = 32;

// Reads the coefficients of the three components of a granule, `n` of each. More than 32 of each are malformed.
fn next_coefficients(
    alloc: Global,
    fields: &mut Fields<'_>,
    n: usize,
) -> Result<Vec<Decimal>, RowError> {
    let mut coefs = Vec::new(alloc);
    if n > MAX_COEFFICIENTS {
        return Err(RowError::Malformed);
    }
    for _ in 0..COMPONENTS * n {
        coefs.push(next_decimal(fields))?;
    }
    Ok(coefs)
}

// Returns each coefficient, in km, rounded down and up to a whole number of units of 2^-24 km. A coefficient of 2^36
// km or more in magnitude is malformed.
fn rounded_pairs(alloc: Global, coefs: &[Decimal]) -> Result<Vec<Rounded>, RowError> {
    let mut pairs = Vec::new(alloc);
    for &c in coefs {
        if !is_distance(c.mant, c.exp) {
            return Err(RowError::Malformed);
        }
        pairs.push(pair_of(c))?;
    }
    Ok(pairs)
}

// Returns the intervals of a position along an axis, of its change from one time to the next, of the velocity, and of
// its change, over the times from `a` to `b`.
fn ranges_over_span(g: &Granule, axis: usize, a: i64, b: i64) -> [Parts; 4]
    requires granule { IsEvaluable g.now }
    requires axis { axis < g.now.comps }
    requires from { g.now.start ≤ℤ a }
    requires order { a ≤ℤ b }
    requires upto { b ≤ℤ (g.now.start +ℤ g.now.seconds) }
{
    [
        position(g, axis, a, b).parts(),
        position_step(g, axis, a, b).parts(),
        velocity(g, axis, a, b).parts(),
        velocity_step(g, axis, a, b).parts(),
    ]
}

// Returns the intervals of a position along an axis, of its step, of the velocity and of its step, over the times from
// `a` to `b`. A granule that cannot be evaluated, or a span outside of it, is malformed.
fn checked_ranges(g: &Granule, axis: usize, a: i64, b: i64) -> Result<[Parts; 4], RowError> {
    if !is_evaluable(g) || axis >= g.comps {
        return Err(RowError::Malformed);
    }
    if g.start < -FARTHEST || FARTHEST < g.start || g.seconds < 1 || LONGEST < g.seconds {
        return Err(RowError::Malformed);
    }
    let end = g.start + g.seconds;
    if a < g.start || b < a || end < b {
        return Err(RowError::Malformed);
    }
    Ok(ranges_over_span(g, axis, a, b))
}

// A granule without its coefficients, of which each axis has `n`, with an axis and a span.
#[derive(Clone, Copy)]
struct Scope {
    start: i64,
    seconds: i64,
    n: usize,
    axis: usize,
    a: i64,
    b: i64,
}

// Reads a granule without its coefficients, an axis and a span: the granule's first time and seconds, the coefficients
// of a component, the number of the axis, and the first and the last time.
fn next_scope(fields: &mut Fields<'_>) -> Scope {
    let (start, seconds) = next_pair(fields);
    let n = fields.next_number::<usize>();
    let axis = fields.next_number::<usize>();
    let (a, b) = next_pair(fields);
    Scope {
        start,
        seconds,
        n,
        axis,
        a,
        b,
    }
}

// Reads the four intervals that a row expects: of the position, of its step, of the velocity and of its step.
fn expected_ranges(fields: &mut Fields<'_>) -> [Parts; 4] {
    let position = next_interval_parts(fields);
    let position_step = next_interval_parts(fields);
    let velocity = next_interval_parts(fields);
    let velocity_step = next_interval_parts(fields);
    [position, position_step, velocity, velocity_step]
}

// Returns the intervals of the position, of its step, of the velocity and of its step over the axis and the span of a
// scope, for the granule with these coefficients.
fn ranges_of_scope(
    alloc: Global,
    scope: &Scope,
    coefs: &[Decimal],
) -> Result<[Parts; 4], RowError> {
    let rounded = rounded_pairs(alloc, coefs)?;
    let granule = Granule {
        start: scope.start,
        seconds: scope.seconds,
        n: scope.n,
        comps: COMPONENTS,
        coefs,
        rounded: &rounded,
    };
    checked_ranges(&granule, scope.axis, scope.a, scope.b)
}

/// Compares four intervals over a span: the row has a granule's first time, length and count of coefficients, an axis,
/// a span, the coefficients of all three axes, and the intervals of the position, of its step, of the velocity and of
/// its step. A step is the change from one time to the next.
pub(crate) fn ranges_agree(alloc: Global, fields: &mut Fields<'_>) -> Result<bool, RowError> {
    let scope = next_scope(fields);
    let coefs = next_coefficients(alloc, fields, scope.n)?;
    let found = ranges_of_scope(alloc, &scope, &coefs)?;
    Ok(expected_ranges(fields) == found)
}
