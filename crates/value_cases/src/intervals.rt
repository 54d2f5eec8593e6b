// Rows of the operations on intervals.
ghost use Rattle.std.specs.Prelude.{◌≡◌, ◌<◌, ◌^◌, ◌≤ℤ◌, IfOk, pos, unsigned_abs};
ghost use Rattle.spec_intervals.specs.Interval.{IsExponent};
ghost use Rattle.spec_intervals.specs.Fraction.{Holds, fraction};

use crate::fields::{Fields, RowError};
use crate::parts::{Parts, next_interval_parts};
use ival_core::{COSINE_EXPONENT, DISTANCE_EXPONENT, Divider, Ival, is_cosine, is_distance};

// The greatest magnitude of an exponent in a row.
const MAX_EXPONENT: i32 = 65_536;

// One past the greatest end that is scaled.
const END_LIMIT: i128 = 1 << 126;

// Returns the interval as it is if its exponent is from -65536 to 65536, as the operations require. Any other is
// malformed.
fn check_exponent(x: Ival) -> Result<Ival, RowError>
    ensures exponent { IfOk result (λ y. IsExponent y.s) }
    ensures same { IfOk result (λ y. y ≡ x) }
{
    let (_, _, exponent) = x.parts();
    if exponent < -MAX_EXPONENT || MAX_EXPONENT < exponent {
        return Err(RowError::Malformed);
    }
    Ok(x)
}

// Reads the three numbers of an interval, and returns the interval. Ends in the wrong order, or an exponent beyond
// 65536 in magnitude, are malformed.
fn next_interval(fields: &mut Fields<'_>) -> Result<Ival, RowError>
    ensures { IfOk result (λ x. IsExponent x.s) }
{
    let (lo, hi, s) = next_interval_parts(fields);
    if hi < lo || s < -MAX_EXPONENT || MAX_EXPONENT < s {
        return Err(RowError::Malformed);
    }
    check_exponent(Ival::of(lo, hi, s))
}

// Returns the interval of three numbers, which has to hold 0; any other is malformed. Two such intervals have a number
// in common, as an intersection requires.
fn interval_around_zero(parts: Parts) -> Result<Ival, RowError>
    ensures exponent { IfOk result (λ x. IsExponent x.s) }
    ensures zero { IfOk result (λ x. Holds x (fraction (pos 0) 1)) }
{
    let (lo, hi, s) = parts;
    if 0 < lo || hi < 0 || s < -MAX_EXPONENT || MAX_EXPONENT < s {
        return Err(RowError::Malformed);
    }
    check_exponent(Ival::of(lo, hi, s))
}

// Reads two intervals, each of which holds 0, and returns their intersection.
fn next_intersection(fields: &mut Fields<'_>) -> Result<Ival, RowError> {
    let first = interval_around_zero(next_interval_parts(fields))?;
    let second = interval_around_zero(next_interval_parts(fields))?;
    Ok(first.meet(second))
}

// Reads the mantissa and the exponent of ten of a decimal and an exponent of 2, and returns the interval that holds
// the decimal in units of that power of 2. Only the exponents of distances and of cosines are read, for decimals
// within their limits.
fn next_decimal_interval(fields: &mut Fields<'_>) -> Result<Ival, RowError> {
    let mant = fields.next_number::<i64>();
    let exp = fields.next_number::<i16>();
    let s = fields.next_number::<i32>();
    if s == DISTANCE_EXPONENT && is_distance(mant, exp) {
        return Ok(Ival::from_decimal(mant, exp, DISTANCE_EXPONENT));
    }
    if s == COSINE_EXPONENT && is_cosine(mant, exp) {
        return Ok(Ival::from_decimal(mant, exp, COSINE_EXPONENT));
    }
    Err(RowError::Malformed)
}

// Returns an interval times `2 / seconds`, computed in two ways: once from the seconds, and once from a divider of
// them.
fn scale_both_ways(lo: i128, hi: i128, s: i32, seconds: i64) -> (Ival, Ival)
    requires ordered { lo ≤ℤ hi }
    requires lo_size { unsigned_abs lo < 2 ^ 126 }
    requires hi_size { unsigned_abs hi < 2 ^ 126 }
    requires exponent { IsExponent s }
    requires length { pos 1 ≤ℤ seconds }
{
    let divider = Divider::of(seconds);
    (
        Ival::scale(lo, hi, s, seconds),
        Ival::scale_by(lo, hi, s, &divider),
    )
}

// Reads an interval and a number of seconds, and returns the interval times `2 / seconds`. None if the two ways to
// compute it differ.
fn next_scaled_interval(fields: &mut Fields<'_>) -> Result<Option<Ival>, RowError> {
    let (lo, hi, s) = next_interval_parts(fields);
    let seconds = fields.next_number::<i64>();
    if lo <= -END_LIMIT || hi < lo || END_LIMIT <= hi || seconds < 1 {
        return Err(RowError::Malformed);
    }
    if s < -MAX_EXPONENT || MAX_EXPONENT < s {
        return Err(RowError::Malformed);
    }
    let (share, again) = scale_both_ways(lo, hi, s, seconds);
    if share == again {
        Ok(Some(share))
    } else {
        Ok(None)
    }
}

// Reads two intervals, and returns the result of the named operation on them: `add`, `sub`, `mul` or `join`, which is
// the hull. Any other name is malformed.
fn result_of_two_operands(operation: &str, fields: &mut Fields<'_>) -> Result<Ival, RowError> {
    let x = next_interval(fields)?;
    let y = next_interval(fields)?;
    match operation {
        "add" => Ok(x.add(y)),
        "sub" => Ok(x.sub(y)),
        "mul" => Ok(x.mul(y)),
        "join" => Ok(x.join(y)),
        _ => Err(RowError::Malformed),
    }
}

// Reads the operands of the named operation, and returns the interval that it gives. None if the code has two ways to
// compute it and they differ.
fn result_of_operation(operation: &str, fields: &mut Fields<'_>) -> Result<Option<Ival>, RowError> {
    match operation {
        "meet" => Ok(Some(next_intersection(fields)?)),
        "signed_square" => Ok(Some(next_interval(fields)?.signed_square())),
        "of" => Ok(Some(next_interval(fields)?)),
        "scale" => next_scaled_interval(fields),
        "from_decimal" => Ok(Some(next_decimal_interval(fields)?)),
        _ => Ok(Some(result_of_two_operands(operation, fields)?)),
    }
}

/// Compares an operation on intervals: the row has the name of the operation, its operands, and the interval that it
/// gives.
pub(crate) fn operation_agrees(fields: &mut Fields<'_>) -> Result<bool, RowError> {
    let operation = fields.next_word();
    let found = result_of_operation(operation, fields)?;
    let expected = next_interval_parts(fields);
    match found {
        Some(found) => Ok(found.parts() == expected),
        None => Ok(false),
    }
}
