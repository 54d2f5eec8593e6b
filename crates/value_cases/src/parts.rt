// Intervals, decimals and pairs, as the numbers of a row.
use crate::fields::Fields;
use spec_text::Decimal;

/// The three numbers of an interval: low end, high end and exponent of 2.
pub type Parts = (i128, i128, i32);

/// Reads the three numbers of an interval: its low end, its high end, and the exponent of 2 of their unit.
pub fn next_interval_parts(fields: &mut Fields<'_>) -> Parts {
    let lo = fields.next_number::<i128>();
    let hi = fields.next_number::<i128>();
    let s = fields.next_number::<i32>();
    (lo, hi, s)
}

/// Reads a decimal: its mantissa and its exponent of ten.
pub fn next_decimal(fields: &mut Fields<'_>) -> Decimal {
    let mant = fields.next_number::<i64>();
    let exp = fields.next_number::<i16>();
    Decimal { mant, exp }
}

/// Reads two whole numbers, such as the first and the last time of a span.
pub fn next_pair(fields: &mut Fields<'_>) -> (i64, i64) {
    let first = fields.next_number::<i64>();
    let second = fields.next_number::<i64>();
    (first, second)
}
