// The steps.

use spec_bodies::{Factor, Quantity};
use spec_text::Decimal;

/// A step of a list. Its operands are earlier steps of the list, by their numbers, which count from 0.
///
/// Positions and lengths are in km, velocities in km per unit of time; factors and cosines are numbers.
#[derive(Clone, Copy)]
pub enum Step {
    /// A coordinate of a column, which counts from 1, along an axis of the files, which counts from 0.
    Column {
        quantity: Quantity,
        number: usize,
        axis: usize,
    },
    /// 0.
    Zero,
    /// A constant length.
    Length(Decimal),
    /// A constant from -1 to 1.
    Cosine(Decimal),
    /// A factor times a step.
    Scaled(Factor, usize),
    /// The sum of two steps.
    Sum(usize, usize),
    /// The first step less the second.
    Difference(usize, usize),
    /// The product of two steps.
    Product(usize, usize),
    /// `x |x|` of a step `x`.
    SignedSquare(usize),
}
