// When two steps are the same operation on the same operands, so that the list needs one of them only. If a comparison
// missed two that are the same, both would stand in the list and no value would change.
ghost use Rattle.std.specs.Prelude.{◌≡◌, IsTrue};

use spec_bodies::{Factor, Quantity};
use spec_steps::Step;
use spec_text::Decimal;

// Tells whether two decimals have the same mantissa and the same exponent. Equal numbers of which these differ are not
// the same here.
fn is_same_decimal(x: Decimal, y: Decimal) -> bool
    ensures { IsTrue result → x ≡ y }
{
    x.mant == y.mant && x.exp == y.exp
}

// Tells whether the first column and axis, `number` and `axis`, are the second ones, `of` and `along`.
fn is_same_column(number: usize, axis: usize, of: usize, along: usize) -> bool
    ensures { IsTrue result → (number ≡ of) × (axis ≡ along) }
{
    number == of && axis == along
}

// Tells whether the operands x and y of one step are p and q of the other, in this order.
fn are_same_operands(x: usize, y: usize, p: usize, q: usize) -> bool
    ensures { IsTrue result → (x ≡ p) × (y ≡ q) }
{
    x == p && y == q
}

// Tells whether two factors are the same. A variant that is added to `Factor` needs a line here, or else its steps are
// not shared.
fn is_same_factor(x: Factor, y: Factor) -> bool
    ensures { IsTrue result → x ≡ y }
{
    match (x, y) {
        (Factor::MoonShare, Factor::MoonShare) => true,
        (Factor::Cosine, Factor::Cosine) => true,
        (Factor::Sine, Factor::Sine) => true,
        _ => false,
    }
}

/// Tells whether two quantities are the same: both positions, or both velocities.
pub(crate) fn is_same_quantity(x: Quantity, y: Quantity) -> bool
    ensures { IsTrue result → x ≡ y }
{
    match (x, y) {
        (Quantity::Position, Quantity::Position) => true,
        (Quantity::Velocity, Quantity::Velocity) => true,
        _ => false,
    }
}

/// Tells whether two steps are the same operation on the same operands, in the same order. Steps of other operations
/// with equal values are not the same, nor are x + y and y + x.
pub(crate) fn is_same_step(x: &Step, y: &Step) -> bool
    ensures { IsTrue result → x.now ≡ y.now }
{
    match (*x, *y) {
        (
            Step::Column {
                quantity: p,
                number: a,
                axis: b,
            },
            Step::Column {
                quantity: q,
                number: c,
                axis: d,
            },
        ) => is_same_quantity(p, q) && is_same_column(a, b, c, d),
        (Step::Zero, Step::Zero) => true,
        (Step::Length(a), Step::Length(b)) => is_same_decimal(a, b),
        (Step::Cosine(a), Step::Cosine(b)) => is_same_decimal(a, b),
        (Step::Scaled(f, a), Step::Scaled(g, b)) => is_same_factor(f, g) && a == b,
        (Step::Sum(a, b), Step::Sum(c, d)) => are_same_operands(a, b, c, d),
        (Step::Difference(a, b), Step::Difference(c, d)) => are_same_operands(a, b, c, d),
        (Step::Product(a, b), Step::Product(c, d)) => are_same_operands(a, b, c, d),
        (Step::SignedSquare(a), Step::SignedSquare(b)) => a == b,
        _ => false,
    }
}
