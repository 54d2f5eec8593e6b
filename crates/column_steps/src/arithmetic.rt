// How the value of a step is made of those of its operands.
ghost use Rattle.spec_steps.specs.declared.sights.Sight.{Sight};
ghost use Rattle.spec_steps.specs.ColumnTerms.{ColumnTerm, column as column_of, zero_term, length as length_of, cosine as cosine_of, scaled as scaled_of, sum as sum_of, difference as difference_of, product as product_of, signed_square as signed_square_of};
ghost use Rattle.spec_steps.specs.Parts.{IsPart};
ghost use Rattle.column_steps.specs.Values.{AreOperands, IsOperand};

use spec_bodies::{Factor, Quantity};
use spec_text::Decimal;

/// Rules by which the values of terms over columns are made. Values of columns and constants come from the rules alone,
/// and each other value from those of its operands. What a value is, say an enclosure, is up to each implementation.
pub trait Arithmetic {
    /// The type of the value of a term.
    type Value: Copy;

    /// Says that the rules themselves are fit for use.
    ghost is_ready: { Self → Type 0 };

    /// Says what is seen: the two targets, the observer and the frame.
    ghost sight: { Self → Sight };

    /// Says that a value is one of a term.
    ghost is_value: { Self → ColumnTerm → Self.Value → Type 0 };

    /// Returns the value of a position or a velocity of a column along an axis of the files. Columns are numbered from
    /// 1, axes from 0.
    fn column(&self, quantity: Quantity, number: usize, axis: usize) -> Self::Value
        requires ready { is_ready self.now }
        requires part { IsPart (sight self.now) (column_of quantity number axis) }
        ensures { is_value self.now (column_of quantity number axis) result };

    /// Returns the value of the constant 0.
    fn zero(&self) -> Self::Value
        requires ready { is_ready self.now }
        requires part { IsPart (sight self.now) zero_term }
        ensures { is_value self.now zero_term result };

    /// Returns the value of a constant length, in km.
    fn length(&self, km: Decimal) -> Self::Value
        requires ready { is_ready self.now }
        requires part { IsPart (sight self.now) (length_of km) }
        ensures { is_value self.now (length_of km) result };

    /// Returns the value of a constant without unit, which is from -1 to 1.
    fn cosine(&self, number: Decimal) -> Self::Value
        requires ready { is_ready self.now }
        requires part { IsPart (sight self.now) (cosine_of number) }
        ensures { is_value self.now (cosine_of number) result };

    /// Returns the value of an operand times a factor of the ephemeris, say the Moon's share of the mass.
    fn scaled(&self, factor: Factor, x: &Self::Value) -> Self::Value
        requires ready { is_ready self.now }
        requires operand { IsOperand (sight self.now) (is_value self.now) (scaled_of factor) x.now }
        ensures { (p : ColumnTerm) → IsPart (sight self.now) (scaled_of factor p)
            → is_value self.now p x.now → is_value self.now (scaled_of factor p) result };

    /// Returns the value of the sum of two operands, by their values.
    fn sum(&self, x: &Self::Value, y: &Self::Value) -> Self::Value
        requires ready { is_ready self.now }
        requires operands { AreOperands (sight self.now) (is_value self.now) sum_of x.now y.now }
        ensures { (p q : ColumnTerm) → IsPart (sight self.now) (sum_of p q)
            → is_value self.now p x.now → is_value self.now q y.now
            → is_value self.now (sum_of p q) result };

    /// Returns the value of the first operand less the second, by their values.
    fn difference(&self, x: &Self::Value, y: &Self::Value) -> Self::Value
        requires ready { is_ready self.now }
        requires operands { AreOperands (sight self.now) (is_value self.now) difference_of x.now y.now }
        ensures { (p q : ColumnTerm) → IsPart (sight self.now) (difference_of p q)
            → is_value self.now p x.now → is_value self.now q y.now
            → is_value self.now (difference_of p q) result };

    /// Returns the value of the product of two operands, by their values.
    fn product(&self, x: &Self::Value, y: &Self::Value) -> Self::Value
        requires ready { is_ready self.now }
        requires operands { AreOperands (sight self.now) (is_value self.now) product_of x.now y.now }
        ensures { (p q : ColumnTerm) → IsPart (sight self.now) (product_of p q)
            → is_value self.now p x.now → is_value self.now q y.now
            → is_value self.now (product_of p q) result };

    /// Returns the value of the signed square `x |x|` of an operand, by its value.
    fn signed_square(&self, x: &Self::Value) -> Self::Value
        requires ready { is_ready self.now }
        requires operand { IsOperand (sight self.now) (is_value self.now) signed_square_of x.now }
        ensures { (p : ColumnTerm) → IsPart (sight self.now) (signed_square_of p)
            → is_value self.now p x.now → is_value self.now (signed_square_of p) result };
}
