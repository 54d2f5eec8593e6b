// The expressions.

use spec_text::Decimal;

/// A value that changes with time: made of coordinates of two bodies and of constants.
/// Positions and lengths are in km, velocities in km a tick; cosines are numbers.
#[derive(Drop)]
pub enum Expr {
    /// A coordinate of a target's position.
    Pos { target: u8, axis: u8 },
    /// A coordinate of a target's velocity.
    Vel { target: u8, axis: u8 },
    /// A constant length.
    Length(Decimal),
    /// A constant from -1 to 1.
    Cosine(Decimal),
    /// The sum of two expressions.
    Add(Box<Expr>, Box<Expr>),
    /// The first expression less the second.
    Sub(Box<Expr>, Box<Expr>),
    /// The product of two expressions.
    Mul(Box<Expr>, Box<Expr>),
    /// The signed square `x |x|`, which has the sign of `x` and grows with it.
    SignedSquare(Box<Expr>),
}
