// What is known of the bodies: the enclosures of their coordinates.

ghost use Rattle.std.specs.Prelude.{◌≡◌, ◌<◌, ℤ};
ghost use Rattle.spec_intervals.specs.Fraction.{Fraction};
ghost use Rattle.spec_intervals.specs.Enclosure.{IsEnclosure, AllFractions, IsSpan, AllWithin, Enclosure as Parts};
ghost use Rattle.spec_expressions.specs.Term.{Leaf, position, velocity, IsLeaf, enclosure_of};
ghost use Rattle.event_expr.specs.States.{state_exponent};

use crate::formula::Formula;
use ival_core::Enclosure;

/// A source of enclosures of each coordinate of two targets, over spans of times in ticks of TDB since J2000.
/// Positions are in km and velocities in km a tick; targets are numbered 0 and 1, axes 0, 1 and 2.
pub trait States {
    /// The exact value of a coordinate at a time.
    ghost exact: { Self → Leaf → ℤ → Fraction };

    /// The enclosure that is returned for a coordinate over the times from the first to the last.
    ghost answer: { Self → Leaf → ℤ → ℤ → Parts };

    /// The pairs of times, first and last, that can be asked for.
    ghost fits: { Self → ℤ → ℤ → Type 0 };

    /// Returns the enclosure of a coordinate of a target's position, in km, over the times from `a` to `b`.
    fn pos(&self, target: u8, axis: u8, a: i64, b: i64) -> Enclosure
        requires target { target < 2 }
        requires axis { axis < 3 }
        requires fits { fits self.now a b }
        ensures { result ≡ answer self.now (position target axis) a b };

    /// Returns the enclosure of a coordinate of a target's velocity, in km a tick, over the times from `a` to `b`.
    fn vel(&self, target: u8, axis: u8, a: i64, b: i64) -> Enclosure
        requires target { target < 2 }
        requires axis { axis < 3 }
        requires fits { fits self.now a b }
        ensures { result ≡ answer self.now (velocity target axis) a b };

    /// Returns a formula's enclosure over the times from `a` to `b`, by the rules on enclosures of its coordinates.
    fn enclosure(&self, f: &Formula, a: i64, b: i64) -> Enclosure
        requires fits { fits self.now a b }
        ensures { result ≡ enclosure_of (λ leaf. answer self.now leaf a b) a b f.now };

    /// The times that fit are in order, and at most 2^50 in magnitude.
    ghost spans: { (s : Self) (a b : ℤ) → fits s a b → IsSpan a b };

    /// The exact value is a number at each time that is asked for.
    ghost numbers: { (s : Self) (leaf : Leaf) (a b : ℤ) → IsLeaf leaf → fits s a b
        → AllFractions (exact s leaf) a b };

    /// What is returned holds the exact value: in the middle, at each time, and from each time to the next.
    ghost holds: { (s : Self) (leaf : Leaf) (a b : ℤ) → IsLeaf leaf → fits s a b
        → IsEnclosure (exact s leaf) a b (answer s leaf a b) };

    /// What is returned has exponents within the limit.
    ghost within: { (s : Self) (leaf : Leaf) (a b : ℤ) → IsLeaf leaf → fits s a b
        → AllWithin state_exponent (answer s leaf a b) };
}
