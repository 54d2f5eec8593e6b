// The factors by which velocities are scaled, one for each length of granules.
ghost use Rattle.std.specs.Prelude.{◌<◌, ◌≤ℤ◌, pos, unsigned_abs, IfSome};
ghost use Rattle.event_models.specs.Factors.{IsFactor};

use body_states::Quantity;
use ival_core::Ival;
use span_models::Model;

/// How many factors are kept. Two bodies and the observer are made of no more columns, so that all lengths find room.
const KEPT_FACTORS: usize = 4;

/// A length of granules, at least 1 unit of time, with a model of 2 divided by it.
#[derive(Clone, Copy)]
struct LengthFactor {
    seconds: i64,
    factor: Model,
    ghost is: { IsFactor (unsigned_abs seconds) factor },
}

/// The factors of up to four lengths. A fifth takes the place of the first.
#[derive(Drop)]
pub(crate) struct LengthFactors {
    factors: [Option<LengthFactor>; KEPT_FACTORS],
    next: usize,
    ghost within: { next < 4 },
}

impl LengthFactors {
    /// Makes room for four factors, without a factor.
    pub fn new() -> LengthFactors {
        LengthFactors {
            factors: [None; KEPT_FACTORS],
            next: 0,
        }
    }

    /// Keeps the factor of a length, unless it is kept already or the quantity needs none, as positions do.
    pub fn keep_for(&mut self, quantity: Quantity, seconds: i64)
        requires long { pos 1 ≤ℤ seconds }
    {
        if quantity == Quantity::Velocity && self.kept_factor(seconds).is_none() {
            self.factors[self.next] = factor_with_length(seconds);
            self.next = (self.next + 1) % KEPT_FACTORS;
        }
    }

    /// Returns a model of 2 divided by a length, which is made anew if it is not kept, or None if it passes its limits.
    pub fn factor(&self, seconds: i64) -> Option<Model>
        requires long { pos 1 ≤ℤ seconds }
        ensures { IfSome result (IsFactor (unsigned_abs seconds)) }
    {
        match self.kept_factor(seconds) {
            Some(factor) => Some(factor),
            None => length_factor(seconds),
        }
    }

    // Returns the model of 2 divided by a length that is kept, or None if none is.
    fn kept_factor(&self, seconds: i64) -> Option<Model>
        ensures { IfSome result (IsFactor (unsigned_abs seconds)) }
    {
        for place in 0..KEPT_FACTORS {
            match self.factors[place] {
                Some(kept) if kept.seconds == seconds => return Some(kept.factor),
                _ => (),
            }
        }
        None
    }
}

// Returns a length with the model of 2 divided by it, or None if the model passes its limits.
fn factor_with_length(seconds: i64) -> Option<LengthFactor>
    requires long { pos 1 ≤ℤ seconds }
{
    match length_factor(seconds) {
        Some(factor) => Some(LengthFactor { seconds, factor }),
        None => None,
    }
}

// Makes a model of 2 divided by a length, or None if it passes its limits.
fn length_factor(seconds: i64) -> Option<Model>
    requires long { pos 1 ≤ℤ seconds }
    ensures { IfSome result (IsFactor (unsigned_abs seconds)) }
{
    Model::of_interval(Ival::scale(1 << 120, 1 << 120, -120, seconds))
}
