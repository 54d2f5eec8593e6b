// The distance that the numbers near a model keep from 0.

ghost use Rattle.std.specs.Prelude.{◌+◌, ℤ, ◌≤ℤ◌, ◌<◌, ◌≤◌, unsigned_abs, IfSome};
ghost use Rattle.spec_intervals.specs.Fraction.{Fraction};
ghost use Rattle.spec_chebyshev.specs.Differences.{IsArgument};
ghost use Rattle.spec_models.specs.Models.{IsNear};
ghost use Rattle.span_models.specs.Margins.{KeepsFrom};
ghost use Rattle.span_models.specs.Tangents.{IsMarginOf, IsSmallTangent};

use crate::model::Model;
use crate::tangents::{Tangent, line_in_units, middle_and_width, tangent_on_line};
use spec_models::model_laws::{
    arguments, betweens, changes, constants, lists, operations, widenings,
};

/// A distance that numbers keep from 0 on one side of it: they are at least `size` times 2^`exponent` away.
#[derive(Clone, Copy, PartialEq, Eq)]
pub struct Margin {
    pub is_above: bool,
    pub size: u64,
    pub exponent: i32,
}

/// What a model shows of the numbers near it at some arguments.
#[derive(Clone, Copy)]
pub struct Outlook {
    /// The distance from 0 that all these numbers keep; none where some of them may be 0.
    pub margin: Option<Margin>,
    /// Whether no part of the arguments has a margin: the model is nowhere farther from 0 than its error.
    pub is_blurred: bool,
}

impl Model {
    /// Returns what is known of all numbers near the model, at the arguments from `first / q` to `last / q`: the
    /// distance that they keep from 0, and whether no part of these arguments has one. The second answer saves work,
    /// and no result rests on it.
    pub fn outlook(&self, first: i64, last: i64, q: i64) -> Outlook
        requires first { IsArgument first q }
        requires last { IsArgument last q }
        requires ordered { first ≤ℤ last }
        ensures { IfSome result.margin (λ g. (p : ℤ) (r : Fraction) → first ≤ℤ p → p ≤ℤ last
            → IsNear self.now p q r → KeepsFrom g r) }
    {
        arguments();
        betweens();
        changes();
        constants();
        lists();
        operations();
        widenings();
        let (middle, width) = middle_and_width(first, last, q);
        let line = line_in_units(middle, width, q);
        match tangent_on_line(self.coefficients(), &line) {
            Some(known) => Outlook {
                margin: tangent_margin(&known, self.error(), self.exponent()),
                is_blurred: is_blurred(&known, self.error()),
            },
            None => Outlook {
                margin: None,
                is_blurred: false,
            },
        }
    }
}

// Tells whether a tangent, its own error included, is nowhere farther from 0 than the error of the model that it
// belongs to. No part of its arguments has a margin then. No contract says so, because the answer only saves work.
#[inline(always)]
fn is_blurred(known: &Tangent, error: u64) -> bool
    requires known { IsSmallTangent known.now }
{
    known.value.unsigned_abs() + known.slope.unsigned_abs() + known.error <= error
}

// Returns the distance from 0 that all numbers within an error of a tangent keep, in units of `2^exponent`. None where
// some of them may be 0.
#[inline(always)]
fn tangent_margin(known: &Tangent, error: u64, exponent: i32) -> Option<Margin>
    requires known { IsSmallTangent known.now }
    ensures { IfSome result (IsMarginOf known.now.value
        (known.now.error + error + unsigned_abs known.now.slope) exponent) }
{
    let spread = (known.error + known.slope.unsigned_abs()) as u128 + error as u128;
    margin_beyond_spread(known.value, spread, exponent)
}

// Returns the distance from 0 that all numbers up to a spread from a value keep, in units of `2^exponent`. None where
// the spread reaches 0.
#[inline(always)]
fn margin_beyond_spread(value: i64, spread: u128, exponent: i32) -> Option<Margin>
    ensures { IfSome result (IsMarginOf value spread exponent) }
{
    let size = value.unsigned_abs() as u128;
    if size > spread {
        Some(Margin {
            is_above: value > 0,
            size: (size - spread) as u64,
            exponent,
        })
    } else {
        None
    }
}
