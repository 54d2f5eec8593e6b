// What a model tells of a function.
ghost use Rattle.std.specs.Prelude.{◌≡◌, ◌↔◌, ◌<◌, ◌≤◌, ◌*◌, IsTrue};
ghost use Rattle.spec_models.specs.Models.{bulk};
ghost use Rattle.event_models.specs.Signs.{greatest_ratio};

use span_models::{Margin, Model};

/// How many times as far from 0 as the nearest numbers near a model others may be, so that their side of 0 tells a sign.
const GREATEST_RATIO: u64 = 1 << 30;

/// What a model tells of a function at each time.
#[derive(Clone, Copy)]
pub enum Told {
    /// It covers the function's interval.
    Values,
    /// It tells the sign of the function's interval, which is that of the numbers near the model, if all these keep a margin
    /// from 0 and none of them is more than 2^30 times as far from 0 (`is_wide_enough`).
    Signs,
}

/// A model of a function over some times, and what it tells.
#[derive(Clone, Copy)]
pub struct FunctionModel {
    pub model: Model,
    pub told: Told,
}

/// Tells whether a margin from 0 of a model is wide enough for its side to tell a sign: no number near the model is more
/// than 2^30 times as far from 0.
pub fn is_wide_enough(model: &Model, margin: Margin) -> bool
    ensures exact { IsTrue result ↔ ((margin.exponent ≡ model.now.exponent)
        × (bulk model.now < margin.size * greatest_ratio)) }
    ensures unit { IsTrue result → margin.exponent ≡ model.now.exponent }
    ensures far { IsTrue result → bulk model.now ≤ margin.size * greatest_ratio }
{
    margin.exponent == model.exponent() && model.bulk() / GREATEST_RATIO < margin.size
}
