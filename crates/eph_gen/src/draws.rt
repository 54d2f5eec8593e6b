// Pseudo-random draws from a seed.
ghost use Rattle.std.specs.Prelude.{◌≡◌};
ghost use Rattle.spec_generated.specs.Draws.{drawn, next_state};

use spec_generated::{FACTOR, INCREMENT};
use std::marker::Model;

/// A linear congruential generator of 64 bits, whose upper halves are the draws. The factor is Knuth's of MMIX.
#[derive(Drop)]
pub struct Draws {
    state: u64,
}

impl Model for Draws {
    ghost use Rattle.std.specs.Prelude.{ℕ};

    ghost Value = { ℕ };

    ghost view = { λ d. d.state };
}

impl Draws {
    /// Starts the draws of this seed, of which none is taken yet.
    pub fn new(seed: u64) -> Self
        ensures { result ≡ seed }
    {
        Draws { state: seed }
    }

    /// Returns the next draw, a number of 32 bits: the upper half of the next state.
    pub fn draw(&mut self) -> u32
        ensures moved { self.new ≡ next_state self.old }
        ensures drawn { result ≡ drawn self.new }
    {
        self.state = self.state.wrapping_mul(FACTOR).wrapping_add(INCREMENT);
        (self.state >> 32) as u32
    }
}
