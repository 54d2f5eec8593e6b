// What tells the sign of a function at single times.
ghost use Rattle.std.specs.Prelude.{◌≡◌, ℤ};
ghost use Rattle.spec_intervals.specs.declared.signs.Sign.{Sign};

use ival_core::Sign;

/// Tells the sign of a function at single times, in the caller's ticks.
pub trait SignSource {
    /// The sign at each time.
    ghost sign: { Self → ℤ → Sign };

    /// The times that can be asked for.
    ghost fits: { Self → ℤ → Type 0 };

    /// Returns the sign of the function at a time, or `Open` if it is not known.
    fn sign_at(&self, t: i64) -> Sign
        requires { fits self.now t }
        ensures { result ≡ sign self.now t };
}
