// What a scalar is.
ghost use Rattle.std.specs.Prelude.{◌≡◌, ◌≤ℤ◌};
ghost use Rattle.spec_scalars.specs.Scalars.{KeepsReach, Scalar};

use spec_scalars::Reach;

/// The law of a scalar, which is a whole number at each whole time of a range. What the times and the numbers count
/// is the law's own affair. Whoever has a closure keeps it in a type of their own, and calls it in `reach`.
pub trait Law {
    /// The first and the last of its times, its value at each of them, and what is known of it over each span of
    /// them.
    ghost scalar: { Self → Scalar };

    /// Returns the bounds that the law knows of its scalar over the times from `a` to `b`: of its values, and of its
    /// changes from each of these times to the next.
    fn reach(&self, a: i64, b: i64) -> Reach
        requires from { (scalar self.now).first ≤ℤ a }
        requires ordered { a ≤ℤ b }
        requires to { b ≤ℤ (scalar self.now).last }
        ensures { result ≡ (scalar self.now).reach a b };

    /// What is known is so: the value keeps between the two bounds, and its change from each time to the next between
    /// the other two.
    ghost keeps: { (law : Self) → KeepsReach (scalar law) };
}

/// States that the bounds that a law's `reach` returns hold for its scalar: each value and each change from a time to
/// the next lies between them. The call does nothing when it runs.
pub fn law_holds<L: Law>(law: &L)
    ensures { KeepsReach (L.scalar law.now) }
{}
