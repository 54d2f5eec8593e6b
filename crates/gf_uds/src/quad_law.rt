// Quadratic polynomials as scalars.
ghost use Rattle.std.specs.Prelude.{◌≡◌, ◌≤◌, int_lt, true, unsigned_abs};
ghost use Rattle.spec_scalars.specs.declared.limits.TheConstants.{MAX_TIME};
ghost use Rattle.spec_scalars.specs.QuadLaws.{quads_keep_reach};
ghost use Rattle.spec_scalars.specs.Quads.{quad_reach, quad_scalar};

use crate::law::Law;
use crate::quad::Quad;
use crate::squares::Bound;
use spec_scalars::Reach;

// Returns the bounds of a polynomial's values from time `a` to a later time `b`, and of its steps, the changes from
// each of these times to the next. The steps are linear in the time, so they lie between the first and the last of
// them.
fn reach_of_span(quad: &Quad, a: i128, b: i128) -> Reach
    requires first { unsigned_abs a ≤ MAX_TIME }
    requires last { unsigned_abs b ≤ MAX_TIME }
    requires later { int_lt a b ≡ true }
    ensures { result ≡ quad_reach quad.now a b }
{
    let (first, last) = (quad.step_at(a), quad.step_at(b - 1));
    Reach {
        lo: quad.bound_over(Bound::Low, a, b),
        hi: quad.bound_over(Bound::High, a, b),
        step_lo: first.min(last),
        step_hi: first.max(last),
    }
}

impl Law for Quad {
    ghost scalar = { λ k. quad_scalar k };

    // Returns the bounds of the polynomial's values from time `a` to `b`, and of its steps, the changes from each of
    // these times to the next. A single time has no step, and both bounds of its steps are 0.
    fn reach(&self, a: i64, b: i64) -> Reach {
        let (a, b) = (i128::from(a), i128::from(b));
        if a < b {
            reach_of_span(self, a, b)
        } else {
            Reach {
                lo: self.bound_over(Bound::Low, a, b),
                hi: self.bound_over(Bound::High, a, b),
                step_lo: 0,
                step_hi: 0,
            }
        }
    }

    ghost keeps = { λ k. quads_keep_reach k };
}
