// The enclosure of a formula, from the enclosures of its coordinates that states return.

ghost use Rattle.std.specs.Prelude.{◌≡◌, ◌≤ℤ◌, ◌<ℤ◌, ℤ};
ghost use Rattle.spec_intervals.specs.Fraction.{Holds};
ghost use Rattle.spec_intervals.specs.Enclosure.{middle, change};
ghost use Rattle.spec_expressions.specs.Term.{exact_of, enclosure_of};

use crate::formula::Formula;
use crate::states::States;
use ival_core::Enclosure;

/// Returns a formula's enclosure over the times from `a` to `b`, by interval arithmetic on the states' enclosures of
/// its coordinates. It holds the exact value in the middle, those at all times, and the changes from each time to the
/// next. `let _expr` computes nothing: that call's contract brings in the limits on which these promises stand.
pub fn enclose<S: States>(f: &Formula, states: &S, a: i64, b: i64) -> Enclosure
    requires fits { S.fits states.now a b }
    ensures equals { result ≡ enclosure_of (λ leaf. S.answer states.now leaf a b) a b f.now }
    ensures mid { Holds result.mid (exact_of (S.exact states.now) f.now (middle a b)) }
    ensures range { (t : ℤ) → a ≤ℤ t → t ≤ℤ b
        → Holds result.range (exact_of (S.exact states.now) f.now t) }
    ensures step { (t : ℤ) → a ≤ℤ t → t <ℤ b
        → Holds result.step (change (exact_of (S.exact states.now) f.now) t) }
{
    let _expr = f.expr();
    states.enclosure(f, a, b)
}
