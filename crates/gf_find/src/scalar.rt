// The command `scalar`: the report of the windows of the times at which a polynomial passes 0.
ghost use Rattle.std.specs.Prelude.{◌≡◌, ◌⊎◌, Err, IfErr, IfOk};
ghost use Rattle.spec_trees.specs.Tree.{Covers};
ghost use Rattle.spec_trees.specs.Windows.{windows};
ghost use Rattle.spec_requests.specs.Limits.{IsScalarWithinLimits};
ghost use Rattle.spec_output.specs.Report.{scalar_report};
ghost use Rattle.spec_outcomes.specs.Scalars.{scalar_of};
ghost use Rattle.gf_find.specs.Scalars.{IsScalarReport};
ghost use Rattle.gf_find.specs.Searchers.{ReturnsPassings, TakesPolynomials};

use ordered_join::leaf_windows;
use spec_outcomes::Refusal;
use spec_requests::ScalarAsk;
use spec_trees::Leaf;
use std::alloc::Global;
use window_text::scalar_report;

// Returns the report of the windows that the leaves of a scalar's search make, which cover its span. The only error is
// out of memory.
fn report_of_leaves(alloc: Global, ask: &ScalarAsk, leaves: &[Leaf]) -> Result<Vec<u8>, Refusal>
    requires { Covers ask.now.from leaves.now ask.now.to }
    ensures text { IfOk result (λ text. text.items ≡ scalar_report ask.now (windows leaves.now)) }
    ensures memory { IfErr result (λ refusal. refusal ≡ Refusal.Memory) }
{
    let windows = leaf_windows(alloc, leaves)?;
    let text = scalar_report(alloc, ask, &windows)?;
    Ok(text)
}

/// Searches a span for the times at which a polynomial passes 0, and returns the report of their windows, or why there
/// is none. No file is opened.
pub(crate) fn report_of_scalar<C: Fn(&ScalarAsk) -> Result<Vec<Leaf>, Refusal>>(
    alloc: Global,
    ask: &ScalarAsk,
    scalar: &C,
) -> Result<Vec<u8>, Refusal>
    requires limits { IsScalarWithinLimits ask.now }
    requires takes_polynomials { TakesPolynomials (C.pre scalar.now) }
    requires returns_passings { ReturnsPassings (C.post scalar.now) }
    ensures report { IfOk result (λ text. IsScalarReport ask.now text.items) }
    ensures stopped { IfErr result (λ refusal. (refusal ≡ Refusal.Memory)
        ⊎ (scalar_of ask.now ≡ Err refusal)) }
{
    match scalar(ask) {
        Ok(leaves) => report_of_leaves(alloc, ask, &leaves),
        Err(refusal) => Err(refusal),
    }
}
