// The coefficients of one axis as intervals.
ghost use Rattle.std.specs.Prelude.{◌≡◌, ◌<◌, length, map};
ghost use Rattle.spec_motions.specs.Pairs.{term_of, ArePairs};
ghost use Rattle.spec_motions.specs.Enclosures.{coefficients_of};
ghost use Rattle.spec_motions.specs.Granules.{IsEvaluable};
ghost use Rattle.spec_ephemeris.specs.Granules.{series_of};

use eph_model::{Granule, Rounded};
use std::marker::Model;

/// The coefficients of one axis of a granule as intervals, in units of 2^-24 km, from that of T_0 on. They are the
/// granule's own pairs, of which nothing is copied, and serve all spans within the granule.
#[derive(Drop)]
pub struct AxisCoefficients<'g> {
    pub(crate) pairs: &'g [Rounded],
}

impl<'g> Model for AxisCoefficients<'g> {
    ghost use Rattle.std.specs.Prelude.{List, map};
    ghost use Rattle.spec_chebyshev.specs.declared.ends.Ival62.{Ival62};
    ghost use Rattle.spec_motions.specs.Pairs.{term_of, ArePairs};

    ghost Value = { List Ival62 };

    ghost view = { λ t. map term_of t.pairs.now };

    ghost invariant = { λ t. ArePairs t.pairs.now };
}

impl<'g> AxisCoefficients<'g> {
    /// Returns the coefficients of an axis of a granule as intervals, from that of T_0 on. Axes are counted from 0.
    /// Nothing is copied.
    #[inline(always)]
    pub fn of(g: &Granule<'g>, axis: usize) -> AxisCoefficients<'g>
        requires granule { IsEvaluable g.now }
        requires axis { axis < g.now.comps }
        ensures terms { result ≡ coefficients_of (series_of g.now axis) }
        ensures count { length result ≡ g.now.n }
    {
        let from = axis * g.n;
        AxisCoefficients::of_pairs(&g.rounded[from..from + g.n])
    }

    // Makes the intervals of coefficients of their pairs, each a coefficient rounded down and up to units of 2^-24
    // km.
    #[inline(always)]
    fn of_pairs(pairs: &'g [Rounded]) -> AxisCoefficients<'g>
        requires { ArePairs pairs.now }
        ensures { result ≡ map term_of pairs.now }
    {
        AxisCoefficients { pairs }
    }
}
