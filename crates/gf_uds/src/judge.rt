// The judge of the nodes of a scalar's search.
ghost use Rattle.std.specs.Prelude.{◌<◌};
ghost use Rattle.spec_trees.specs.Tree.{IsSound};
ghost use Rattle.spec_scalars.specs.Searches.{rules, search_over};

use crate::law::Law;
use crate::scalar::Scalar;
use spec_scalars::Plan;

/// A judge of the nodes of a search for the times at which a scalar passes 0 in a wanted direction. It decides by
/// what is known of the scalar over the whole node and at its ends, and cuts the nodes that are split.
#[derive(Drop)]
pub struct ScalarJudge<L: Law + Drop> {
    /// The scalar.
    pub scalar: Scalar<L>,
    /// How it is searched.
    pub plan: Plan,
    ghost some_width: { 0 < plan.width },
    ghost sound: { IsSound (rules (search_over (L.scalar scalar.law)
        scalar.first scalar.last plan)) },
}
