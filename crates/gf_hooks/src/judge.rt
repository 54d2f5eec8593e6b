// The judge: who decides which nodes are split, and where.
ghost use Rattle.std.specs.Prelude.{◌≡◌};
ghost use Rattle.spec_trees.specs.Tree.{Cuts, IsSound, IsValid, Rules};
ghost use Rattle.spec_trees.specs.declared.tree.Verdict.TheVariants.{Split};

use spec_trees::{Node, Verdict};

/// A judge decides which nodes are split, and where. Neither ever changes, and both are known of each valid node.
pub trait Judge: Sync {
    /// The first and the last time and the greatest depth of valid nodes, and the verdict and the parts of each.
    ghost rules: { Self → Rules };

    /// Returns the verdict on a valid node: clear, one event, to be split, or undecided.
    fn judge(&self, node: Node) -> Verdict
        requires { IsValid (rules self.now) node }
        ensures { result ≡ (rules self.now).verdict node };

    /// Returns the two parts of a valid node that is to be split. They are valid, and meet in one time strictly
    /// inside the node.
    fn cut(&self, node: Node) -> (Node, Node)
        requires valid { IsValid (rules self.now) node }
        requires split { (rules self.now).verdict node ≡ Split }
        ensures parts { result ≡ (rules self.now).parts node }
        ensures cuts { Cuts node result.0 result.1 }
        ensures left { IsValid (rules self.now) result.0 }
        ensures right { IsValid (rules self.now) result.1 };

    /// The times are within 2^50, and the parts of a valid node that is split are valid and cut it.
    ghost sound: { (judge : Self) → IsSound (rules judge) };
}

/// States that the rules of each judge are sound: the parts of a valid node that is split are valid and cut it.
/// Nothing is done.
pub fn rules_are_sound<J: Judge>(judge: &J)
    ensures { IsSound (J.rules judge.now) }
{}
