// The trees of a search at a root.
ghost use Rattle.std.specs.Prelude.{◌≡◌, All};
ghost use Rattle.spec_trees.specs.Tree.{IsValid};
ghost use Rattle.spec_searches.specs.Found.{rules};
ghost use Rattle.spec_stills.specs.Still.{IsStill};

use event_judge::{EventSearch, Judge};
use spec_trees::Node;
use still_judge::StillList;

/// The trees of a search at a root, one in each manner, with its still spans. Both judges have the rules of the search.
#[derive(Drop)]
pub(crate) struct Tree<'t, 'e, P: Judge, J: Judge> {
    /// The judge that is asked if there are no still spans.
    pub plain: &'t P,
    /// The judge that takes what signs at the ends of nodes decide from still spans.
    pub judge: &'t J,
    /// The search whose nodes are judged.
    pub search: &'t EventSearch<'e>,
    /// The still spans of the search.
    pub stills: &'t StillList,
    /// The node at which walks begin.
    pub root: Node,
    ghost plain_rules: { P.rules plain.now ≡ rules search.now },
    ghost same_rules: { J.rules judge.now ≡ rules search.now },
    ghost valid_root: { IsValid (rules search.now) root },
    ghost still: { All (IsStill search.now) stills.now },
}
