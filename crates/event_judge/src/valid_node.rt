// A node of the tree of a search.
ghost use Rattle.spec_trees.specs.Tree.{IsSound, IsValid};
ghost use Rattle.spec_searches.specs.Found.{rules};

use crate::event_search::EventSearch;
use gf_hooks::Node;

/// A valid node of a search.
#[derive(Clone, Copy)]
pub(crate) struct ValidNode<'s, 'e> {
    pub(crate) search: &'s EventSearch<'e>,
    pub(crate) node: Node,
    ghost sound: { IsSound (rules search.now) },
    ghost valid: { IsValid (rules search.now) node },
}
