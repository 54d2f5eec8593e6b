// A judge of the search that a call has named.
ghost use Rattle.std.specs.Prelude.{◌≡◌};
ghost use Rattle.spec_trees.specs.declared.tree.Node.{Node};
ghost use Rattle.spec_trees.specs.Tree.{IsSound, IsValid};
ghost use Rattle.spec_searches.specs.Found.{rules};
ghost use Rattle.spec_searches.specs.Search.{verdict_of};

use crate::event_search::EventSearch;
use crate::naming::Naming;
use gf_hooks::Judge;
use std::marker::PhantomData;

/// A judge of the nodes of the search that a call has named, with that search.
#[derive(Drop)]
pub struct NamedJudge<'j, 'e, N: Naming, J: Judge> {
    pub judge: &'j J,
    pub search: &'j EventSearch<'e>,
    pub(crate) of: PhantomData<N>,
    ghost named: { search.now ≡ N.search },
    ghost sound: { IsSound (rules search.now) },
    ghost valid: { (n : Node) → IsValid (J.rules judge.now) n → IsValid (rules search.now) n },
    ghost verdicts: { (n : Node) → (J.rules judge.now).verdict n ≡ verdict_of search.now n },
}
