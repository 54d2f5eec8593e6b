// The judge of the nodes of a search by its still spans.
ghost use Rattle.std.specs.Prelude.{◌≡◌, All};
ghost use Rattle.spec_trees.specs.declared.tree.Node.{Node};
ghost use Rattle.spec_trees.specs.Tree.{IsSound, IsValid};
ghost use Rattle.spec_searches.specs.Found.{rules};
ghost use Rattle.spec_searches.specs.Search.{verdict_of};
ghost use Rattle.spec_stills.specs.Still.{IsStill};
ghost use Rattle.still_judge.specs.Manners.{rules_in};

use crate::manner::Manner;
use crate::still_list::StillList;
use event_judge::EventSearch;
use gf_hooks::Judge;

/// Judges the nodes of a search in a manner, by its still spans, and by another judge if these do not decide.
#[derive(Drop)]
pub struct StillJudge<'j, 'e, J: Judge> {
    /// The judge that is asked of a node if the still spans do not decide.
    pub judge: &'j J,
    /// The search whose nodes are judged.
    pub search: &'j EventSearch<'e>,
    /// The still spans of the search.
    pub stills: &'j StillList,
    /// What is said of the nodes that still spans serve.
    pub manner: Manner,
    ghost still: { All (IsStill search.now) stills.now },
    ghost sound: { IsSound (rules_in manner search.now stills.now) },
    ghost valid: { (n : Node) → IsValid (rules search.now) n → IsValid (J.rules judge.now) n },
    ghost verdicts: { (n : Node) → (J.rules judge.now).verdict n ≡ verdict_of search.now n },
}
