// The judge of the nodes of a search by the signs at their ends.
ghost use Rattle.std.specs.Prelude.{◌≡◌, All};
ghost use Rattle.spec_trees.specs.declared.tree.Node.{Node};
ghost use Rattle.spec_trees.specs.Tree.{IsValid};
ghost use Rattle.spec_searches.specs.Found.{rules};
ghost use Rattle.spec_searches.specs.Search.{verdict_of};
ghost use Rattle.spec_stills.specs.Still.{IsStill};
ghost use Rattle.still_judge.specs.EndSigns.{AreCertifiedAt};

use crate::still_list::StillList;
use event_judge::EventSearch;
use gf_hooks::Judge;

/// What still spans of a search tell of the signs at the ends of its nodes.
#[derive(Drop)]
pub(crate) struct EndSigns<'j, 's, 'e> {
    /// The search whose nodes are judged.
    pub(crate) search: &'j EventSearch<'e>,
    /// The still spans of the search.
    pub(crate) stills: &'s StillList,
    /// The times at which still spans begin after a turn and each condition of the event is certified, in order.
    pub(crate) certified: Vec<i64>,
    ghost still: { All (IsStill search.now) stills.now },
    ghost conditions: { All (AreCertifiedAt search.now) certified.items },
}

/// Judges the nodes of a search by the signs that its still spans tell at their ends, and by another judge if these do
/// not decide.
#[derive(Drop)]
pub struct SignJudge<'j, 's, 'e, J: Judge> {
    /// The judge that is asked of a node if signs do not decide.
    pub judge: &'j J,
    pub(crate) signs: EndSigns<'j, 's, 'e>,
    ghost valid: { (n : Node) → IsValid (J.rules judge.now) n → IsValid (rules signs.search.now) n },
    ghost verdicts: { (n : Node) → (J.rules judge.now).verdict n ≡ verdict_of signs.search.now n },
}
