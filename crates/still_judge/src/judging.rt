// What still spans tell of nodes, and the judge by them.
ghost use Rattle.std.specs.Prelude.{◌≡◌, All, IfNone, IfSome};
ghost use Rattle.spec_trees.specs.Tree.{IsValid};
ghost use Rattle.spec_searches.specs.Found.{rules};
ghost use Rattle.spec_searches.specs.Search.{verdict_of};
ghost use Rattle.spec_stills.specs.Still.{IsStill};
ghost use Rattle.spec_stills.specs.Eager.{eager_verdict};
ghost use Rattle.spec_stills.specs.ServedTree.{served_verdict};
ghost use Rattle.still_judge.specs.Manners.{rules_in};

use crate::manner::Manner;
use crate::span_judge::StillJudge;
use crate::standing::Standing;
use crate::still_list::StillList;
use event_judge::EventSearch;
use gf_hooks::{Judge, Node, Verdict};

impl StillList {
    // Returns the verdict of a node of a search if a still span of the search shows it: clear, or none.
    fn exact_verdict(&self, search: &EventSearch, node: Node) -> Option<Verdict>
        requires still { All (IsStill search.now) self.now }
        requires valid { IsValid (rules search.now) node }
        ensures { IfSome result (λ verdict. verdict ≡ verdict_of search.now node) }
    {
        if self.clears_node(node) {
            Some(Verdict::Clear)
        } else {
            None
        }
    }

    // Returns the verdict of a node in the eager tree if still spans tell it: clear if one serves it, split if one begins
    // within it and the limits allow it. If none is returned, the verdict is that of the search.
    fn eager_verdict(&self, search: &EventSearch, node: Node) -> Option<Verdict>
        requires still { All (IsStill search.now) self.now }
        requires valid { IsValid (rules search.now) node }
        ensures some { IfSome result (λ verdict. verdict ≡ eager_verdict search.now self.now node) }
        ensures none { IfNone result (eager_verdict search.now self.now node ≡ verdict_of search.now node) }
    {
        match self.node_standing(search, node) {
            Standing::Served => Some(Verdict::Clear),
            Standing::Begun => Some(Verdict::Split),
            Standing::Open => None,
        }
    }

    // Returns the verdict of a node in the served tree if a still span tells it: clear if one serves it. If none is
    // returned, the verdict is that of the search.
    fn served_verdict(&self, search: &EventSearch, node: Node) -> Option<Verdict>
        requires still { All (IsStill search.now) self.now }
        requires valid { IsValid (rules search.now) node }
        ensures some { IfSome result (λ verdict. verdict ≡ served_verdict search.now self.now node) }
        ensures none { IfNone result (served_verdict search.now self.now node ≡ verdict_of search.now node) }
    {
        match self.serving_span(search, node) {
            Some(_) => Some(Verdict::Clear),
            None => None,
        }
    }

    /// Returns the verdict of a node in the tree of a manner if still spans of the search tell it. If none is returned,
    /// the verdict is that of the search.
    pub(crate) fn known_verdict(
        &self,
        search: &EventSearch,
        manner: Manner,
        node: Node,
    ) -> Option<Verdict>
        requires still { All (IsStill search.now) self.now }
        requires valid { IsValid (rules search.now) node }
        ensures some { IfSome result (λ verdict.
            verdict ≡ (rules_in manner search.now self.now).verdict node) }
        ensures none { IfNone result
            ((rules_in manner search.now self.now).verdict node ≡ verdict_of search.now node) }
    {
        match manner {
            Manner::Exact => self.exact_verdict(search, node),
            Manner::Eager => self.eager_verdict(search, node),
            Manner::Served => self.served_verdict(search, node),
        }
    }
}

impl<'j, 'e, J: Judge> StillJudge<'j, 'e, J> {
    /// Makes the judge of a search's nodes by its still spans, in a manner. `judge` has the rules of the search, and is
    /// asked of the nodes that no span decides.
    pub fn new(
        judge: &'j J,
        search: &'j EventSearch<'e>,
        stills: &'j StillList,
        manner: Manner,
    ) -> StillJudge<'j, 'e, J>
        requires rules { J.rules judge.now ≡ rules search.now }
        requires still { All (IsStill search.now) stills.now }
        ensures search { result.search.now ≡ search.now }
        ensures rules { rules_in result.manner result.search.now result.stills.now
            ≡ rules_in manner search.now stills.now }
    {
        search.is_search();
        StillJudge {
            judge,
            search,
            stills,
            manner,
        }
    }

    /// Returns the verdict of a node of the search, in whatever manner the judge judges: by still spans, or by the other
    /// judge.
    pub(crate) fn verdict(&self, node: Node) -> Verdict
        requires { IsValid (rules self.now.search.now) node }
        ensures { result ≡ verdict_of self.now.search.now node }
    {
        match self.stills.known_verdict(self.search, Manner::Exact, node) {
            Some(verdict) => verdict,
            None => self.judge.judge(node),
        }
    }
}

impl<'j, 'e, J: Judge> Judge for StillJudge<'j, 'e, J> {
    ghost rules = { λ judge. rules_in judge.manner judge.search.now judge.stills.now };

    // Returns the verdict of a node in the tree of the judge's manner: by still spans, or by the other judge.
    fn judge(&self, node: Node) -> Verdict {
        match self.stills.known_verdict(self.search, self.manner, node) {
            Some(verdict) => verdict,
            None => self.judge.judge(node),
        }
    }

    // Returns the parts of a node that is split, by the rule of the search in each manner. `is_search` is called for
    // what it ensures.
    fn cut(&self, node: Node) -> (Node, Node) {
        self.search.is_search();
        self.search.parts(node)
    }

    ghost sound = { λ judge. judge.sound };
}
