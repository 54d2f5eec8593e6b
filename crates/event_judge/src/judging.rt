// The verdicts of the judge of a search, and its cuts of nodes.
ghost use Rattle.std.specs.Prelude.{◌≡◌, ◌≤ℤ◌, pos, true, unsigned_abs};
ghost use Rattle.spec_trees.specs.declared.tree.Node.{Node};
ghost use Rattle.spec_trees.specs.declared.tree.Turn.{Turn};
ghost use Rattle.spec_trees.specs.declared.tree.Verdict.TheVariants.{Clear, One, Split};
ghost use Rattle.spec_trees.specs.declared.window.Holds.TheVariants.{Certain};
ghost use Rattle.spec_trees.specs.Tree.{IsCut, IsSound, IsValid};
ghost use Rattle.spec_trees.specs.Windows.{window_of};
ghost use Rattle.spec_events.specs.Events.{HasNoEvent, HoldsOne};
ghost use Rattle.spec_searches.specs.Found.{rules};
ghost use Rattle.spec_searches.specs.Search.{IsSearch, events, may_be_cut, parts, verdict_of};

use crate::event_search::EventSearch;
use crate::judge::EventJudge;
use crate::search_memory::NoMemory;
use crate::valid_node::ValidNode;
use body_states::BodyStates;
use eph_model::Ephemeris;
use event_kinds::Event;
use gf_hooks::{Cutter, Judge, Node, Verdict};

impl<'e> EventJudge<'e> {
    /// Makes the judge of the search for an event of the states' two targets. Nodes are split down to a width, in
    /// ticks, and a depth. The columns are read for what the call ensures.
    pub fn new(
        states: BodyStates<'e>,
        eph: &'e Ephemeris,
        event: Event,
        width: i64,
        depth: u32,
        cutter: Cutter,
    ) -> EventJudge<'e>
        requires ephemeris { eph.now ≡ states.ephemeris }
        requires some_width { pos 1 ≤ℤ width }
        ensures { result.search ≡ record {
          view = states.entry;
          event = event;
          width = unsigned_abs width;
          depth = depth;
          cut = cutter.rule;
        } }
    {
        let _columns = states.columns();
        EventJudge {
            search: EventSearch::new(states, eph, event, width, depth, cutter.rule()),
            cutter,
        }
    }
}

impl<'e> EventJudge<'e> {
    /// Tells whether a valid node may be cut: it is wider than a tick, and has a border in it or may be split deeper.
    pub fn may_be_cut(&self, node: Node) -> bool
        requires { IsValid (rules self.now.search) node }
        ensures { result ≡ may_be_cut self.now.search node }
    {
        let valid = ValidNode {
            search: &self.search,
            node,
        };
        valid.is_wide() && (valid.nearest_border().is_some() || node.depth < self.search.depth())
    }

    /// Returns the parts of a valid node that may be cut, by the cutter.
    pub fn parts(&self, node: Node) -> (Node, Node)
        requires valid { IsValid (rules self.now.search) node }
        requires may { may_be_cut self.now.search node ≡ true }
        ensures { result ≡ parts self.now.search node }
    {
        self.search.is_search();
        ValidNode {
            search: &self.search,
            node,
        }
        .parts_at_border_or(self.cutter.cut(node.a, node.b))
    }

    /// States that the search's rules are sound, that a node that is split may be cut, and that its parts, if it is
    /// valid, are valid and cut it.
    pub fn nodes_may_be_cut(&self)
        ensures search { IsSearch self.now.search }
        ensures sound { IsSound (rules self.now.search) }
        ensures split { (n : Node) → verdict_of self.now.search n ≡ Split
            → may_be_cut self.now.search n ≡ true }
        ensures cut { (n : Node) → IsValid (rules self.now.search) n
            → may_be_cut self.now.search n ≡ true → IsCut (rules self.now.search) n }
    {
        self.search.is_search();
    }
}

impl<'e> Judge for EventJudge<'e> {
    ghost rules = { λ judge. rules judge.search };

    /// Returns the verdict of a valid node, by enclosures alone. A clear node has no event, and a node with one turn
    /// has exactly one, of that turn.
    fn judge(&self, node: Node) -> Verdict
        requires { IsValid (rules self.now.search) node }
        ensures verdict { result ≡ verdict_of self.now.search node }
        ensures clear { result ≡ Clear → HasNoEvent (events self.now.search) node.a node.b }
        ensures one { (turn : Turn) → result ≡ One turn
            → HoldsOne (events self.now.search) turn (window_of node (Certain turn)) }
    {
        self.search.is_search();
        ValidNode {
            search: &self.search,
            node,
        }
        .verdict(&NoMemory {})
    }

    // Returns the parts of a node that is split: cut at the border in it, or by the cutter if there is none.
    fn cut(&self, node: Node) -> (Node, Node) {
        self.parts(node)
    }

    ghost sound = { λ judge. judge.sound };
}
