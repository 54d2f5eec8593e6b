// The times of a node, and the sign of the function of a search at a time.
ghost use Rattle.std.specs.Prelude.{◌≡◌, ◌≤ℤ◌};
ghost use Rattle.spec_intervals.specs.Enclosure.{middle};
ghost use Rattle.spec_bounds.specs.Steady.{sign_at};

use crate::search_time::SearchTime;
use crate::valid_node::ValidNode;
use body_states::States;
use ival_core::Sign;

impl<'s, 'e> SearchTime<'s, 'e> {
    /// Returns the sign of the function at the time, without slots: at a single time they cost more than coordinates.
    pub(crate) fn sign(self) -> Sign
        ensures { result ≡ sign_at self.entry.search.now self.entry.time }
    {
        let states = self.search.states();
        let _columns = states.columns();
        let function = self.search.event().function();
        let over = states.enclosure(function, self.time, self.time);
        over.range.sign()
    }
}

impl<'s, 'e> ValidNode<'s, 'e> {
    // Returns a time from the node's first to its last, as a time of the node's search.
    fn time_at(self, time: i64) -> SearchTime<'s, 'e>
        requires after { self.node.a ≤ℤ time }
        requires before { time ≤ℤ self.node.b }
        ensures search { result.search.now ≡ self.entry.search.now }
        ensures time { result.time ≡ time }
    {
        SearchTime {
            search: self.search,
            time,
        }
    }

    /// Returns the node's first time.
    pub(crate) fn first(self) -> SearchTime<'s, 'e>
        ensures search { result.search.now ≡ self.entry.search.now }
        ensures time { result.time ≡ self.entry.node.a }
    {
        self.time_at(self.node.a)
    }

    /// Returns the node's last time.
    pub(crate) fn last(self) -> SearchTime<'s, 'e>
        ensures search { result.search.now ≡ self.entry.search.now }
        ensures time { result.time ≡ self.entry.node.b }
    {
        self.time_at(self.node.b)
    }

    // Returns the time halfway from the first to the last, rounded down.
    fn middle_time(self) -> i64
        ensures { result ≡ middle self.entry.node.a self.entry.node.b }
    {
        (self.node.a + self.node.b).div_euclid(2)
    }

    /// Returns the time halfway from the node's first time to its last, rounded down.
    pub(crate) fn middle(self) -> SearchTime<'s, 'e>
        ensures search { result.search.now ≡ self.entry.search.now }
        ensures time { result.time ≡ middle self.entry.node.a self.entry.node.b }
    {
        self.time_at(self.middle_time())
    }
}
