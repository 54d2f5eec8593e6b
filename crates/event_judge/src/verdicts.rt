// The verdict of a node, by what is looked at in turn.
ghost use Rattle.std.specs.Prelude.{◌≡◌, ◌≤◌, nat_le, false, true};
ghost use Rattle.spec_trees.specs.Cuts.{is_wide};
ghost use Rattle.spec_trees.specs.Tree.{width};
ghost use Rattle.spec_events.specs.Stages.{end_verdict, limit_verdict, unit_verdict};
ghost use Rattle.spec_searches.specs.Search.{border_in, criteria, crosses, verdict_of};
ghost use Rattle.spec_bounds.specs.Steady.{sign_at as sign_then, steady_verdict};
ghost use Rattle.spec_steps.specs.ColumnTerms.{sight_of};
ghost use Rattle.event_judge.specs.Listed.{AreStepsOf, slot_count};
ghost use Rattle.event_judge.specs.Found.{enclosure_at, first_moment, guards_at, is_certified_at, is_refuted_at, is_turnless_by, last_moment, sign_at, whole_moment};

use crate::conditions::{are_certified, is_one_refuted};
use crate::listed_event::ListedEvent;
use crate::search_memory::SearchMemory;
use crate::slot_count::SlotCount;
use crate::steps::{is_monotone, is_turnless};
use crate::valid_node::ValidNode;
use body_states::Snapshot;
use gf_hooks::{Verdict, differ, has_no_turn, turn_to};
use ival_core::{Enclosure, Sign};
use step_enclosures::{StepEnclosures, blank};

impl<'s, 'e> ValidNode<'s, 'e> {
    /// Returns the border in the node, in ticks, that is nearest to its middle, or none if no border falls into it.
    #[inline(always)]
    pub(crate) fn nearest_border(self) -> Option<i64>
        ensures { result ≡ border_in self.entry.search.now self.entry.node }
    {
        let columns = self.search.states().columns();
        self.search
            .ephemeris()
            .border_near(columns, self.node.a, self.node.b)
    }

    /// Returns the width of the node, in ticks.
    #[inline(always)]
    pub(crate) fn width(self) -> u64
        ensures { result ≡ width self.entry.node }
    {
        (self.node.b - self.node.a).unsigned_abs()
    }

    /// Tells whether the node is wider than one tick, so that it can be cut.
    #[inline(always)]
    pub(crate) fn is_wide(self) -> bool
        ensures { result ≡ is_wide self.entry.node }
    {
        self.width() > 1
    }

    /// Tells whether the node is no wider than the width down to which the search splits.
    #[inline(always)]
    pub(crate) fn is_narrow(self) -> bool
        ensures { result ≡ nat_le (width self.entry.node) self.entry.search.now.width }
    {
        self.width() <= self.search.width()
    }

    // Returns the snapshot at the node's last time alone. The columns are read for what the call ensures.
    #[inline(always)]
    fn last_snapshot(self) -> Snapshot<'s, 'e>
        ensures { result ≡ last_moment self.entry.search.now self.entry.node }
    {
        let states = self.search.states();
        let _columns = states.columns();
        states.at(self.node.b, self.node.b, self.search.named_coordinates())
    }

    /// Returns the snapshot over all times of the node. The columns are read for what the call ensures.
    #[inline(always)]
    pub(crate) fn whole_snapshot(self) -> Snapshot<'s, 'e>
        requires { crosses self.search.now self.node ≡ false }
        ensures { result ≡ whole_moment self.entry.search.now self.entry.node }
    {
        let states = self.search.states();
        let _columns = states.columns();
        states.at(self.node.a, self.node.b, self.search.named_coordinates())
    }

    /// Returns the enclosure of the event's function over the times of the enclosures `made`, by its step.
    #[inline(always)]
    pub(crate) fn function_enclosure(
        self,
        listed: &ListedEvent,
        made: &mut StepEnclosures,
    ) -> Enclosure
        requires listed { AreStepsOf (sight_of self.search.now.view) self.search.now.event listed.now }
        requires steps { made.old.steps ≡ listed.now.steps }
        requires room { made.old.room ≡ slot_count listed.now.slots }
        ensures enclosure { result ≡ enclosure_at self.entry.search.now made.old.moment }
        ensures same { made.new ≡ made.old }
    {
        made.enclosure(listed.function)
    }

    /// Tells whether the function has no turn that is wanted, by an enclosure of the function over the node.
    #[inline(always)]
    pub(crate) fn is_turnless(self, over: &Enclosure) -> bool
        ensures { result ≡ is_turnless_by self.entry.search.now over.now }
    {
        is_turnless(self.search.event().dir(), over)
    }

    // Tells whether some condition is known to be false at each of the times of the enclosures `made`.
    #[inline(always)]
    fn is_refuted(self, listed: &ListedEvent, made: &mut StepEnclosures) -> bool
        requires listed { AreStepsOf (sight_of self.search.now.view) self.search.now.event listed.now }
        requires steps { made.old.steps ≡ listed.now.steps }
        requires room { made.old.room ≡ slot_count listed.now.slots }
        ensures refuted { result ≡ is_refuted_at self.entry.search.now made.old.moment }
        ensures same { made.new ≡ made.old }
    {
        is_one_refuted(self.search.event().guards(), listed, made)
    }

    // Tells whether each condition is known to hold at each of the times of the enclosures `made`.
    #[inline(always)]
    fn is_certified(self, listed: &ListedEvent, made: &mut StepEnclosures) -> bool
        requires listed { AreStepsOf (sight_of self.search.now.view) self.search.now.event listed.now }
        requires steps { made.old.steps ≡ listed.now.steps }
        requires room { made.old.room ≡ slot_count listed.now.slots }
        ensures certified { result ≡ is_certified_at self.entry.search.now made.old.moment }
        ensures same { made.new ≡ made.old }
    {
        are_certified(self.search.event().guards(), listed, made)
    }

    /// Returns the verdict if nothing else decides: `Split` if both limits of the search allow it, or `Undecided`.
    #[inline(always)]
    pub(crate) fn limit_verdict(self) -> Verdict
        ensures { result ≡ limit_verdict (criteria self.entry.search.now) self.entry.node }
    {
        if !self.is_narrow() && self.node.depth < self.search.depth() {
            Verdict::Split
        } else {
            Verdict::Undecided
        }
    }

    // Returns the verdict by the signs at the node's ends, if these show the turns between them. A turn is an event if
    // each condition is known to hold over the times of the enclosures `made`.
    #[inline(always)]
    fn end_verdict(
        self,
        listed: &ListedEvent,
        made: &mut StepEnclosures,
        first: Sign,
        last: Sign,
    ) -> Verdict
        requires listed { AreStepsOf (sight_of self.search.now.view) self.search.now.event listed.now }
        requires steps { made.old.steps ≡ listed.now.steps }
        requires room { made.old.room ≡ slot_count listed.now.slots }
        ensures { result ≡ end_verdict (criteria self.entry.search.now) self.entry.node
            (guards_at self.entry.search.now made.old.moment) first last }
    {
        let dir = self.search.event().dir();
        if has_no_turn(dir, first, last) {
            Verdict::Clear
        } else if self.is_narrow() && differ(dir, first, last) && self.is_certified(listed, made) {
            Verdict::One(turn_to(last))
        } else {
            self.limit_verdict()
        }
    }

    /// Returns the verdict of a node in a steady span, by the signs at its ends, which are both known.
    pub(crate) fn steady_verdict(self, at_first: Sign, at_last: Sign) -> Verdict
        ensures { result ≡ steady_verdict (criteria self.entry.search.now) self.entry.node
            at_first at_last }
    {
        if has_no_turn(self.search.event().dir(), at_first, at_last) {
            Verdict::Clear
        } else if self.is_narrow() {
            Verdict::One(turn_to(at_last))
        } else {
            self.limit_verdict()
        }
    }

    /// Returns the signs of the function at the node's first time and at its last.
    pub(crate) fn end_signs<M: SearchMemory>(self, memory: &M) -> (Sign, Sign)
        requires { M.knows self.search.now }
        ensures first { result.0 ≡ sign_then self.entry.search.now self.entry.node.a }
        ensures last { result.1 ≡ sign_then self.entry.search.now self.entry.node.b }
    {
        (memory.sign_at(self.first()), memory.sign_at(self.last()))
    }

    // Returns the verdict of a node one tick wide, in one of four numbers of slots, since all are cleared each time.
    fn unit_verdict<M: SearchMemory>(self, memory: &M) -> Verdict
        requires { M.knows self.search.now }
        ensures { let s = self.entry.search.now in
            let last = last_moment s self.entry.node in
            result ≡ unit_verdict (criteria s) self.entry.node (guards_at s last)
            (sign_at s (first_moment s self.entry.node)) (sign_at s last) }
    {
        let listed = self.search.event_steps();
        match listed.slots {
            SlotCount::Of28 => self.unit_verdict_with_slots::<28, M>(listed, memory),
            SlotCount::Of64 => self.unit_verdict_with_slots::<64, M>(listed, memory),
            SlotCount::Of128 => self.unit_verdict_with_slots::<128, M>(listed, memory),
            SlotCount::Of256 => self.unit_verdict_with_slots::<256, M>(listed, memory),
        }
    }

    // Returns the verdict of a node one tick wide, by the enclosures at its last time in `N` slots. It stands apart
    // (`inline(never)`), so that only the slots of the arm that is taken are cleared.
    #[inline(never)]
    fn unit_verdict_with_slots<const N: usize, M: SearchMemory>(
        self,
        listed: &ListedEvent,
        memory: &M,
    ) -> Verdict
        requires knows { M.knows self.search.now }
        requires listed { AreStepsOf (sight_of self.search.now.view) self.search.now.event listed.now }
        requires slots { slot_count listed.now.slots ≡ N }
        requires few { N ≤ 256 }
        ensures { let s = self.entry.search.now in
            let last = last_moment s self.entry.node in
            result ≡ unit_verdict (criteria s) self.entry.node (guards_at s last)
            (sign_at s (first_moment s self.entry.node)) (sign_at s last) }
    {
        let states = self.last_snapshot();
        let mut slots = [blank(); N];
        let mut made = StepEnclosures::new(&states, &listed.steps, &mut slots);
        let last = self.function_enclosure(listed, &mut made).range.sign();
        if self.is_refuted(listed, &mut made) {
            Verdict::Clear
        } else {
            let first = memory.sign_at(self.first());
            self.end_verdict(listed, &mut made, first, last)
        }
    }

    // Returns the verdict of a node with no border in it, by the enclosures `whole` of its steps over all its times,
    // and by `over`, that of the function. The width is read for what the call ensures.
    fn verdict_by_enclosures<M: SearchMemory>(
        self,
        listed: &ListedEvent,
        whole: &mut StepEnclosures,
        over: &Enclosure,
        memory: &M,
    ) -> Verdict
        requires knows { M.knows self.search.now }
        requires uncrossed { crosses self.search.now self.node ≡ false }
        requires listed { AreStepsOf (sight_of self.search.now.view) self.search.now.event listed.now }
        requires steps { whole.old.steps ≡ listed.now.steps }
        requires room { whole.old.room ≡ slot_count listed.now.slots }
        requires whole { whole.old.moment ≡ whole_moment self.search.now self.node }
        requires over { over.now ≡ enclosure_at self.search.now whole.old.moment }
        ensures { result ≡ verdict_of self.entry.search.now self.entry.node }
    {
        let _width = self.search.width();
        if self.is_turnless(over) {
            Verdict::Clear
        } else if !self.is_wide() {
            self.unit_verdict(memory)
        } else if self.is_refuted(listed, whole) {
            Verdict::Clear
        } else if is_monotone(over.step) {
            let (first, last) = self.end_signs(memory);
            self.end_verdict(listed, whole, first, last)
        } else {
            self.limit_verdict()
        }
    }

    /// Returns the verdict of a node with no border in it, by its enclosures, and keeps it in the memory. It chooses
    /// among four numbers of slots, as all are cleared each time.
    pub(crate) fn borderless_verdict<M: SearchMemory>(self, memory: &M) -> Verdict
        requires knows { M.knows self.search.now }
        requires uncrossed { crosses self.search.now self.node ≡ false }
        ensures { result ≡ verdict_of self.entry.search.now self.entry.node }
    {
        let listed = self.search.event_steps();
        match listed.slots {
            SlotCount::Of28 => self.borderless_verdict_with_slots::<28, M>(listed, memory),
            SlotCount::Of64 => self.borderless_verdict_with_slots::<64, M>(listed, memory),
            SlotCount::Of128 => self.borderless_verdict_with_slots::<128, M>(listed, memory),
            SlotCount::Of256 => self.borderless_verdict_with_slots::<256, M>(listed, memory),
        }
    }

    // Returns the verdict of a node with no border in it, by its enclosures in `N` slots. It stands apart
    // (`inline(never)`), so that only the slots of the arm that is taken are cleared.
    #[inline(never)]
    fn borderless_verdict_with_slots<const N: usize, M: SearchMemory>(
        self,
        listed: &ListedEvent,
        memory: &M,
    ) -> Verdict
        requires knows { M.knows self.search.now }
        requires listed { AreStepsOf (sight_of self.search.now.view) self.search.now.event listed.now }
        requires slots { slot_count listed.now.slots ≡ N }
        requires few { N ≤ 256 }
        requires uncrossed { crosses self.search.now self.node ≡ false }
        ensures { result ≡ verdict_of self.entry.search.now self.entry.node }
    {
        let states = self.whole_snapshot();
        let mut slots = [blank(); N];
        let mut whole = StepEnclosures::new(&states, &listed.steps, &mut slots);
        let over = self.function_enclosure(listed, &mut whole);
        let verdict = self.verdict_by_enclosures(listed, &mut whole, &over, memory);
        memory.keep_verdict(self, &over, verdict);
        verdict
    }

    /// Returns the verdict of a node with a border in it: `Split` if it is wider than a tick, and else by its two
    /// times. The width is read for what the call ensures.
    pub(crate) fn border_verdict<M: SearchMemory>(self, memory: &M) -> Verdict
        requires knows { M.knows self.search.now }
        requires crossed { crosses self.search.now self.node ≡ true }
        ensures { result ≡ verdict_of self.entry.search.now self.entry.node }
    {
        let _width = self.search.width();
        if self.is_wide() {
            Verdict::Split
        } else {
            self.unit_verdict(memory)
        }
    }

    /// Returns the verdict of the node, by enclosures. The memory gives signs at single times.
    pub(crate) fn verdict<M: SearchMemory>(self, memory: &M) -> Verdict
        requires { M.knows self.search.now }
        ensures { result ≡ verdict_of self.entry.search.now self.entry.node }
    {
        match self.nearest_border() {
            None => self.borderless_verdict(memory),
            Some(_) => self.border_verdict(memory),
        }
    }
}
