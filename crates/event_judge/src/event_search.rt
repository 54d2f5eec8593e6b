// A search for an event of two bodies.
ghost use Rattle.std.specs.Prelude.{◌≡◌, ◌<◌, ◌≤ℤ◌, pos, unsigned_abs};
ghost use Rattle.spec_bodies.specs.Views.{Fits};
ghost use Rattle.spec_searches.specs.Search.{IsSearch};
ghost use Rattle.spec_bounds.specs.Terms.{bound_over};
ghost use Rattle.spec_steps.specs.ColumnTerms.{of_term, sight_of};
ghost use Rattle.column_steps.specs.Listed.{IsMadeAt};
ghost use Rattle.event_bounds.specs.Made.{IsBound};
ghost use Rattle.event_judge.specs.Listed.{AreStepsOf};

use crate::listed_event::ListedEvent;
use body_states::BodyStates;
use column_steps::StepPlace;
use eph_model::Ephemeris;
use event_bounds::{Bound, RangeRows, bound_over};
use event_expr::Leaves;
use event_kinds::Event;
use gf_hooks::CutRule;
use std::marker::Model;

/// A search for an event of two bodies over the times of an ephemeris, in ticks of TDB since J2000.
#[derive(Drop)]
pub struct EventSearch<'e> {
    states: BodyStates<'e>,
    ephemeris: &'e Ephemeris,
    event: Event,
    /// The coordinates that the event names.
    wanted: Leaves,
    listed: ListedEvent,
    width: u64,
    depth: u32,
    rule: CutRule,
}

impl<'e> Model for EventSearch<'e> {
    ghost use Rattle.std.specs.Prelude.{◌≡◌, ◌<◌};
    ghost use Rattle.std.specs.Coded.{codes};
    ghost use Rattle.spec_expressions.specs.Code.{term_code};
    ghost use Rattle.spec_searches.specs.Search.{Search};
    ghost use Rattle.spec_steps.specs.ColumnTerms.{sight_of};
    ghost use Rattle.event_judge.specs.Listed.{AreStepsOf};

    ghost Value = { Search };

    ghost coded = { Prim.hlevel (codes, term_code) };

    ghost view = { λ s. record {
      view = s.states;
      event = s.event;
      width = s.width;
      depth = s.depth;
      cut = s.rule;
    } };

    ghost invariant = { λ s. (s.ephemeris.now ≡ s.states.ephemeris)
        × (0 < s.width)
        × AreStepsOf (sight_of s.states) s.event s.listed };
}

impl<'e> EventSearch<'e> {
    /// Makes the search for an event of the states' targets. Nodes are split down to a width, in ticks, and a depth.
    pub(crate) fn new(
        states: BodyStates<'e>,
        ephemeris: &'e Ephemeris,
        event: Event,
        width: i64,
        depth: u32,
        rule: CutRule,
    ) -> EventSearch<'e>
        requires ephemeris { ephemeris.now ≡ states.ephemeris }
        requires some_width { pos 1 ≤ℤ width }
        ensures { result ≡ record {
          view = states.entry;
          event = event;
          width = unsigned_abs width;
          depth = depth;
          cut = rule;
        } }
    {
        let wanted = coordinates_named_by(&event);
        let listed = ListedEvent::new(&event, states.sight());
        EventSearch {
            states,
            ephemeris,
            event,
            wanted,
            listed,
            width: width.unsigned_abs(),
            depth,
            rule,
        }
    }

    /// Returns the states of the two bodies.
    #[inline(always)]
    pub fn states(&self) -> &BodyStates<'e>
        ensures { result.now ≡ self.now.view }
    {
        &self.states
    }

    /// Returns the ephemeris that the states read.
    #[inline(always)]
    pub fn ephemeris(&self) -> &'e Ephemeris
        ensures { result.now ≡ self.now.view.ephemeris }
    {
        self.ephemeris
    }

    /// Returns the event.
    #[inline(always)]
    pub fn event(&self) -> &Event
        ensures { result.now ≡ self.now.event }
    {
        &self.event
    }

    /// Returns the coordinates that the event names. Only they are read of a snapshot; no result depends on them.
    #[inline(always)]
    pub(crate) fn named_coordinates(&self) -> &Leaves {
        &self.wanted
    }

    /// Returns the step that stands for the event's function, in the event's list of steps.
    pub fn function_step(&self) -> StepPlace<'_>
        ensures seen { result.steps.now.sight ≡ sight_of self.now.view }
        ensures made { IsMadeAt result.steps.now result.place
            (of_term (sight_of self.now.view) self.now.event.function) }
    {
        StepPlace {
            steps: &self.listed.steps,
            place: self.listed.function,
        }
    }

    /// Returns the bound of the event's function from `a` to `b`, between which no granule begins. Rows that it needs are
    /// kept in `rows` for later bounds.
    pub fn function_bound(&self, rows: &mut RangeRows, a: i64, b: i64) -> Bound
        requires { Fits self.now.view a b }
        ensures { IsBound result (bound_over self.now.view self.now.event.function a b) }
    {
        bound_over(rows, self.function_step(), self.states(), a, b)
    }

    /// Returns the steps of the event's function and of its conditions.
    #[inline(always)]
    pub(crate) fn event_steps(&self) -> &ListedEvent
        ensures { AreStepsOf (sight_of self.now.view) self.now.event result.now }
    {
        &self.listed
    }

    /// Returns the width down to which nodes are split, in ticks. It is at least 1.
    #[inline(always)]
    pub fn width(&self) -> u64
        ensures width { result ≡ self.now.width }
        ensures some { 0 < self.now.width }
    {
        self.width
    }

    /// States that the search has a checked ephemeris, formulas and a width. The calls are made for what they ensure.
    #[inline(always)]
    pub fn is_search(&self)
        ensures { IsSearch self.now }
    {
        let _columns = self.states.columns();
        let _function = self.event.function();
    }

    /// Returns the rule by which nodes are cut.
    #[inline(always)]
    pub fn rule(&self) -> CutRule
        ensures { result ≡ self.now.cut }
    {
        self.rule
    }

    /// Returns the depth down to which nodes are split.
    #[inline(always)]
    pub fn depth(&self) -> u32
        ensures { result ≡ self.now.depth }
    {
        self.depth
    }
}

// Returns the coordinates that the function of an event or one of its conditions names.
fn coordinates_named_by(event: &Event) -> Leaves {
    let mut leaves = event.function().leaves();
    for guard in event.guards() {
        leaves = leaves.union(guard.formula().leaves());
    }
    leaves
}
