// Events and their guards, made of formulas.
ghost use Rattle.std.specs.Prelude.{◌≡◌};
ghost use Rattle.spec_searches.specs.Event.{AreFormulas};

use event_expr::Formula;
use spec_events::Dir;
use std::marker::Model;

/// A condition that holds at an event: a formula is at least 0, or it is below 0.
#[derive(Drop)]
pub struct Guard {
    pub(crate) g: Formula,
    pub(crate) at_least: bool,
}

impl Model for Guard {
    ghost use Rattle.spec_searches.specs.Event.{Condition};
    ghost use Rattle.event_kinds.specs.Codes.{condition_code};

    ghost Value = { Condition };

    ghost coded = { condition_code };

    ghost view = { λ guard. record { term = guard.g; at_least = guard.at_least } };
}

impl Guard {
    /// Returns the formula by whose sign the guard holds or not.
    pub fn formula(&self) -> &Formula
        ensures { result.now ≡ self.now.term }
    {
        &self.g
    }

    /// Tells whether the guard holds while its formula is at least 0. If not, it holds while the formula is below 0.
    pub fn at_least(&self) -> bool
        ensures { result ≡ self.now.at_least }
    {
        self.at_least
    }
}

/// An event: the times at which a function passes 0 in a wanted direction while all its guards hold.
#[derive(Drop)]
pub struct Event {
    pub(crate) f: Formula,
    pub(crate) guards: Vec<Guard>,
    pub(crate) dir: Dir,
}

impl Model for Event {
    ghost use Rattle.std.specs.Coded.{codes};
    ghost use Rattle.spec_searches.specs.Event.{Event, AreFormulas};
    ghost use Rattle.spec_expressions.specs.Code.{term_code};
    ghost use Rattle.event_kinds.specs.Codes.{condition_code};

    ghost Value = { Event };

    ghost coded = { Prim.hlevel (codes, term_code, condition_code) };

    ghost view = { λ event. record {
      function = event.f;
      conditions = event.guards.items;
      dir = event.dir;
    } };

    ghost invariant = { λ event. AreFormulas (record {
      function = event.f;
      conditions = event.guards.items;
      dir = event.dir;
    }) };
}

impl Event {
    /// Returns the function of the event, which passes 0 at the event's times.
    pub fn function(&self) -> &Formula
        ensures function { result.now ≡ self.now.function }
        ensures formulas { AreFormulas self.now }
    {
        &self.f
    }

    /// Returns the guards of the event, all of which hold at its times.
    pub fn guards(&self) -> &[Guard]
        ensures { result.now ≡ self.now.conditions }
    {
        self.guards.as_slice()
    }

    /// Returns the direction in which the function has to pass 0: up, down or either.
    pub fn dir(&self) -> Dir
        ensures { result ≡ self.now.dir }
    {
        self.dir
    }
}
