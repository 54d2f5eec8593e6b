// What both targets are made of over one span of times.
ghost use Rattle.std.specs.Prelude.{◌≡◌, ⊤};
ghost use Rattle.spec_bodies.specs.Views.{Fits};
ghost use Rattle.spec_steps.specs.ColumnTerms.{sight_of};
ghost use Rattle.body_states.specs.Moments.{AreMade, meant_in};

use crate::column_entries::ColumnEntry;
use crate::sources::KEPT_COLUMNS;
use crate::states::BodyStates;
use column_steps::Arithmetic;
use event_expr::rules::{TimeSpan, cosine_interval, length_interval};
use event_expr::{Axes, Leaves};
use granule_values::ColumnQuestion;
use ival_core::{Enclosure, Ival};
use spec_bodies::{Factor, Quantity};
use spec_steps::Sight;
use spec_steps::laws::{listed_constants_are_within_limits, listed_enclosures_are_within_limits};
use spec_text::Decimal;
use std::marker::Model;

/// The arithmetic of enclosures over the times from a first to a last, for lists of steps of both targets. What was
/// wanted of the columns in use is made once, and only read afterwards. At a single time only the mids are worked out.
#[derive(Drop)]
pub struct Snapshot<'s, 'e> {
    states: &'s BodyStates<'e>,
    times: TimeSpan,
    position_axes: Axes,
    positions: [ColumnEntry; KEPT_COLUMNS],
    velocity_axes: Axes,
    velocities: [ColumnEntry; KEPT_COLUMNS],
}

impl<'s, 'e> Model for Snapshot<'s, 'e> {
    ghost use Rattle.spec_bodies.specs.Views.{Fits};
    ghost use Rattle.spec_bodies.specs.declared.quantity.Quantity.TheVariants.{Position, Velocity};
    ghost use Rattle.body_states.specs.Moments.{AreMade, Moment};

    ghost Value = { Moment };

    ghost view = { λ s. record {
      view = s.states.now;
      first = s.times.first;
      last = s.times.last;
    } };

    ghost invariant = { λ s. AreMade s.states.now Position s.position_axes s.times.first s.times.last s.positions
        × AreMade s.states.now Velocity s.velocity_axes s.times.first s.times.last s.velocities
        × Fits s.states.now s.times.first s.times.last };
}

/// Returns an enclosure whose middle, range and step are zero, with which room is filled before it is written over.
#[inline(always)]
pub fn blank() -> Enclosure {
    Enclosure {
        mid: Ival::zero(),
        range: Ival::zero(),
        step: Ival::zero(),
    }
}

impl<'e> BodyStates<'e> {
    /// Returns a snapshot over the times from `a` to `b`, in the unit of the ephemeris's times. The columns of the
    /// wanted coordinates are evaluated at once, with shared bases; any other column when it is asked for.
    pub fn at(&self, a: i64, b: i64, wanted: &Leaves) -> Snapshot<'_, 'e>
        requires { Fits self.now a b }
        ensures { result ≡ record { view = self.now; first = a; last = b } }
    {
        let times = TimeSpan::new(a, b);
        let position_axes = self.own_axes(wanted.first_position.union(wanted.second_position));
        let velocity_axes = self.own_axes(wanted.first_velocity.union(wanted.second_velocity));
        let mut positions = [ColumnEntry::none(); KEPT_COLUMNS];
        let mut velocities = [ColumnEntry::none(); KEPT_COLUMNS];
        let question = ColumnQuestion {
            quantity: Quantity::Position,
            axes: position_axes,
            times: &times,
        };
        self.write_entries(&question, &mut positions);
        let question = ColumnQuestion {
            quantity: Quantity::Velocity,
            axes: velocity_axes,
            times: &times,
        };
        self.write_entries(&question, &mut velocities);
        Snapshot {
            states: self,
            times,
            position_axes,
            positions,
            velocity_axes,
            velocities,
        }
    }
}

impl<'s, 'e> Snapshot<'s, 'e> {
    /// Returns the targets, the observer and the frame of the states of which the snapshot was taken.
    pub fn sight(&self) -> Sight
        ensures { result ≡ sight_of self.now.view }
    {
        self.states.sight()
    }

    // Returns the files' axes along which a quantity of the columns in use was evaluated, and the entries written.
    #[inline(always)]
    fn written_entries(&self, quantity: Quantity) -> (Axes, &[ColumnEntry; KEPT_COLUMNS])
        ensures { AreMade self.now.view quantity result.0 self.now.first self.now.last result.1.now }
    {
        match quantity {
            Quantity::Position => (self.position_axes, &self.positions),
            Quantity::Velocity => (self.velocity_axes, &self.velocities),
        }
    }
}

impl<'s, 'e> Arithmetic for Snapshot<'s, 'e> {
    type Value = Enclosure;

    ghost is_ready = { λ m. ⊤ };

    ghost sight = { λ m. sight_of m.view };

    ghost is_value = { λ m t made. made ≡ meant_in m t };

    fn column(&self, quantity: Quantity, number: usize, axis: usize) -> Enclosure {
        let (axes, columns) = self.written_entries(quantity);
        let question = ColumnQuestion {
            quantity,
            axes,
            times: &self.times,
        };
        self.states
            .column_enclosure(true, &question, columns, number, axis)
    }

    fn zero(&self) -> Enclosure {
        self.times.constant(Ival::zero())
    }

    fn length(&self, km: Decimal) -> Enclosure {
        listed_constants_are_within_limits();
        self.times.constant(length_interval(km))
    }

    fn cosine(&self, number: Decimal) -> Enclosure {
        listed_constants_are_within_limits();
        self.times.constant(cosine_interval(number))
    }

    fn scaled(&self, factor: Factor, x: &Enclosure) -> Enclosure {
        listed_enclosures_are_within_limits();
        let constant = self.times.constant(self.states.factor(factor));
        self.times.product(constant, *x)
    }

    fn sum(&self, x: &Enclosure, y: &Enclosure) -> Enclosure {
        listed_enclosures_are_within_limits();
        self.times.sum(*x, *y)
    }

    fn difference(&self, x: &Enclosure, y: &Enclosure) -> Enclosure {
        listed_enclosures_are_within_limits();
        self.times.difference(*x, *y)
    }

    fn product(&self, x: &Enclosure, y: &Enclosure) -> Enclosure {
        listed_enclosures_are_within_limits();
        self.times.product(*x, *y)
    }

    fn signed_square(&self, x: &Enclosure) -> Enclosure {
        listed_enclosures_are_within_limits();
        self.times.signed_square(*x)
    }
}
