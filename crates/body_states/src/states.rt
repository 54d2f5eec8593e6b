// The states of two targets seen from an observer in a frame.
ghost use Rattle.std.specs.Prelude.{◌≡◌, ◌≢◌, ◌<◌, ◌≤◌, All, ◌∷◌, IsTrue, length, take, slice_index_or};
ghost use Rattle.spec_ephemeris.specs.declared.body.Body.TheVariants.{Ssb};
ghost use Rattle.spec_ephemeris.specs.Header.{has_column};
ghost use Rattle.spec_ephemeris.specs.Ephemeris.{IsEphemeris};
ghost use Rattle.spec_bodies.specs.Meanings.{factor_interval};
ghost use Rattle.spec_bodies.specs.Views.{IsView, HasBody, HasColumns, view_of, columns_of, factor_of};
ghost use Rattle.spec_steps.specs.ColumnTerms.{sight_of};
ghost use Rattle.body_states.specs.Dividers.{granule_seconds, AreDividers};
ghost use Rattle.body_states.specs.Ranges.{own_axes};

use crate::factors::Factors;
use crate::sources::{InUse, KEPT_COLUMNS};
use column_steps::CoordinateSteps;
use eph_model::{Body, Ephemeris};
use event_expr::Axes;
use ival_core::{Divider, Ival};
use spec_bodies::{Factor, Frame, Source};
use spec_steps::Sight;
use std::marker::Model;

/// Two targets, which may be one body, seen from an observer in a frame. Times are in the ephemeris's unit, seconds of
/// TDB since J2000 or ticks, positions in km, velocities in km per unit of time; all are geometric, without light time.
#[derive(Drop)]
pub struct BodyStates<'e> {
    pub(crate) ephemeris: &'e Ephemeris,
    /// The steps of the targets' coordinates.
    coordinates: CoordinateSteps,
    pub(crate) first: Source,
    pub(crate) second: Source,
    pub(crate) observer: Source,
    pub(crate) frame: Frame,
    pub(crate) factors: Factors,
    in_use: InUse,
    /// By the granules of the columns in use, in their order, as far as there are so many.
    dividers: [Divider; KEPT_COLUMNS],
    /// How many entries their rows need if columns share them, and 0 if a column shares none.
    entries: [usize; KEPT_COLUMNS],
}

impl<'e> Model for BodyStates<'e> {
    ghost use Rattle.std.specs.Prelude.{◌≡◌, ◌≤◌, take};
    ghost use Rattle.spec_bodies.specs.Sources.{columns_in_use};
    ghost use Rattle.spec_bodies.specs.Views.{View, IsView};
    ghost use Rattle.body_states.specs.Factors.{AreFactors};
    ghost use Rattle.body_states.specs.Dividers.{AreDividers};

    ghost Value = { View };

    ghost view = { λ s. record {
      ephemeris = s.ephemeris.now;
      first = s.first;
      second = s.second;
      observer = s.observer;
      frame = s.frame;
    } };

    ghost invariant = { λ s. IsView (record {
      ephemeris = s.ephemeris.now;
      first = s.first;
      second = s.second;
      observer = s.observer;
      frame = s.frame;
    })
        × (take s.in_use.count s.in_use.numbers ≡ columns_in_use s.first s.second s.observer)
        × (s.in_use.count ≤ 11)
        × AreFactors s.ephemeris.now.header.emrat s.factors
        × AreDividers s.ephemeris.now (take s.in_use.count s.in_use.numbers) s.dividers
        × (s.coordinates ≡ record {
          first = s.first;
          second = s.second;
          observer = s.observer;
          frame = s.frame;
        }) };
}

impl<'e> BodyStates<'e> {
    /// Returns the states of two targets seen from an observer in a frame. The ephemeris must have each body's column:
    /// for the Earth or the Moon, even seen from the other, those of their barycentre and the Moon; for the SSB none.
    pub fn new(
        ephemeris: &'e Ephemeris,
        targets: [Body; 2],
        observer: Body,
        frame: Frame,
    ) -> BodyStates<'e>
        requires block { 0 < ephemeris.now.blocks }
        requires present { All (HasBody ephemeris.now) (observer ∷ targets) }
        requires bodies { All (λ target. target ≢ Ssb) targets }
        requires apart { All (λ target. target ≢ observer) targets }
        ensures { result ≡ view_of ephemeris.now targets observer frame }
    {
        let first = Source::of(targets[0]);
        let second = Source::of(targets[1]);
        let observer = Source::of(observer);
        let factors = Factors::new(ephemeris.header().emrat);
        let in_use = InUse::of(first, second, observer);
        let coordinates = CoordinateSteps::new(Sight {
            first,
            second,
            observer,
            frame,
        });
        BodyStates {
            dividers: dividers_of(ephemeris, &in_use.numbers[..in_use.count]),
            entries: entries_of(ephemeris, &in_use.numbers[..in_use.count]),
            ephemeris,
            first,
            second,
            observer,
            frame,
            factors,
            coordinates,
            in_use,
        }
    }

    /// Returns the two targets, the observer and the frame, without the ephemeris.
    pub fn sight(&self) -> Sight
        ensures { result ≡ sight_of self.now }
    {
        Sight {
            first: self.first,
            second: self.second,
            observer: self.observer,
            frame: self.frame,
        }
    }

    /// Returns the lists of steps by which each coordinate of the targets is calculated from the columns in use.
    pub(crate) fn coordinates(&self) -> &CoordinateSteps
        ensures { result.now ≡ sight_of self.now }
    {
        &self.coordinates
    }

    /// Returns the numbers of the columns in use, counted from 1, in rising order and each once. If both targets are
    /// the Earth or the Moon seen from the other, the Moon's column alone is in use.
    pub fn columns(&self) -> &[usize]
        ensures in_use { result.now ≡ columns_of self.now }
        ensures view { IsView self.now }
    {
        &self.in_use.numbers[..self.in_use.count]
    }

    /// Returns dividers by the seconds of the granules of the first four columns in use; any left over mean nothing.
    pub(crate) fn dividers(&self) -> &[Divider]
        ensures dividers { AreDividers self.now.ephemeris (columns_of self.now) result.now }
        ensures count { length result.now ≡ 4 }
    {
        &self.dividers
    }

    /// Returns, for each of the first four columns in use, how many entries the rows need that it shares with others,
    /// or 0 if it shares none. They decide only how fast the columns are evaluated, never with what result.
    pub(crate) fn entries(&self) -> &[usize]
        ensures { length result.now ≡ 4 }
    {
        &self.entries
    }

    /// Returns the interval of one of the constants by which coordinates are scaled, in units of 2^-60.
    pub fn factor(&self, factor: Factor) -> Ival
        ensures { result ≡ factor_interval (factor_of self.now factor) }
    {
        self.factors.interval(factor)
    }

    /// Returns the axes of the files that some of the frame's are made of: those of the ecliptic's y or z are y and z.
    pub fn own_axes(&self, axes: Axes) -> Axes
        ensures { result ≡ own_axes self.now.frame axes }
    {
        match self.frame {
            Frame::Eq => axes,
            Frame::Ecl => Axes {
                x: axes.x,
                y: axes.y || axes.z,
                z: axes.y || axes.z,
            },
        }
    }
}

/// Returns the divider by the seconds of a column's granules: those of the first, as all are equally long.
pub(crate) fn divider_of(ephemeris: &Ephemeris, number: usize) -> Divider
    requires checked { IsEphemeris ephemeris.now }
    requires block { 0 < ephemeris.now.blocks }
    requires present { IsTrue (has_column ephemeris.now.header number) }
    ensures { result ≡ granule_seconds ephemeris.now number }
{
    Divider::of(ephemeris.granule(number, ephemeris.start()).seconds)
}

// Returns the dividers by the seconds of the granules of a list's first four columns. Those left over divide by 1.
fn dividers_of(ephemeris: &Ephemeris, numbers: &[usize]) -> [Divider; KEPT_COLUMNS]
    requires checked { IsEphemeris ephemeris.now }
    requires block { 0 < ephemeris.now.blocks }
    requires present { HasColumns ephemeris.now numbers.now }
    ensures { AreDividers ephemeris.now numbers.now result }
{
    [
        divider_at(ephemeris, numbers, 0),
        divider_at(ephemeris, numbers, 1),
        divider_at(ephemeris, numbers, 2),
        divider_at(ephemeris, numbers, 3),
    ]
}

// Returns the divider by the seconds of the granules of the column at a place, or by 1 if the list has no such place.
fn divider_at(ephemeris: &Ephemeris, numbers: &[usize], place: usize) -> Divider
    requires checked { IsEphemeris ephemeris.now }
    requires block { 0 < ephemeris.now.blocks }
    requires present { HasColumns ephemeris.now numbers.now }
    ensures { place < length numbers.now
        → result ≡ granule_seconds ephemeris.now (slice_index_or numbers.now place 0) }
{
    if place < numbers.len() {
        divider_of(ephemeris, numbers[place])
    } else {
        Divider::of(1)
    }
}

// Returns how many entries the shared rows of each of a list's first four columns need, or 0 if it shares none.
fn entries_of(ephemeris: &Ephemeris, numbers: &[usize]) -> [usize; KEPT_COLUMNS]
    requires checked { IsEphemeris ephemeris.now }
    requires block { 0 < ephemeris.now.blocks }
    requires present { HasColumns ephemeris.now numbers.now }
{
    let mut entries = [0; KEPT_COLUMNS];
    for place in 0..numbers.len().min(KEPT_COLUMNS) {
        entries[place] = entries_at(ephemeris, numbers, place);
    }
    entries
}

// Returns the greatest number of coefficients of the columns whose granules are as long as those of the column at a
// place of a list. Of the others the first four are looked at. It is 0 if none has such granules, or past the list.
fn entries_at(ephemeris: &Ephemeris, numbers: &[usize], place: usize) -> usize
    requires checked { IsEphemeris ephemeris.now }
    requires block { 0 < ephemeris.now.blocks }
    requires present { HasColumns ephemeris.now numbers.now }
{
    let mut entries = 0;
    if place < numbers.len() {
        let own = ephemeris.granule(numbers[place], ephemeris.start());
        for other in 0..numbers.len().min(KEPT_COLUMNS) {
            let granule = ephemeris.granule(numbers[other], ephemeris.start());
            if other != place && granule.seconds == own.seconds {
                entries = entries.max(own.n).max(granule.n);
            }
        }
    }
    entries
}
