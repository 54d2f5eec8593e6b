// Scenes: who is seen from where, and over which times.
ghost use Rattle.std.specs.Prelude.{◌≡◌, ◌≤ℤ◌, IfOk, IsTrue};
ghost use Rattle.std.specs.List.{list_all};
ghost use Rattle.spec_ephemeris.specs.Header.{has_column};
ghost use Rattle.spec_ephemeris.specs.Ephemeris.{end_of};
ghost use Rattle.spec_bodies.specs.Sources.{source_of, needed_columns};
ghost use Rattle.spec_bodies.specs.Views.{Fits};

use crate::fields::{Fields, RowError};
use crate::names::{next_body, next_frame};
use crate::parts::next_pair;
use body_states::BodyStates;
use eph_model::{Body, Ephemeris};
use spec_bodies::{EMB_COLUMN, Frame, MOON_COLUMN, Source};

/// A scene: two targets, the observer and the frame.
#[derive(Clone, Copy)]
pub(crate) struct Scene {
    pub(crate) targets: [Body; 2],
    pub(crate) observer: Body,
    pub(crate) frame: Frame,
}

/// Reads a scene: two targets, the observer and the frame.
pub(crate) fn next_scene(fields: &mut Fields<'_>) -> Scene {
    Scene {
        targets: [next_body(fields), next_body(fields)],
        observer: next_body(fields),
        frame: next_frame(fields),
    }
}

// Tells whether the ephemeris has all columns from which the states of a body are computed.
fn has_columns_of_body(ephemeris: &Ephemeris, body: Body) -> bool
    ensures { result ≡ list_all (has_column ephemeris.now.header) (needed_columns (source_of body)) }
{
    match Source::of(body) {
        Source::Origin => true,
        Source::OwnColumn(number) => ephemeris.has(number),
        Source::EarthOfPair | Source::MoonOfPair => {
            ephemeris.has(EMB_COLUMN) && ephemeris.has(MOON_COLUMN)
        }
    }
}

/// Returns the states of the two targets of a scene over the ephemeris. A scene is malformed if the ephemeris lacks a
/// column of a body or has no block, if a target is the barycentre of the solar system, or if it is the observer.
pub(crate) fn states_of_scene<'e>(
    ephemeris: &'e Ephemeris,
    scene: Scene,
) -> Result<BodyStates<'e>, RowError>
    ensures { IfOk result (λ states. states.ephemeris ≡ ephemeris.now) }
{
    let [first, second] = scene.targets;
    let observer = scene.observer;
    let has_first = has_columns_of_body(ephemeris, first);
    let has_second = has_columns_of_body(ephemeris, second);
    let has_observer = has_columns_of_body(ephemeris, observer);
    if ephemeris.blocks() == 0 || !has_first || !has_second || !has_observer {
        return Err(RowError::Malformed);
    }
    if first == Body::Ssb || second == Body::Ssb || first == observer || second == observer {
        return Err(RowError::Malformed);
    }
    Ok(BodyStates::new(ephemeris, [first, second], observer, scene.frame))
}

/// The states of two targets, and the first and the last of the times at which they are asked for.
#[derive(Clone, Copy)]
pub(crate) struct View<'v, 'e> {
    pub(crate) states: &'v BodyStates<'e>,
    pub(crate) a: i64,
    pub(crate) b: i64,
}

// Tells whether no granule of a column in use begins after time `a` and up to `b`, so that the states can be asked for
// these times.
fn is_free_of_borders(ephemeris: &Ephemeris, states: &BodyStates<'_>, a: i64, b: i64) -> bool
    requires ephemeris { states.now.ephemeris ≡ ephemeris.now }
    requires from { ephemeris.now.start ≤ℤ a }
    requires order { a ≤ℤ b }
    requires upto { b ≤ℤ end_of ephemeris.now }
    ensures { IsTrue result → Fits states.now a b }
{
    let columns = states.columns();
    if a == b {
        true
    } else {
        ephemeris.border_near(columns, a, b).is_none()
    }
}

/// Reads the first and the last time at which states are asked for. Times outside of the ephemeris, or with a border
/// of a column in use between them, are malformed.
pub(crate) fn next_span(
    ephemeris: &Ephemeris,
    states: &BodyStates<'_>,
    fields: &mut Fields<'_>,
) -> Result<(i64, i64), RowError>
    requires { states.now.ephemeris ≡ ephemeris.now }
    ensures { IfOk result (λ span. Fits states.now span.0 span.1) }
{
    let (a, b) = next_pair(fields);
    if a < ephemeris.start() || b < a || ephemeris.end() < b {
        return Err(RowError::Malformed);
    }
    if is_free_of_borders(ephemeris, states, a, b) {
        Ok((a, b))
    } else {
        Err(RowError::Malformed)
    }
}
