// Laws of the intervals of a series, whatever the coefficients. Each is the contract of a function that does nothing.

ghost use Rattle.std.specs.Prelude.{ℤ};
ghost use Rattle.spec_ephemeris.specs.Series.{Series, position};
ghost use Rattle.spec_ephemeris.specs.Velocity.{velocity};
ghost use Rattle.spec_motions.specs.Enclosures.{HoldsChanges, HoldsEach, IsSeries, IsSpanOf, IsTight, position_interval, position_step_interval, velocity_interval, velocity_step_interval};

/// States that over a span within a granule the interval of positions of a series, in km, holds its exact position at
/// each time of the span.
pub fn intervals_hold_positions()
    ensures { (s : Series) (a b : ℤ) → IsSeries s → IsSpanOf s a b
        → HoldsEach (position s) a b (position_interval s a b) }
{}

/// States that over a span within a granule the interval of steps of a position, in km, holds its exact change from
/// each time of the span to the next.
pub fn intervals_hold_changes_of_position()
    ensures { (s : Series) (a b : ℤ) → IsSeries s → IsSpanOf s a b
        → HoldsChanges (position s) a b (position_step_interval s a b) }
{}

/// States that over a span within a granule the interval of velocities of a series, in km per unit of time, holds its
/// exact velocity at each time of the span.
pub fn intervals_hold_velocities()
    ensures { (s : Series) (a b : ℤ) → IsSeries s → IsSpanOf s a b
        → HoldsEach (velocity s) a b (velocity_interval s a b) }
{}

/// States that over a span within a granule the interval of steps of a velocity, in km per unit of time, holds its
/// exact change from each time of the span to the next.
pub fn intervals_hold_changes_of_velocity()
    ensures { (s : Series) (a b : ℤ) → IsSeries s → IsSpanOf s a b
        → HoldsChanges (velocity s) a b (velocity_step_interval s a b) }
{}

/// States how wide the interval of a position at one time is at most, in km: the sum of `|c_k| 3^(k+1) 2^-59` over the
/// n coefficients `c_k` of the series, and `(n + 2) 2^-23` more.
pub fn positions_are_tight()
    ensures { (s : Series) (a : ℤ) → IsSeries s → IsSpanOf s a a
        → IsTight s.coefficients (position_interval s a a) }
{}
