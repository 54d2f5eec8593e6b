// Laws of granules and borders. Each is the contract of a function that does nothing.
ghost use Rattle.std.specs.Prelude.{◌≡◌, ◌↔◌, All, IsTrue, List, Option, ℕ, ℤ, pos, ◌*ℤ◌};
ghost use Rattle.spec_ephemeris.specs.Granules.{HasTime, granule_at};
ghost use Rattle.spec_ephemeris.specs.Header.{has_column};
ghost use Rattle.spec_ephemeris.specs.Borders.{nearest_border};
ghost use Rattle.spec_ephemeris.specs.Series.{Series, position};
ghost use Rattle.spec_ephemeris.specs.Ticks.{IsInSeconds, IsSame, IsTick, in_ticks, series_in_ticks};
ghost use Rattle.spec_ephemeris.specs.Ephemeris.{Ephemeris, Granule, IsEphemeris, IsGranuleAt, IsNearestBorder};

/// States that each time of a checked ephemeris lies in only one granule of a column: two granules of the column at the
/// time are equal. At a border this is the granule that begins there.
pub fn a_time_has_one_granule()
    ensures { (e : Ephemeris) (number : ℕ) (t : ℤ) (g h : Granule) → IsEphemeris e
        → IsGranuleAt e number t g → IsGranuleAt e number t h → g ≡ h }
{}

/// States that `granule_at` computes the granule of a column at a time: what it returns is a granule at that time, and
/// every granule at that time is equal to it. The column has to be present and the time within the blocks.
pub fn granule_at_computes_the_granule()
    ensures is { (e : Ephemeris) (number : ℕ) (t : ℤ) → HasTime e number t
        → IsGranuleAt e number t (granule_at e number t) }
    ensures only { (e : Ephemeris) (number : ℕ) (t : ℤ) (g : Granule) → HasTime e number t
        → IsGranuleAt e number t g → g ≡ granule_at e number t }
{}

/// States that a checked ephemeris whose times count seconds stays a checked one when its times are multiplied to count
/// ticks, 1 or 1,000 a second.
pub fn ephemerides_in_ticks_are_checked()
    ensures { (tick : ℕ) (e : Ephemeris) → IsTick tick → IsEphemeris e → IsInSeconds e
        → IsEphemeris (in_ticks tick e) }
{}

/// States that a series counted in ticks has at `tick` times a second's number the same position that it has at that
/// second when it is counted in seconds.
pub fn ticks_keep_positions()
    ensures { (tick : ℕ) (s : Series) (t : ℤ)
        → IsSame (position (series_in_ticks tick s) (t *ℤ pos tick)) (position s t) }
{}

/// States that a span `(a, b]` has at most one border of the given columns that is nearest to its middle: two answers,
/// each a time or `None`, are equal.
pub fn one_border_is_nearest()
    ensures { (e : Ephemeris) (columns : List ℕ) (a b : ℤ) (x y : Option ℤ)
        → IsNearestBorder e columns a b x → IsNearestBorder e columns a b y → x ≡ y }
{}

/// States that `nearest_border` computes, for columns that are all present, the border in `(a, b]` that is nearest to
/// the middle, or `None` if there is none, and that no other answer is right.
pub fn nearest_border_computes_the_nearest_border()
    ensures { (e : Ephemeris) (columns : List ℕ) (a b : ℤ) (x : Option ℤ) → IsEphemeris e
        → All (λ column. IsTrue (has_column e.header column)) columns
        → IsNearestBorder e columns a b x ↔ (x ≡ nearest_border e columns a b) }
{}
