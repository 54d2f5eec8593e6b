// Worked values of each definition, by computation. The calls do nothing when they run.

ghost use Rattle.std.specs.Prelude.{◌≡◌, ◌∷◌, [], pos};
ghost use Rattle.spec_intervals.specs.Signs.{sign_of};
ghost use Rattle.spec_intervals.specs.declared.signs.Sign.TheVariants.{Yes, No};
ghost use Rattle.spec_bodies.specs.declared.frame.Frame.TheVariants.{Eq, Ecl};
ghost use Rattle.spec_bodies.specs.declared.quantity.Quantity.TheVariants.{Position};
ghost use Rattle.spec_bodies.specs.declared.source.Source.{Source};
ghost use Rattle.spec_bodies.specs.declared.source.Source.TheVariants.{OwnColumn, EarthOfPair, MoonOfPair, Origin};
ghost use Rattle.spec_bodies.specs.Sources.{columns_in_use};
ghost use Rattle.spec_bodies.specs.Coordinates.{coordinate};
ghost use Rattle.spec_bodies.specs.Views.{exact_coordinate};
ghost use Rattle.spec_bodies.specs.Examples.{IsKm, earth_from_centre, earth_x};

/// Works out the Earth's x seen from the barycentre of the solar system, if the Moon's x from the Earth is
/// `82 (t - 1339200)` km and the mass ratio is 81: it is `1339200 - t` km, 1 km at the time before and below 0 at the
/// time after.
pub fn the_earth_swings_round_the_barycentre()
    ensures exact { IsKm (exact_coordinate earth_from_centre Position 0 0 (pos 1339199)) (pos 1) }
    ensures before { sign_of (earth_x (pos 1339199)) ≡ Yes }
    ensures after { sign_of (earth_x (pos 1339201)) ≡ No }
{}

/// Works out which columns two targets and an observer use. The Earth from the Moon and the Moon from the Earth use the
/// Moon's column, 10, alone. Venus and Mercury from the Earth use 1, 2, 3 and 10, each once and in order.
pub fn columns_in_use_are_few()
    ensures moon_from_the_earth { columns_in_use MoonOfPair MoonOfPair EarthOfPair ≡ 10 ∷ [] }
    ensures earth_from_the_moon { columns_in_use EarthOfPair EarthOfPair MoonOfPair ≡ 10 ∷ [] }
    ensures planets { columns_in_use (OwnColumn 2) (OwnColumn 1) EarthOfPair ≡ 1 ∷ 2 ∷ 3 ∷ 10 ∷ [] }
    ensures from_the_origin { columns_in_use (OwnColumn 11) (OwnColumn 11) Origin ≡ 11 ∷ [] }
{}

/// States that the x coordinate has one formula in equatorial and in ecliptic axes, whatever the target and the
/// observer, so that its enclosures are equal bit for bit: the frames share their x axis.
pub fn x_is_the_same_in_both_frames()
    ensures { (target observer : Source)
        → coordinate target observer Ecl 0 ≡ coordinate target observer Eq 0 }
{}
