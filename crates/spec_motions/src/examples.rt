// Worked values of the definitions, by computation. The calls do nothing when they run.

ghost use Rattle.std.specs.Prelude.{◌≡◌, pos};
ghost use Rattle.spec_intervals.specs.Interval.{zero_interval};
ghost use Rattle.spec_intervals.specs.Signs.{sign_of};
ghost use Rattle.spec_intervals.specs.declared.signs.Sign.TheVariants.{No, Open};
ghost use Rattle.spec_motions.specs.Enclosures.{position_interval, position_step_interval, velocity_interval, velocity_step_interval};
ghost use Rattle.spec_ephemeris.specs.Examples.{growing_x};
ghost use Rattle.spec_motions.specs.Examples.{before, middle, one};

/// Works out intervals of the position of a line that grows by 1 km each second and passes 0 at time 1339200. There the
/// interval is 0 alone; from 1339000 to 1339100 it is below 0, and from 1339000 to 1339300 its sign is open.
pub fn a_line_changes_sign_in_the_middle()
    ensures in_the_middle { position_interval growing_x middle middle ≡ zero_interval }
    ensures before { sign_of (position_interval growing_x (pos 1339000) (pos 1339100)) ≡ No }
    ensures around { sign_of (position_interval growing_x (pos 1339000) (pos 1339300)) ≡ Open }
{}

/// Works out the velocity of a line that grows by 1 km each second, and its change of position each second, from
/// 1339000 to 1339200: both are 1 alone, as 2^62 units of 2^-62. The velocity does not change, and over a single time
/// the position does not.
pub fn a_line_has_a_constant_velocity()
    ensures velocity { velocity_interval growing_x before middle ≡ one }
    ensures step { position_step_interval growing_x before middle ≡ one }
    ensures velocity_step { velocity_step_interval growing_x before middle ≡ zero_interval }
    ensures one_time { position_step_interval growing_x before before ≡ zero_interval }
{}
