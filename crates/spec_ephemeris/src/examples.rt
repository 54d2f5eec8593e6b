// Worked values of the definitions, by computation. The calls do nothing when they run.
ghost use Rattle.std.specs.Prelude.{◌≡◌, ◌+◌, ◌-◌, ◌*ℤ◌, ◌^◌, true, false, [], ◌∷◌, None, Some, pos, neg_ℤ};
ghost use Rattle.spec_ephemeris.specs.Header.{IsHeader, IsMassRatio, column_size, has_column};
ghost use Rattle.spec_ephemeris.specs.Ephemeris.{IsPreferred};
ghost use Rattle.spec_ephemeris.specs.Borders.{nearest_border};
ghost use Rattle.spec_ephemeris.specs.Rounding.{pair_of, pairs_of};
ghost use Rattle.spec_ephemeris.specs.Series.{IsCoefficient, argument_at, position};
ghost use Rattle.spec_ephemeris.specs.Velocity.{velocity};
ghost use Rattle.spec_ephemeris.specs.Ticks.{IsInSeconds, in_ticks, series_in_ticks};
ghost use Rattle.spec_ephemeris.specs.Examples.{IsWhole, whole, pair, tiny, growing_x, parabola, column, de405, de405_of_length, de405_with, de430t, blocks_of, blocks_of_de405, four_columns, of_four_columns, one_column, overlapping};

/// Works out arguments in a block of 2,764,800 seconds that starts at -43200. As numerators over the length they run
/// from -2,764,800 at the start over 0 in the middle to 2,764,800 at the end, and grow by 2 each second.
pub fn arguments_run_from_end_to_end_of_a_block()
    ensures at_start { argument_at growing_x (neg_ℤ (pos 43200)) ≡ neg_ℤ (pos 2764800) }
    ensures in_the_middle { argument_at growing_x (pos 1339200) ≡ pos 0 }
    ensures one_second_later { argument_at growing_x (pos 1339201) ≡ pos 2 }
    ensures at_end { argument_at growing_x (pos 2721600) ≡ pos 2764800 }
{}

/// Works out positions, in km, on a line that grows by 1 km each second over a block of 32 days from -43200: it passes
/// 0 at 1339200, the middle of the block, and is -1,382,400 at its start and 1,382,400 at its end.
pub fn positions_on_a_line()
    ensures at_start { IsWhole (position growing_x (neg_ℤ (pos 43200))) (neg_ℤ (pos 1382400)) }
    ensures one_second_earlier { IsWhole (position growing_x (pos 1339199)) (neg_ℤ (pos 1)) }
    ensures in_the_middle { IsWhole (position growing_x (pos 1339200)) (pos 0) }
    ensures one_second_later { IsWhole (position growing_x (pos 1339201)) (pos 1) }
    ensures at_end { IsWhole (position growing_x (pos 2721600)) (pos 1382400) }
{}

/// Works out positions of the series T_0 + 2 T_1 + 3 T_2, in km, over the times 100 to 110. It is the parabola
/// `1 + 2 x + 3 (2 x^2 - 1)`: 2 at the start, where x is -1, then -2 in the middle and 6 at the end.
pub fn positions_on_a_parabola()
    ensures at_start { IsWhole (position parabola (pos 100)) (pos 2) }
    ensures in_the_middle { IsWhole (position parabola (pos 105)) (neg_ℤ (pos 2)) }
    ensures at_end { IsWhole (position parabola (pos 110)) (pos 6) }
{}

/// Works out velocities in km per second. A line that grows by 1 km each second has the velocity 1. A parabola of the
/// slope `2 + 12 x` over ten seconds, in which x grows by 1/5 each second, has a fifth of that slope: -2 at its start.
pub fn velocities_of_a_line_and_a_parabola()
    ensures line { IsWhole (velocity growing_x (pos 1339000)) (pos 1) }
    ensures parabola_at_start { IsWhole (velocity parabola (pos 100)) (neg_ℤ (pos 2)) }
{}

/// Works out which numbers may be coefficients of a position: those below 2^36 km in magnitude, as 2^36 - 1 and its
/// negative, but not 2^36.
pub fn coefficients_are_below_2_36_km()
    ensures greatest { IsCoefficient (whole (pos (2 ^ 36 - 1))) }
    ensures least { IsCoefficient (whole (neg_ℤ (pos (2 ^ 36 - 1)))) }
    ensures too_large { IsCoefficient (whole (pos (2 ^ 36))) → ⊥ }
{}

/// Works out how many numbers of a block a column takes: components times coefficients times granules, and nutations
/// have two components. In DE405 Mercury's 168 from place 3 on end where Venus starts, and the librations end with the
/// block, at 1018.
pub fn columns_end_where_the_next_begin()
    ensures mercury { 3 + column_size 1 (column 3 14 4) ≡ 171 }
    ensures nutations { 819 + column_size 12 (column 819 10 4) ≡ 899 }
    ensures librations { 899 + column_size 13 (column 899 10 4) ≡ 1018 + 1 }
{}

/// Works out which columns a header has, counted from 1. A column without coefficients is absent, as column 2 here; so
/// is one past the last. In JPL's DE430t column 13 is there, and column 15 counts as absent, since columns past 13 are
/// not read.
pub fn columns_without_coefficients_are_absent()
    ensures first { has_column four_columns 1 ≡ true }
    ensures absent { has_column four_columns 2 ≡ false }
    ensures zero { has_column four_columns 0 ≡ false }
    ensures past_the_last { has_column de405 14 ≡ false }
    ensures last_that_is_read { has_column de430t 13 ≡ true }
    ensures not_read { has_column de430t 15 ≡ false }
{}

/// Works out that the headers of DE405, of DE430t and of four columns meet the rules, and that one in which place 8
/// belongs to two columns does not. Of columns 14 and 15 nothing is checked; a sixteenth is refused.
pub fn headers_meet_or_break_the_rules()
    ensures four { IsHeader four_columns }
    ensures of_de405 { IsHeader de405 }
    ensures of_de430t { IsHeader de430t }
    ensures taken_places { IsHeader (de405_with (column 3 40 7 ∷ [])) }
    ensures two_on_one_place { IsHeader overlapping → ⊥ }
    ensures sixteen { IsHeader (de405_with (column 3 0 0 ∷ column 3 0 0 ∷ column 3 0 0 ∷ [])) → ⊥ }
{}

/// Works out which sizes a header may give: a block of 3 to 4,096 numbers, and columns of up to 32 coefficients. One
/// less, 2, and one more, 4,097 and 33, are refused.
pub fn blocks_have_3_to_4096_numbers()
    ensures fewest { IsHeader (one_column 3 (column 3 0 0)) }
    ensures too_few { IsHeader (one_column 2 (column 3 0 0)) → ⊥ }
    ensures most { IsHeader (one_column 4_096 (column 3 2 1)) }
    ensures too_many { IsHeader (one_column 4_097 (column 3 2 1)) → ⊥ }
    ensures most_coefficients { IsHeader (one_column 98 (column 3 32 1)) }
    ensures too_many_coefficients { IsHeader (one_column 101 (column 3 33 1)) → ⊥ }
{}

/// Works out which mass ratios of the Earth to the Moon a header may have: from 1 to 1,000, both allowed, but not 0 or
/// 1,001.
pub fn mass_ratios_are_from_1_to_1000()
    ensures least { IsMassRatio (whole (pos 1)) }
    ensures too_small { IsMassRatio (whole (pos 0)) → ⊥ }
    ensures greatest { IsMassRatio (whole (pos 1_000)) }
    ensures too_great { IsMassRatio (whole (pos 1_001)) → ⊥ }
{}

/// Works out how long a block of a header may be: 64 days, which are 5,529,600,000 ticks of a millisecond, but no tick
/// more. A block of more than 5,529,600, which is 64 days in seconds, does not count seconds.
pub fn blocks_are_up_to_64_days_long()
    ensures longest { IsHeader (de405_of_length (pos 5529600000)) }
    ensures too_long { IsHeader (de405_of_length (pos 5529600001)) → ⊥ }
    ensures no_seconds { IsInSeconds (blocks_of (de405_of_length (pos 5529601)) 1) → ⊥ }
{}

/// Works out an ephemeris whose times count milliseconds: starts, lengths and borders are multiplied by 1,000, each
/// second keeps its position, the argument grows by 2 each tick, and a velocity of 1 km per second is 1/1000 km per
/// tick.
pub fn milliseconds_multiply_times()
    ensures start { (in_ticks 1000 (blocks_of_de405 2)).start ≡ neg_ℤ (pos 43200000) }
    ensures length { (in_ticks 1000 (blocks_of_de405 2)).header.block_seconds ≡ pos 2764800000 }
    ensures border { nearest_border (in_ticks 1000 (blocks_of_de405 2)) (1 ∷ []) (pos 593600000)
        (pos 1393602000) ≡ Some (pos 1339200000) }
    ensures one_tick_later { argument_at (series_in_ticks 1000 growing_x) (pos 1339200001) ≡ pos 2 }
    ensures one_second_later { IsWhole (position (series_in_ticks 1000 growing_x) (pos 1339201000)) (pos 1) }
    ensures velocity { let slope = velocity (series_in_ticks 1000 growing_x) (pos 1339000000) in
        slope.numerator *ℤ pos 1000 ≡ pos slope.denominator }
{}

/// Works out which of two times is preferred as nearest to the middle of a span. From 0 to 4, of 1 and 3, which are as
/// near, the smaller is preferred; from 0 to 10, 6 is preferred to 3, since it is nearer.
pub fn nearer_and_earlier_times_are_preferred()
    ensures smaller { IsPreferred (pos 0) (pos 4) (pos 1) (pos 3) }
    ensures larger { IsPreferred (pos 0) (pos 4) (pos 3) (pos 1) → ⊥ }
    ensures nearer { IsPreferred (pos 0) (pos 10) (pos 6) (pos 3) }
{}

/// Works out the borders of two blocks of 32 days: 2721600, at which the second begins. It lies in a span that ends
/// with it, not in one that starts with it. The end of the last block is no border.
pub fn two_blocks_have_one_border()
    ensures upto { nearest_border (of_four_columns 2 []) (1 ∷ []) (pos 2721599) (pos 2721600)
        ≡ Some (pos 2721600) }
    ensures after { nearest_border (of_four_columns 2 []) (1 ∷ []) (pos 2721600) (pos 2721601)
        ≡ None }
    ensures end_of_all { nearest_border (of_four_columns 2 []) (1 ∷ []) (pos 5486399) (pos 5486400)
        ≡ None }
{}

/// Works out the borders of DE405 nearest to the middle of a span. A granule of Mercury, column 1, has 8 days and one
/// of Venus, column 2, has 16. Of two as near the smaller counts. With no column there is no border.
pub fn borders_of_de405_are_8_or_16_days_apart()
    ensures smaller_of_two { nearest_border (blocks_of_de405 2) (1 ∷ []) (pos 593600) (pos 1393600)
        ≡ Some (pos 648000) }
    ensures nearer { nearest_border (blocks_of_de405 2) (1 ∷ []) (pos 593600) (pos 1393602)
        ≡ Some (pos 1339200) }
    ensures of_one { nearest_border (blocks_of_de405 2) (2 ∷ []) (pos 593600) (pos 1393600)
        ≡ Some (pos 1339200) }
    ensures of_both { nearest_border (blocks_of_de405 2) (2 ∷ 1 ∷ []) (pos 593600) (pos 1393600)
        ≡ Some (pos 648000) }
    ensures of_none { nearest_border (blocks_of_de405 2) [] (pos 593600) (pos 1393600) ≡ None }
{}

/// Works out coefficients rounded down and up to units of 2^-24 km: 10^-12 km above or below 0 lies between two whole
/// numbers, and a whole number of km is exact. The angles of nutations, column 12, are not rounded.
pub fn coefficients_are_rounded_both_ways()
    ensures above_zero { pair_of (tiny (pos 1)) ≡ pair (pos 0) (pos 1) }
    ensures below_zero { pair_of (tiny (neg_ℤ (pos 1))) ≡ pair (neg_ℤ (pos 1)) (pos 0) }
    ensures whole { pair_of (whole (pos 1382400)) ≡ pair (pos 23192823398400) (pos 23192823398400) }
    ensures sun { pairs_of 11 (whole (pos 1) ∷ []) ≡ pair (pos 16777216) (pos 16777216) ∷ [] }
    ensures nutations { pairs_of 12 (whole (pos 1) ∷ []) ≡ [] }
{}
