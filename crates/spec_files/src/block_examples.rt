// Worked examples of the definitions: blocks of five numbers and one day, and the first fault where a line is changed.
ghost use Rattle.std.specs.Prelude.{◌≡◌, [], ◌∷◌, ◌++◌, ◌-◌, Err, Ok, codes, false, negsuc, pos, true};
ghost use Rattle.spec_text.specs.Examples.{decimal};
ghost use Rattle.spec_ephemeris.specs.declared.limits.TheConstants.{FIRST_TIME, LAST_TIME, MAX_BLOCKS};
ghost use Rattle.spec_ephemeris.specs.Examples.{four_columns, whole};
ghost use Rattle.spec_files.specs.Sections.{breaks, broken, ended, line_fault};
ghost use Rattle.spec_faults.specs.declared.numbers.TheConstants.{BLOCK_GAP, BLOCK_SPAN, NCOEFF_DIFFERS, NO_BLOCK, NUMBER, RECORD_LINE, TOO_LARGE, TOO_MANY_BLOCKS, TRAILING_NUMBERS, TRUNCATED};
ghost use Rattle.spec_files.specs.BlockRules.{follows, is_place_of_body, is_too_large, time_of};
ghost use Rattle.spec_files.specs.Blocks.{blocks};
ghost use Rattle.spec_files.specs.BlockExamples.{angles_header, day_of_angles, days, first_day, lines_from, on_one_line, one_day, open_day, read, read_both, refused, second_day, two_days};

/// Works out Julian dates as seconds of TDB since J2000, which is date 2451545: 2451544.5 is -43,200, and 0 and
/// 5,000,000 are the first and the last time. A date outside these, or of no whole second, is refused as BLOCK_SPAN.
#[tactic(none)]
pub fn julian_dates_are_times()
    ensures noon { time_of (whole (pos 2451545)) ≡ Ok (pos 0) }
    ensures midnight { time_of (decimal (pos 245154450) (negsuc 1)) ≡ Ok (negsuc 43199) }
    ensures first { time_of (whole (pos 0)) ≡ Ok FIRST_TIME }
    ensures last { time_of (decimal (pos 5) (pos 6)) ≡ Ok LAST_TIME }
    ensures too_late { time_of (decimal (pos 50000005) (negsuc 0)) ≡ Err (broken BLOCK_SPAN 0) }
    ensures too_early { time_of (whole (negsuc 0)) ≡ Err (broken BLOCK_SPAN 0) }
    ensures part { time_of (decimal (pos 2451545000001) (negsuc 5)) ≡ Err (broken BLOCK_SPAN 0) }
{}

/// Works out which numbers of a block are compared with 2^36 km: those of bodies, which in a header of four columns
/// stand at the places 3 to 26. 2^36 = 68719476736 and its negative are too large; 68719476735.9 is not.
#[tactic(none)]
pub fn numbers_of_bodies_are_below_2_36_km()
    ensures date { is_place_of_body four_columns.columns 2 ≡ false }
    ensures mercury { is_place_of_body four_columns.columns 3 ≡ true }
    ensures sun { is_place_of_body four_columns.columns 26 ≡ true }
    ensures after { is_place_of_body four_columns.columns 27 ≡ false }
    ensures least_size { is_too_large (whole (pos 68719476736)) ≡ true }
    ensures greatest_size { is_too_large (decimal (pos 687194767359) (negsuc 0)) ≡ false }
    ensures below_zero { is_too_large (whole (negsuc 68719476735)) ≡ true }
{}

/// Works out that the numbers of nutations and librations, which are angles and no bodies, may have any size: a block
/// with 10^99 at their five places is accepted.
#[tactic(none)]
pub fn angles_may_be_large()
    ensures mercury { is_place_of_body angles_header.columns 5 ≡ true }
    ensures nutations { is_place_of_body angles_header.columns 6 ≡ false }
    ensures librations { is_place_of_body angles_header.columns 10 ≡ false }
    ensures block { blocks angles_header (lines_from 0 1 (codes "1 10"
        ∷ codes "2451545 2451546 1 2 3 1D99 1D99 1D99 1D99 1D99" ∷ []))
        ≡ Ok (day_of_angles (decimal (pos 1) (pos 99))) }
{}

/// Works out the ephemerides of lines with blocks of one day: of one block, of two that follow one another, and of the
/// same two with the first block repeated. A block that ends no later than the one before it is skipped.
#[tactic(none)]
pub fn blocks_follow_one_another()
    ensures one { read first_day ≡ one_day }
    ensures two { read (first_day ++ second_day) ≡ two_days }
    ensures repeated { read (first_day ++ first_day ++ second_day ++ first_day) ≡ two_days }
{}

/// Works out that a block may start in one file and end on the first line of the next. A bad number on that line, `x`,
/// is a fault of file 1 at its line 1.
#[tactic(none)]
pub fn blocks_go_on_in_the_next_file()
    ensures whole { read_both open_day (codes "-2 3 0.0" ∷ second_day) ≡ two_days }
    ensures bad { read_both open_day (codes "-2 x 0.0" ∷ second_day)
        ≡ Err (breaks 1 (line_fault 1 (broken NUMBER 1))) }
{}

/// Works out which first lines of blocks (record lines) are refused: all but two whole numbers, of which the first may
/// be any, even 0, and the second is the header's count of 5. `1 6` has another count.
#[tactic(none)]
pub fn record_lines_are_refused()
    ensures one_word { read (codes "1" ∷ []) ≡ refused 1 RECORD_LINE 0 }
    ensures three_words { read (codes "1 5 0.0" ∷ []) ≡ refused 1 RECORD_LINE 0 }
    ensures no_number { read (codes "1 +5" ∷ []) ≡ refused 1 RECORD_LINE 0 }
    ensures other_number { read (codes "x 6" ∷ []) ≡ refused 1 RECORD_LINE 0 }
    ensures other_count { read (codes "1 6" ∷ []) ≡ refused 1 NCOEFF_DIFFERS 0 }
    ensures record_zero { read (codes "0 5" ∷ codes "2451545 2451546 1.5 -2 3" ∷ []) ≡ one_day }
    ensures after_a_block { read (first_day ++ codes "GROUP 1010" ∷ []) ≡ refused 4 RECORD_LINE 0 }
{}

/// Works out which dates of a block are refused, and at which line: dates outside the limits, a length other than one
/// day, and a start after the end of the block before, or before it. A block that ends no later than the one before it
/// is skipped: of it only a bad number is refused. 16,384 blocks are accepted, and one more only if it is skipped.
#[tactic(none)]
pub fn dates_of_blocks_are_refused()
    ensures first_date { read (on_one_line (codes "-2451545 x")) ≡ refused 2 BLOCK_SPAN 0 }
    ensures second_date { read (on_one_line (codes "2451545") ++ codes "9999999 x" ∷ [])
        ≡ refused 3 BLOCK_SPAN 0 }
    ensures length { read (on_one_line (codes "2451545 2451547 x")) ≡ refused 2 BLOCK_SPAN 0 }
    ensures gap { read (first_day ++ on_one_line (codes "2451547 2451548 x"))
        ≡ refused 5 BLOCK_GAP 0 }
    ensures half { read (first_day ++ on_one_line (codes "2451545.5 2451546.5 x"))
        ≡ refused 5 BLOCK_GAP 0 }
    ensures skipped { read (first_day ++ on_one_line (codes "2451544.5 2451545.5 x"))
        ≡ refused 5 NUMBER 1 }
    ensures most { follows (days (MAX_BLOCKS - 1) []) (pos 1415491200) (pos 1415577600) ≡ Ok tt }
    ensures too_many { follows (days MAX_BLOCKS []) (pos 1415577600) (pos 1415664000)
        ≡ Err (broken TOO_MANY_BLOCKS 0) }
    ensures one_more_skipped { follows (days MAX_BLOCKS []) (pos 0) (pos 86400) ≡ Ok tt }
{}

/// Works out which numbers after a block's dates are refused: words that are no decimals (NUMBER, with the number of
/// their fault), and -10^11 or 10^11, too large for a body. The first bad word counts, and blocks that are skipped are
/// looked at too.
#[tactic(none)]
pub fn numbers_are_refused()
    ensures no_number { read (open_day ++ codes "1.5.5" ∷ []) ≡ refused 3 NUMBER 1 }
    ensures many_digits { read (on_one_line (codes "2451545 2451546 0.1234567890123456789"))
        ≡ refused 2 NUMBER 2 }
    ensures too_large { read (on_one_line (codes "2451545 2451546 -0.1D+12"))
        ≡ refused 2 TOO_LARGE 0 }
    ensures first_of_two { read (open_day ++ codes "1D11 x" ∷ []) ≡ refused 3 TOO_LARGE 0 }
    ensures of_a_skipped_block { read (first_day ++ on_one_line (codes "2451545 2451546 1D11"))
        ≡ refused 5 TOO_LARGE 0 }
{}

/// Works out which words may follow the last number of a block on its line: zeros, also as `-0.0D7`. A 1 or a word that
/// is no number is refused as TRAILING_NUMBERS.
#[tactic(none)]
pub fn words_after_a_block_are_zeros()
    ensures zeros { read (on_one_line (codes "2451545 2451546 1.5 -2 3 0 -0.0D7")) ≡ one_day }
    ensures one { read (on_one_line (codes "2451545 2451546 1.5 -2 3 0 1"))
        ≡ refused 2 TRAILING_NUMBERS 0 }
    ensures no_number { read (on_one_line (codes "2451545 2451546 1.5 -2 3 x"))
        ≡ refused 2 TRAILING_NUMBERS 0 }
{}

/// Works out the faults of lines that end early: NO_BLOCK if there is no line at all, and TRUNCATED after a record line
/// or within the numbers of any block.
#[tactic(none)]
pub fn lines_that_end_within_a_block_are_refused()
    ensures no_line { read [] ≡ Err (ended NO_BLOCK) }
    ensures record_line { read (codes "1 5" ∷ []) ≡ Err (ended TRUNCATED) }
    ensures within { read open_day ≡ Err (ended TRUNCATED) }
    ensures second_block { read (first_day ++ codes "2 5" ∷ []) ≡ Err (ended TRUNCATED) }
{}
