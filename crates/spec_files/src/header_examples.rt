// Worked examples of the definitions: a header of a few lines, and the first fault where one line is changed.
ghost use Rattle.std.specs.Prelude.{◌≡◌, ◌++◌, [], ◌∷◌, codes, pos, replicate, take};
ghost use Rattle.spec_text.specs.Bytes.{blank};
ghost use Rattle.spec_faults.specs.declared.numbers.TheConstants.{COEFFICIENT_COUNT, COLUMN_COUNT, COLUMN_PLACE, COUNT_MISMATCH, EMRAT_MISSING, EMRAT_RANGE, ENDED, FIRST_LINE, GRANULE_NOT_WHOLE, GROUP_MISSING, HEADER_NUMBER, JD_NOT_WHOLE_SECOND, LIMIT, LINE_TOO_LONG};
ghost use Rattle.spec_files.specs.HeaderExamples.{half_seconds, header_with, of_numbers, of_ratio, read_as, read_before, read_with, refused, rows, text_of, with_coefficients, with_constants, with_more};
ghost use Rattle.spec_ephemeris.specs.Examples.{column, one_column};
ghost use Rattle.spec_files.specs.HeaderLines.{text_header};

/// Works out the header of a text of 17 lines: it is read, and the lines after `GROUP 1070` are left, from line 17 on.
/// Another title, as a blank line, changes nothing.
#[tactic(none)]
pub fn a_header_is_read()
    ensures whole { text_header (text_of rows) ≡ read_before 17 }
    ensures blank_line { header_with 3 (codes " ") ≡ read_before 17 }
{}

/// Works out which words of a header are not looked at: its titles, and those after the three dates, after the names
/// that are counted and after the values that are counted, even if they are no numbers.
#[tactic(none)]
pub fn some_words_are_skipped()
    ensures titles { header_with 3 (codes "1010 GROUP\n1.5.5") ≡ read_before 18 }
    ensures dates { header_with 5 (codes "2451544.50 2451576.50 32. x") ≡ read_before 17 }
    ensures names { header_with 8 (codes "EMRAT AU EMRAT") ≡ read_before 17 }
    ensures values { header_with 11 (codes "81 x 9x") ≡ read_before 17 }
{}

/// Works out that a header may have 13 to 15 columns and blocks of 64 days. Of columns 14 and 15 nothing is checked:
/// here column 14 starts within Mercury's places, goes past the block and has 40 coefficients.
#[tactic(none)]
pub fn wider_headers_are_read()
    ensures fourteen { text_header (text_of (with_more (codes " 27") (codes " 0") (codes " 0")))
        ≡ read_with (pos 2764800) (column 27 0 0 ∷ []) 17 }
    ensures fifteen { text_header (text_of (with_more (codes " 27 27") (codes " 0 0") (codes " 0 0")))
        ≡ read_with (pos 2764800) (column 27 0 0 ∷ column 27 0 0 ∷ []) 17 }
    ensures not_checked { text_header (text_of (with_more (codes " 3") (codes " 40") (codes " 7")))
        ≡ read_with (pos 2764800) (column 3 40 7 ∷ []) 17 }
    ensures longest_block { header_with 5 (codes "2451544.50 2451608.50 64.")
        ≡ read_with (pos 5529600) [] 17 }
{}

/// Works out headers at their limits: 2,000 constants, blocks of 4,096 numbers, 32 coefficients of a component, mass
/// ratios of 1 and 1,000, and a line of 4,096 bytes are read. 4,097 numbers and a ratio of 1,000.1 are refused.
#[tactic(none)]
pub fn headers_are_read_at_their_limits()
    ensures constants { text_header (text_of (with_constants (codes "2000") 1_999)) ≡ read_before 17 }
    ensures numbers { header_with 1 (codes "KSIZE= 8192 NCOEFF= 4096")
        ≡ read_as (of_numbers 4_096) 17 }
    ensures many_numbers { header_with 1 (codes "KSIZE= 8194 NCOEFF= 4097") ≡ refused 1 LIMIT 0 }
    ensures coefficients { text_header (text_of (with_coefficients (codes "32")))
        ≡ read_as (one_column 98 (column 3 32 1)) 17 }
    ensures least_ratio { header_with 11 (codes "1 x") ≡ read_as (of_ratio (pos 1)) 17 }
    ensures greatest_ratio { header_with 11 (codes "1000 x") ≡ read_as (of_ratio (pos 1_000)) 17 }
    ensures great_ratio { header_with 11 (codes "1000.1 x") ≡ refused 11 EMRAT_RANGE 0 }
    ensures line { header_with 3 (replicate 4_096 65) ≡ read_before 17 }
{}

/// Works out which lines before the names of a header are refused, each with its line, number and detail: a wrong first
/// line, 2 numbers in a block, another group, and dates that are too few, of no whole second, below day 0, or of a
/// block of 0 or 65 days.
#[tactic(none)]
pub fn the_first_lines_are_refused()
    ensures no_ncoeff { header_with 1 (codes "KSIZE= 52") ≡ refused 1 FIRST_LINE 0 }
    ensures few_numbers { header_with 1 (codes "KSIZE= 52 NCOEFF= 2") ≡ refused 1 LIMIT 0 }
    ensures other_group { header_with 4 (codes "GROUP 1031") ≡ refused 4 GROUP_MISSING 1030 }
    ensures two_dates { header_with 5 (codes "2451544.50 2451576.50") ≡ refused 5 HEADER_NUMBER 1 }
    ensures part_of_a_second { header_with 5 (codes "2451544.500001 2451576.50 32.")
        ≡ refused 5 JD_NOT_WHOLE_SECOND 0 }
    ensures before_day_zero { header_with 5 (codes "-1 2451576.50 32.") ≡ refused 5 LIMIT 0 }
    ensures no_block { header_with 5 (codes "2451544.50 2451576.50 0") ≡ refused 5 LIMIT 0 }
    ensures long_block { header_with 5 (codes "2451544.50 2451609.50 65.") ≡ refused 5 LIMIT 0 }
{}

/// Works out which names and values of a header's constants are refused: 2,001 names, names without EMRAT, more values
/// than names, an EMRAT that is no number, and a mass ratio of 0.5.
#[tactic(none)]
pub fn the_constants_are_refused()
    ensures many_names { header_with 7 (codes "2001") ≡ refused 7 LIMIT 0 }
    ensures no_emrat { header_with 8 (codes "EMRAT0 AU") ≡ refused 10 EMRAT_MISSING 0 }
    ensures more_values { header_with 10 (codes "3") ≡ refused 10 COUNT_MISMATCH 0 }
    ensures bad_value { header_with 11 (codes "81x x") ≡ refused 11 HEADER_NUMBER 1 }
    ensures small_ratio { header_with 11 (codes "0.5 x") ≡ refused 11 EMRAT_RANGE 0 }
{}

/// Works out which columns and ends of a header are refused: 12 or 16 columns, rows of different counts, a word that is
/// no number, 33 coefficients, places past the block or taken twice, granules of half seconds, and a text that ends or
/// has a long line there.
#[tactic(none)]
pub fn the_columns_are_refused()
    ensures twelve_words { header_with 13 (codes "3 9 9 15 15 15 15 15 15 15 21 x")
        ≡ refused 13 COLUMN_COUNT 0 }
    ensures sixteen_words { header_with 13 (codes "3 9 9 15 15 15 15 15 15 15 21 27 27 27 27 x")
        ≡ refused 13 COLUMN_COUNT 0 }
    ensures other_count { text_header (text_of (with_more (codes " 27 27") (codes " x") (codes " 0 0")))
        ≡ refused 14 COLUMN_COUNT 0 }
    ensures other_count_again { text_header (text_of (with_more [] [] (codes " x")))
        ≡ refused 15 COLUMN_COUNT 0 }
    ensures bad_word { header_with 13 (codes "3 9 9 15 15 15 15 15 15 15 21 27 x")
        ≡ refused 13 HEADER_NUMBER 1 }
    ensures many_coefficients { header_with 14 (codes "33 0 2 0 0 0 0 0 0 2 2 0 0")
        ≡ refused 15 COEFFICIENT_COUNT 0 }
    ensures past_the_block { header_with 13 (codes "3 9 9 15 15 15 15 15 15 15 22 27 27")
        ≡ refused 15 COLUMN_PLACE 0 }
    ensures overlap { header_with 13 (codes "3 9 8 15 15 15 15 15 15 15 21 27 27")
        ≡ refused 15 COLUMN_PLACE 0 }
    ensures part_of_a_second { text_header (text_of half_seconds) ≡ refused 15 GRANULE_NOT_WHOLE 0 }
    ensures ended { text_header (text_of (take 15 rows)) ≡ refused 16 ENDED 0 }
    ensures too_long { text_header (text_of (take 15 rows) ++ replicate 4097 blank)
        ≡ refused 16 LINE_TOO_LONG 0 }
{}
