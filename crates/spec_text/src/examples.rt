// Worked examples of the definitions of decimals, days, lines and tokens. The calls do nothing when they run.
ghost use Rattle.std.specs.Prelude.{◌≡◌, [], ◌∷◌, Err, None, Ok, Some, codes, neg_ℤ, pos};
ghost use Rattle.spec_text.specs.Days.{seconds_of_days, seconds_of_julian_date};
ghost use Rattle.spec_text.specs.Examples.{decimal};
ghost use Rattle.spec_text.specs.Lines.{lines, text_lines, tokens};
ghost use Rattle.spec_text.specs.Reading.{reading, whole_of};
ghost use Rattle.spec_text.specs.declared.days.DaysFault.TheVariants.{NotWholeSecond, OutOfRange};
ghost use Rattle.spec_text.specs.declared.decimals.NumberFault.TheVariants.{ExponentRange, NotNumber, TooManyDigits};

/// Works out words that are decimals, each as the exact number `mant * 10^exp`: JPL's form with the mark `D` and 18
/// digits, a point at the end or at the front, a sign, an exponent without a point, and a zero, which is always 0 and
/// 0.
pub fn decimals_are_read()
    ensures jpl { reading (codes "0.230542450000000000D+07")
        ≡ Ok (decimal (pos 230542450000000000) (neg_ℤ (pos 11))) }
    ensures point_at_the_end { reading (codes "32.") ≡ Ok (decimal (pos 32) (pos 0)) }
    ensures point_at_the_front { reading (codes ".5") ≡ Ok (decimal (pos 5) (neg_ℤ (pos 1))) }
    ensures below_zero { reading (codes "-.5") ≡ Ok (decimal (neg_ℤ (pos 5)) (neg_ℤ (pos 1))) }
    ensures no_point { reading (codes "1E+05") ≡ Ok (decimal (pos 1) (pos 5)) }
    ensures zero { reading (codes "-0.00e7") ≡ Ok (decimal (pos 0) (pos 0)) }
{}

/// Works out words that are no decimals, with the first fault that applies. `1000000000000000000` has 19 digits, one
/// too many; leading zeros do not count, so `0000000000000000001` is read as 1. An exponent past 99 in magnitude is
/// refused.
pub fn decimals_are_refused()
    ensures no_exponent { reading (codes "1d") ≡ Err NotNumber }
    ensures no_digit { reading (codes ".") ≡ Err NotNumber }
    ensures zeros_at_the_end { reading (codes "1000000000000000000") ≡ Err TooManyDigits }
    ensures zeros_at_the_front { reading (codes "0000000000000000001")
        ≡ Ok (decimal (pos 1) (pos 0)) }
    ensures far { reading (codes "0e-100") ≡ Err ExponentRange }
    ensures digits_before_exponent { reading (codes "1234567890123456789e100") ≡ Err TooManyDigits }
{}

/// Works out which words are read as whole numbers: those of 1 to 9 digits without a sign, as `007`. Leading zeros
/// count among the nine, so `0000000001` gives `None`.
pub fn whole_numbers_are_read()
    ensures zeros_at_the_front { whole_of (codes "007") ≡ Some 7 }
    ensures nine_digits { whole_of (codes "999999999") ≡ Some 999999999 }
    ensures ten_digits { whole_of (codes "0000000001") ≡ None }
    ensures no_digit { whole_of (codes "") ≡ None }
    ensures signed { whole_of (codes "+1") ≡ None }
{}

/// Works out the seconds from Julian date 0 to a date: date 1 is 86,400 and the last, 5,000,000, is 432,000,000,000.
/// Dates outside are out of range. -10^-6 is no whole second and too early, and only the first fault is reported.
/// `seconds_of_days` ignores the sign.
#[tactic(none)]
pub fn julian_dates_are_seconds()
    ensures day { seconds_of_julian_date (decimal (pos 1) (pos 0)) ≡ Ok 86400 }
    ensures last { seconds_of_julian_date (decimal (pos 5) (pos 6)) ≡ Ok 432000000000 }
    ensures half { seconds_of_julian_date (decimal (pos 5) (neg_ℤ (pos 1))) ≡ Ok 43200 }
    ensures too_late { seconds_of_julian_date (decimal (pos 5000001) (pos 0)) ≡ Err OutOfRange }
    ensures too_early { seconds_of_julian_date (decimal (neg_ℤ (pos 1)) (pos 0)) ≡ Err OutOfRange }
    ensures both { seconds_of_julian_date (decimal (neg_ℤ (pos 1)) (neg_ℤ (pos 6)))
        ≡ Err NotWholeSecond }
    ensures no_sign { seconds_of_days (decimal (neg_ℤ (pos 2)) (pos 0)) ≡ Some 172800 }
{}

/// Works out the lines of texts. A line ends at a line feed or with the text. One carriage return right before that end
/// belongs to the line end; any other stays in the line. The empty text has no line.
pub fn texts_are_cut_into_lines()
    ensures returns { lines (codes "one\r\ntwo\r") ≡ codes "one" ∷ codes "two" ∷ [] }
    ensures no_feed_at_the_end { lines (codes "one\n\ntwo") ≡ codes "one" ∷ [] ∷ codes "two" ∷ [] }
    ensures return_inside { lines (codes "a\rb\r\r\n") ≡ codes "a\rb\r" ∷ [] }
    ensures return_alone_at_the_end { lines (codes "a\n\r") ≡ codes "a" ∷ [] ∷ [] }
    ensures empty { lines [] ≡ [] }
{}

/// Works out the tokens of lines, which blanks and tabs separate. A line of blanks and tabs alone has no token: it
/// counts in the numbering of lines, here as lines 2 and 3, but is not read.
pub fn lines_are_cut_into_tokens()
    ensures separators { tokens (codes " \tEMRAT  81\tAU 1 ")
        ≡ codes "EMRAT" ∷ codes "81" ∷ codes "AU" ∷ codes "1" ∷ [] }
    ensures blank { tokens (codes " \t ") ≡ [] }
    ensures numbers { text_lines (codes "one\n \t\n\n2 3\n")
        ≡ record { number = 1; bytes = codes "one" }
        ∷ record { number = 4; bytes = codes "2 3" } ∷ [] }
{}
