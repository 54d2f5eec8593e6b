// Worked values of times, and of words for them. The calls do nothing when they run.
ghost use Rattle.std.specs.Prelude.{◌≡◌, codes, neg_ℤ, pos, Err, Ok};
ghost use Rattle.spec_ephemeris.specs.declared.limits.TheConstants.{FIRST_TIME, LAST_TIME};
ghost use Rattle.spec_times.specs.Calendar.{time_text};
ghost use Rattle.spec_times.specs.TimeWords.{time_of};
ghost use Rattle.spec_times.specs.Ticks.{tick_of, tick_text};
ghost use Rattle.spec_times.specs.declared.faults.TimeFault.TheVariants.{NotTime, OutOfRange};

/// Works out the calendar texts of four times in seconds of TDB since J2000: of J2000 itself, which is noon of
/// 2000-01-01, of the end of a leap day, and of the first and the last time. A year below 0 has a sign and six digits.
pub fn times_have_texts()
    ensures j2000 { time_text (pos 0) ≡ codes "2000-01-01T12:00:00" }
    ensures leap_day { time_text (pos 5140799) ≡ codes "2000-02-29T23:59:59" }
    ensures first { time_text FIRST_TIME ≡ codes "-004713-11-24T12:00:00" }
    ensures last { time_text LAST_TIME ≡ codes "8977-06-07T12:00:00" }
{}

/// Works out which words are read as times in whole seconds since J2000. Leading zeros and a minus sign are taken; a
/// plus sign and a 13th digit are refused, and a time after the last one is out of range.
#[tactic(none)]
pub fn whole_numbers_are_times()
    ensures minus { time_of (codes "-1") ≡ Ok (neg_ℤ (pos 1)) }
    ensures zeros { time_of (codes "00") ≡ Ok (pos 0) }
    ensures first { time_of (codes "-211813488000") ≡ Ok FIRST_TIME }
    ensures too_late { time_of (codes "220186512001") ≡ Err OutOfRange }
    ensures plus { time_of (codes "+1") ≡ Err NotTime }
    ensures too_long { time_of (codes "1000000000000") ≡ Err NotTime }
{}

/// Works out calendar texts that stand for no time. 1900-02-29, the year -0, the hour 24 and a year below 0 with four
/// digits are no times; the year -999999 is a date, but out of range.
#[tactic(none)]
pub fn words_with_impossible_dates_are_refused()
    ensures no_leap_day { time_of (codes "1900-02-29T00:00:00") ≡ Err NotTime }
    ensures minus_zero { time_of (codes "-000000-01-01T00:00:00") ≡ Err NotTime }
    ensures far { time_of (codes "-999999-01-01T00:00:00") ≡ Err OutOfRange }
    ensures hour { time_of (codes "2000-01-01T24:00:00") ≡ Err NotTime }
    ensures few_digits { time_of (codes "-0004-02-29T00:00:00") ≡ Err NotTime }
{}

/// Works out the calendar texts of times in milliseconds since J2000: of 1, -1 and 0. Such texts always end in a point
/// and three digits.
pub fn milliseconds_have_texts()
    ensures after_j2000 { tick_text 1_000 (pos 1) ≡ codes "2000-01-01T12:00:00.001" }
    ensures before_j2000 { tick_text 1_000 (neg_ℤ (pos 1)) ≡ codes "2000-01-01T11:59:59.999" }
    ensures no_fraction { tick_text 1_000 (pos 0) ≡ codes "2000-01-01T12:00:00.000" }
{}

/// Works out which words are read as times if a second has 1,000 ticks. A whole number counts seconds, so `-5` is
/// -5,000; a calendar text may have a point and three digits. Two digits, a point after a number, and any fraction at
/// one tick a second are refused.
#[tactic(none)]
pub fn words_are_read_in_milliseconds()
    ensures whole_number { tick_of 1_000 (codes "-5") ≡ Ok (neg_ℤ (pos 5_000)) }
    ensures fraction { tick_of 1_000 (codes "2000-02-29T23:59:59.500") ≡ Ok (pos 5_140_799_500) }
    ensures no_fraction { tick_of 1_000 (codes "2000-02-29T23:59:59") ≡ Ok (pos 5_140_799_000) }
    ensures in_seconds { tick_of 1 (codes "2000-02-29T23:59:59.500") ≡ Err NotTime }
    ensures two_digits { tick_of 1_000 (codes "2000-02-29T23:59:59.50") ≡ Err NotTime }
    ensures after_a_number { tick_of 1_000 (codes "5.000") ≡ Err NotTime }
    ensures too_late { tick_of 1_000 (codes "8977-06-07T12:00:00.001") ≡ Err OutOfRange }
    ensures too_many_seconds { tick_of 1_000 (codes "220186512001") ≡ Err OutOfRange }
{}
