// Laws of times and their texts. Each is the contract of a function that does nothing.
ghost use Rattle.std.specs.Prelude.{◌≡◌, ◌≤ℤ◌, ◌⊎◌, List, Some, neg_ℤ, pos, ℕ, ℤ, Ok, true};
ghost use Rattle.jiff_core.specs.Calendar.{days_from_civil, IsCivilDate, IsEpochDay};
ghost use Rattle.spec_times.specs.Calendar.{calendar_text, calendar_time, day_of_month, is_calendar_time, month_of, time_of_calendar, time_text, year_of};
ghost use Rattle.spec_times.specs.declared.calendar.CalendarTime.{CalendarTime};
ghost use Rattle.spec_times.specs.TimeWords.{IsTime, time_of, time_within, whole_time};
ghost use Rattle.spec_times.specs.Ticks.{IsTimeIn, tick_of, tick_text};

/// States that each day from -9999-01-01 to 9999-12-31, numbered from 1970-01-01, has a date of the calendar from which
/// its number is found again, and that two dates with the same number are the same date.
pub fn days_have_one_date()
    ensures civil { (day : ℤ) → IsEpochDay day
        → IsCivilDate (year_of day) (month_of day) (day_of_month day) }
    ensures number { (day : ℤ) → IsEpochDay day
        → days_from_civil (year_of day) (month_of day) (day_of_month day) ≡ day }
    ensures one { (y : ℤ) (m d : ℕ) (other : ℤ) (month day : ℕ) → IsCivilDate y m d
        → IsCivilDate other month day → days_from_civil y m d ≡ days_from_civil other month day
        → (y ≡ other) × (m ≡ month) × (d ≡ day) }
{}

/// States that each time from Julian date 0 to 5,000,000, in seconds since J2000, has a date and time of day that the
/// calendar has and that stand for this time, and that its calendar text is read back as this time.
pub fn times_are_read_back()
    ensures calendar { (time : ℤ) → IsTime time → is_calendar_time (calendar_time time) ≡ true }
    ensures shown { (time : ℤ) → IsTime time → time_of_calendar (calendar_time time) ≡ time }
    ensures read { (time : ℤ) → IsTime time → time_of (time_text time) ≡ Ok time }
{}

/// States that the text of every date and time of day of the calendar, for years from -999,999 to 9,999, is read as its
/// time, or as out of range if that lies before the first or after the last time. It is never refused for its form.
pub fn calendar_texts_are_read()
    ensures { (c : CalendarTime) → is_calendar_time c ≡ true → neg_ℤ (pos 999_999) ≤ℤ c.year
        → c.year ≤ℤ pos 9_999 → time_of (calendar_text c) ≡ time_within c }
{}

/// States that a word that is read as a time in seconds has one of two forms: a whole number of seconds, or the
/// calendar text of that time, byte for byte.
pub fn times_are_read_from_two_forms()
    ensures { (word : List ℕ) (time : ℤ) → time_of word ≡ Ok time
        → (whole_time word ≡ Some time) ⊎ (word ≡ time_text time) }
{}

/// States that if a second has one tick, times in ticks have the texts of times in seconds, and words are read as the
/// same times.
pub fn seconds_are_ticks()
    ensures texts { (t : ℤ) → tick_text 1 t ≡ time_text t }
    ensures words { (word : List ℕ) → tick_of 1 word ≡ time_of word }
{}

/// States that the calendar text of each time in milliseconds since J2000, from Julian date 0 to 5,000,000, is read
/// back as that time.
pub fn milliseconds_are_read_back()
    ensures { (t : ℤ) → IsTimeIn 1_000 t → tick_of 1_000 (tick_text 1_000 t) ≡ Ok t }
{}
