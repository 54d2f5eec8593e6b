// Which columns are in use.
ghost use Rattle.std.specs.Prelude.{◌≡◌, ◌≤◌, take};
ghost use Rattle.spec_bodies.specs.Sources.{needed_columns, used, is_among, is_in_use, columns_in_use};

use spec_bodies::{MOON_COLUMN, Source};
use spec_ephemeris::BODY_COLUMNS;

/// The number of columns whose enclosures are kept: two bodies seen from the Earth are made of no more.
pub(crate) const KEPT_COLUMNS: usize = 4;

// Tells whether a body is made of the column with a number, which is counted from 1, among others or alone.
fn needs_column(source: Source, number: usize) -> bool
    ensures { result ≡ is_among (needed_columns source) number }
{
    source.needed_columns().contains(&number)
}

// Tells whether a column is needed for a target seen from an observer, because either is made of it. The Earth and the
// Moon seen from each other need the Moon's column alone, which holds the Moon seen from the Earth.
fn uses_column(target: Source, observer: Source, number: usize) -> bool
    ensures { result ≡ is_among (used target observer) number }
{
    match (target, observer) {
        (Source::MoonOfPair, Source::EarthOfPair) | (Source::EarthOfPair, Source::MoonOfPair) =>
            MOON_COLUMN == number,
        _ => needs_column(target, number) || needs_column(observer, number),
    }
}

// Tells whether the column with a number, counted from 1, is needed for either of two targets seen from an observer.
fn is_in_use(first: Source, second: Source, observer: Source, number: usize) -> bool
    ensures { result ≡ is_in_use first second observer number }
{
    uses_column(first, observer, number) || uses_column(second, observer, number)
}

/// The columns in use for two targets and an observer: the first `count` of `numbers`. Those behind mean nothing.
#[derive(Clone, Copy)]
pub(crate) struct InUse {
    pub numbers: [usize; BODY_COLUMNS],
    pub count: usize,
}

impl InUse {
    /// Returns the numbers of the columns needed for two targets seen from an observer, each once, in rising order.
    pub fn of(first: Source, second: Source, observer: Source) -> InUse
        ensures few { result.count ≤ 11 }
        ensures numbers { take result.count result.numbers ≡ columns_in_use first second observer }
    {
        let mut numbers = [1, 2, 3, 4, 5, 6, 7, 8, 9, 10, 11];
        let mut count = 0;
        for i in 0..numbers.len() {
            let number = numbers[i];
            if is_in_use(first, second, observer, number) {
                numbers[count] = number;
                count += 1;
            }
        }
        InUse { numbers, count }
    }
}
