// The rules of the words of blocks.
ghost use Rattle.std.specs.Prelude.{◌≡◌, ◌≤◌, ◌<◌, ◌+◌, ◌*◌, [], ◌∷◌, IfOk, Ok, length};
ghost use Rattle.spec_ephemeris.specs.declared.limits.TheConstants.{MAX_COLUMNS};
ghost use Rattle.spec_ephemeris.specs.Ephemeris.{IsStart};
ghost use Rattle.spec_ephemeris.specs.Header.{IsColumnCount};
ghost use Rattle.spec_text.specs.Reading.{reading};
ghost use Rattle.spec_text.specs.declared.decimals.Decimal.{Decimal};
ghost use Rattle.eph_model.specs.Stores.{IsRounded};
ghost use Rattle.de_blocks.specs.Dates.{AreDates, met};
ghost use Rattle.spec_files.specs.BlockRules.{coefficient_rule, first_date, follows, has_length, is_after_gap, is_skipped, is_place, is_place_of, is_place_of_body, is_too_large, number_by, record_line, second_date, time_of, trailing_rule};

use crate::dates::Dates;
use de_text::{Line, read_decimal, seconds_of_julian_date};
use eph_model::{BlockStore, Rounded, is_present, place_after_column};
use spec_ephemeris::{BODY_COLUMNS, Column, FIRST_TIME, MAX_BLOCKS};
use spec_faults::{
    BLOCK_GAP, BLOCK_SPAN, NCOEFF_DIFFERS, NUMBER, RECORD_LINE, TOO_LARGE, TOO_MANY_BLOCKS,
    TRAILING_NUMBERS,
};
use spec_files::BrokenRule;
use spec_text::Decimal;

// Checks the record line, which stands before a block's numbers: two whole numbers, the second of which is NCOEFF.
// Errors: the rule that any other line breaks.
pub(crate) fn check_record_line(ncoeff: u32, line: &Line<'_>) -> Result<(), BrokenRule>
    ensures { result ≡ record_line ncoeff line.now.tokens }
{
    if line.count() != 2 {
        return Err(BrokenRule::new(RECORD_LINE, 0));
    }
    match (line.whole_number_at(0), line.whole_number_at(1)) {
        (Some(_), Some(n)) if n == ncoeff => Ok(()),
        (Some(_), Some(_)) => Err(BrokenRule::new(NCOEFF_DIFFERS, 0)),
        _ => Err(BrokenRule::new(RECORD_LINE, 0)),
    }
}

// Returns the time of a Julian date, in seconds of TDB since J2000. Errors: the rule that is broken by a date within
// a second, or out of range.
#[tactic(auto, using(crate::proofs::Times::time_is_start))]
pub(crate) fn time_of_date(date: Decimal) -> Result<i64, BrokenRule>
    ensures value { result ≡ time_of date }
    ensures start { IfOk result IsStart }
{
    match seconds_of_julian_date(date) {
        Ok(seconds) => Ok(FIRST_TIME + seconds as i64),
        Err(_) => Err(BrokenRule::new(BLOCK_SPAN, 0)),
    }
}

// Tells whether a block that ends at this time is skipped: it ends no later than the last block before it. Files that
// follow one another overlap by such blocks.
pub(crate) fn is_block_skipped(before: &BlockStore, end: i64) -> bool
    ensures { result ≡ is_skipped before.now.accepted end }
{
    0 < before.blocks() && end <= before.end()
}

// Tells whether a block starts at another time than the last block before it ends. The first block, with none before
// it, does not.
fn starts_after_gap(before: &BlockStore, start: i64) -> bool
    ensures { result ≡ is_after_gap before.now.accepted start }
{
    0 < before.blocks() && (start < before.end() || before.end() < start)
}

// Checks that a block with these times, in seconds of TDB since J2000, may come after the blocks before it. Errors:
// the rule of gaps first, then that of too many blocks. A block that is skipped breaks neither.
fn check_succession(before: &BlockStore, start: i64, end: i64) -> Result<(), BrokenRule>
    ensures { result ≡ follows before.now.accepted start end }
{
    if is_block_skipped(before, end) {
        Ok(())
    } else if starts_after_gap(before, start) {
        Err(BrokenRule::new(BLOCK_GAP, 0))
    } else if before.blocks() < MAX_BLOCKS {
        Ok(())
    } else {
        Err(BrokenRule::new(TOO_MANY_BLOCKS, 0))
    }
}

// Tells whether a block with these times has the length in seconds that the header says.
fn has_header_length(length: i64, start: i64, end: i64) -> bool
    requires start { IsStart start }
    requires end { IsStart end }
    ensures { result ≡ has_length length start end }
{
    length <= end - start && end - start <= length
}

// Returns the dates of a block that has its first number alone, the Julian date at which it starts. Its end is not
// known yet, and is set to the start. Errors: the rule that the date breaks.
pub(crate) fn read_first_date(date: Decimal) -> Result<Dates, BrokenRule>
    ensures rule { met result ≡ first_date date }
    ensures dates { IfOk result (λ dates. AreDates (date ∷ []) dates) }
{
    let start = time_of_date(date)?;
    Ok(Dates { start, end: start })
}

// Returns the dates of a block that starts at this time and ends at this Julian date. Errors: the rule that is broken
// by the date, by a length other than the header's, or by a block that cannot come next.
pub(crate) fn read_second_date(
    before: &BlockStore,
    start: i64,
    date: Decimal,
) -> Result<Dates, BrokenRule>
    requires { IsStart start }
    ensures rule { (first : Decimal) → time_of first ≡ Ok start
        → met result ≡ second_date before.now.accepted first date }
    ensures dates { (first : Decimal) → time_of first ≡ Ok start
        → IfOk result (λ dates. AreDates (first ∷ date ∷ []) dates) }
{
    let end = time_of_date(date)?;
    if has_header_length(before.header().block_seconds, start, end) {
        check_succession(before, start, end)?;
        Ok(Dates { start, end })
    } else {
        Err(BrokenRule::new(BLOCK_SPAN, 0))
    }
}

// Tells whether a place of a block, counted from 1, belongs to this column, which has this number.
fn is_place_of_column(number: usize, column: Column, place: u32) -> bool
    ensures { result ≡ is_place number column place }
{
    is_present(column)
        && column.start <= place
        && u128::from(place) < place_after_column(number, column)
}

// Tells whether a place of a block, counted from 1, belongs to one of these columns, of which the first is column 1.
fn is_place_of_any_column(columns: &[Column], place: u32) -> bool
    requires { length columns.now ≤ MAX_COLUMNS }
    ensures { result ≡ is_place_of 1 columns.now place }
{
    for (i, column) in columns.iter().enumerate() {
        if is_place_of_column(i + 1, *column, place) {
            return true;
        }
    }
    false
}

// Tells whether a place of a block, counted from 1, belongs to a column of a body, one of the first eleven.
fn is_place_of_body(columns: &[Column], place: u32) -> bool
    requires { IsColumnCount (length columns.now) }
    ensures { result ≡ is_place_of_body columns.now place }
{
    is_place_of_any_column(&columns[..BODY_COLUMNS], place)
}

// Tells whether a number of km is 2^36 or more in magnitude, which is known from its rounded pair: such a number has
// none.
#[tactic(auto, using(crate::proofs::Large::large_one, crate::proofs::Large::small_one))]
pub(crate) fn is_too_large_number(number: Decimal, rounded: Option<Rounded>) -> bool
    requires { IsRounded number rounded }
    ensures { result ≡ is_too_large number }
{
    match rounded {
        Some(_) => false,
        None => true,
    }
}

// Returns these dates if the rule is met, else the rule that is broken. It joins the check of a coefficient with the
// dates, which a coefficient does not change.
pub(crate) fn dates_if_rule_met(
    dates: Dates,
    ruled: Result<(), BrokenRule>,
) -> Result<Dates, BrokenRule>
    ensures rule { met result ≡ ruled }
    ensures dates { IfOk result (λ own. own ≡ dates) }
{
    match ruled {
        Ok(()) => Ok(dates),
        Err(broken) => Err(broken),
    }
}

// Checks a number at a place of a block, counted from 1, after its dates. `is_large` says that the number is 2^36 or
// more in magnitude. Errors: the rule that such a number breaks at a place of a body.
pub(crate) fn check_coefficient(
    columns: &[Column],
    place: u32,
    d: Decimal,
    is_large: bool,
) -> Result<(), BrokenRule>
    requires count { IsColumnCount (length columns.now) }
    requires size { is_large ≡ is_too_large d }
    ensures { result ≡ coefficient_rule columns.now place d }
{
    if is_large && is_place_of_body(columns, place) {
        Err(BrokenRule::new(TOO_LARGE, 0))
    } else {
        Ok(())
    }
}

// Reads a word as a decimal. Errors: the rule of numbers with the number of the word's fault, if it is no decimal.
pub(crate) fn read_number(word: &[u8]) -> Result<Decimal, BrokenRule>
    ensures { result ≡ number_by (reading word.now) }
{
    match read_decimal(word) {
        Ok(d) => Ok(d),
        Err(fault) => Err(BrokenRule::new(NUMBER, fault.number())),
    }
}

// Checks a word after the last number of a block: it has to be the number 0, with which a last line is filled up.
// Errors: the rule that any other word breaks.
pub(crate) fn check_trailing_word(word: &[u8]) -> Result<(), BrokenRule>
    ensures { result ≡ trailing_rule word.now }
{
    match read_decimal(word) {
        Ok(d) if d.mant == 0 => Ok(()),
        _ => Err(BrokenRule::new(TRAILING_NUMBERS, 0)),
    }
}
