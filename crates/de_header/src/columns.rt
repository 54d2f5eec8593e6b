// The rules of the three rows of columns, and of the columns that they make.
ghost use Rattle.std.specs.Prelude.{◌≡◌, ◌<◌, ◌≤◌, [], IfOk, Ok, length, take};
ghost use Rattle.spec_ephemeris.specs.declared.limits.TheConstants.{MAX_COLUMNS};
ghost use Rattle.spec_files.specs.ColumnRules.{column_rule, columns_of, columns_rule, columns_row, first_row, is_column_count, is_out_of_place, overlap, overlaps_any, row_of, whole_numbers};
ghost use Rattle.de_header.specs.Rows.{first_of, if_met};

use de_text::Line;
use eph_model::{is_present, place_after_column};
use spec_ephemeris::{Column, FIRST_PLACE, MAX_COEFFICIENTS, MAX_COLUMNS, READ_COLUMNS};
use spec_faults::{
    COEFFICIENT_COUNT, COLUMN_COUNT, COLUMN_PLACE, GRANULE_NOT_WHOLE, HEADER_NUMBER,
};
use spec_files::{BrokenRule, Facts};

// Reads the whole numbers of a line of at most 15 words into the front of an array, with zeros after them. Errors:
// the rule that the first word breaks that is no whole number.
fn read_whole_numbers(line: &Line<'_>) -> Result<[u32; MAX_COLUMNS], BrokenRule>
    requires few { length line.now.tokens ≤ MAX_COLUMNS }
    ensures { first_of (length line.now.tokens) result ≡ whole_numbers [] line.now.tokens }
{
    let mut numbers = [0; MAX_COLUMNS];
    for i in 0..line.count() {
        match line.whole_number_at(i) {
            Some(n) => numbers[i] = n,
            None => return Err(BrokenRule::new(HEADER_NUMBER, 1)),
        }
    }
    Ok(numbers)
}

// Tells whether a header may have this many columns: at least the 13 that are read, and at most 15.
fn is_column_count(count: usize) -> bool
    ensures { result ≡ is_column_count count }
{
    READ_COLUMNS <= count && count <= MAX_COLUMNS
}

// Reads the row of the columns' starts, whose length is the count of columns. Errors: first the rule that is broken
// by another count than 13 to 15, then that of a word that is no whole number.
pub(crate) fn read_first_row(line: &Line<'_>) -> Result<[u32; MAX_COLUMNS], BrokenRule>
    ensures row { first_of (length line.now.tokens) result ≡ first_row line.now.tokens }
    ensures few { IfOk result (λ _. length line.now.tokens ≤ MAX_COLUMNS) }
{
    if !is_column_count(line.count()) {
        return Err(BrokenRule::new(COLUMN_COUNT, 0));
    }
    read_whole_numbers(line)
}

// Reads a row after the first, with one whole number for each of `count` columns. Errors: first the rule that is
// broken by any other count, then that of a word that is no whole number.
pub(crate) fn read_later_row(
    count: usize,
    line: &Line<'_>,
) -> Result<[u32; MAX_COLUMNS], BrokenRule>
    requires few { count ≤ MAX_COLUMNS }
    ensures { first_of count result ≡ row_of count line.now.tokens }
{
    if line.count() != count {
        return Err(BrokenRule::new(COLUMN_COUNT, 0));
    }
    read_whole_numbers(line)
}

// Joins the first `count` numbers of three rows, each column's start, count of coefficients and count of granules,
// into columns. The places after them have columns without numbers.
fn join_columns(
    count: usize,
    starts: &[u32; MAX_COLUMNS],
    coefs: &[u32; MAX_COLUMNS],
    granules: &[u32; MAX_COLUMNS],
) -> [Column; MAX_COLUMNS]
    requires few { count ≤ MAX_COLUMNS }
    ensures { take count result
        ≡ columns_of (take count starts.now) (take count coefs.now) (take count granules.now) }
{
    let mut columns = [Column {
        start: 0,
        coefs: 0,
        granules: 0,
    }; MAX_COLUMNS];
    for i in 0..count {
        columns[i] = Column {
            start: starts[i],
            coefs: coefs[i],
            granules: granules[i],
        };
    }
    columns
}

// Tells whether two columns, each with its number counted from 1, share a place of a block.
fn columns_overlap(i: usize, column: Column, j: usize, other: Column) -> bool
    ensures { result ≡ overlap i column j other }
{
    u128::from(column.start) < place_after_column(j, other)
        && u128::from(other.start) < place_after_column(i, column)
}

// Tells whether column `i` shares a place of a block with one of the earlier columns, which are counted from 1.
// Columns without numbers are passed over.
fn overlaps_earlier_column(i: usize, column: Column, earlier: &[Column]) -> bool
    requires { length earlier.now < MAX_COLUMNS }
    ensures { result ≡ overlaps_any i column 1 earlier.now }
{
    for (k, other) in earlier.iter().enumerate() {
        if is_present(*other) && columns_overlap(i, column, k + 1, *other) {
            return true;
        }
    }
    false
}

// Tells whether column `i` breaks the rule of places: it starts among the dates of a block, ends past its last
// number, or shares a place with an earlier column.
fn is_column_out_of_place(ncoeff: u32, earlier: &[Column], i: usize, column: Column) -> bool
    requires { length earlier.now < MAX_COLUMNS }
    ensures { result ≡ is_out_of_place ncoeff earlier.now i column }
{
    column.start < FIRST_PLACE
        || u128::from(ncoeff) + 1 < place_after_column(i, column)
        || overlaps_earlier_column(i, column, earlier)
}

// Checks a column that comes after these earlier ones: its count of coefficients, its place, and that its granules
// share a block of this many seconds evenly. Errors: the first rule that it breaks, in this order. A column past
// those that are read, or without numbers, breaks none.
fn check_column(
    ncoeff: u32,
    seconds: u32,
    earlier: &[Column],
    column: Column,
) -> Result<(), BrokenRule>
    requires { length earlier.now < MAX_COLUMNS }
    ensures { result ≡ column_rule ncoeff seconds earlier.now column }
{
    if READ_COLUMNS <= earlier.len() || !is_present(column) {
        Ok(())
    } else if column.coefs > MAX_COEFFICIENTS {
        Err(BrokenRule::new(COEFFICIENT_COUNT, 0))
    } else if is_column_out_of_place(ncoeff, earlier, earlier.len() + 1, column) {
        Err(BrokenRule::new(COLUMN_PLACE, 0))
    } else if seconds % column.granules == 0 {
        Ok(())
    } else {
        Err(BrokenRule::new(GRANULE_NOT_WHOLE, 0))
    }
}

// Checks all columns of a header in their order, for blocks of `ncoeff` numbers and this many seconds. Errors: the
// first rule that the first faulty column breaks.
fn check_columns(ncoeff: u32, seconds: u32, columns: &[Column]) -> Result<(), BrokenRule>
    requires { length columns.now ≤ MAX_COLUMNS }
    ensures { if_met columns.now result ≡ columns_rule ncoeff seconds [] columns.now }
{
    for i in 0..columns.len() {
        check_column(ncoeff, seconds, &columns[..i], columns[i])?;
    }
    Ok(())
}

// Reads the row of the granules of `count` columns, and joins it with the rows of starts and coefficients into the
// columns. Errors: the first rule that the row breaks, then the first that a column breaks.
pub(crate) fn read_columns(
    facts: Facts,
    count: usize,
    starts: &[u32; MAX_COLUMNS],
    coefs: &[u32; MAX_COLUMNS],
    line: &Line<'_>,
) -> Result<[Column; MAX_COLUMNS], BrokenRule>
    requires few { count ≤ MAX_COLUMNS }
    ensures { first_of count result
        ≡ columns_row facts.ncoeff facts.block_seconds (take count starts.now)
        (take count coefs.now) line.now.tokens }
{
    let granules = read_later_row(count, line)?;
    let columns = join_columns(count, starts, coefs, &granules);
    check_columns(facts.ncoeff, facts.block_seconds, &columns[..count])?;
    Ok(columns)
}
