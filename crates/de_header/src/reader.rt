// The reader of a header: each line takes it from one state to the next.
ghost use Rattle.std.specs.Prelude.{◌≡◌, [], ◌+◌, ◌≤◌, ◌<◌, IfOk, List, None, Err, Ok, ℕ, length, min, take};
ghost use Rattle.spec_text.specs.declared.decimals.Fault.{Fault};
ghost use Rattle.spec_ephemeris.specs.declared.limits.TheConstants.{MAX_COLUMNS};
ghost use Rattle.spec_files.specs.declared.limits.TheConstants.{MAX_CONSTANTS};
ghost use Rattle.spec_ephemeris.specs.Header.{IsHeader};
ghost use Rattle.spec_files.specs.HeaderLines.{header, header_of};
ghost use Rattle.spec_files.specs.HeaderRules.{emrat_from};
ghost use Rattle.spec_files.specs.Sections.{FileLine};
ghost use Rattle.de_header.specs.declared.state.State.TheVariants as states;
ghost use Rattle.spec_files.specs.declared.errors.ReadError.TheVariants as errors;
ghost use Rattle.de_header.specs.declared.answers.Step.TheVariants as steps;
ghost use Rattle.de_header.specs.Reader.{Ends, Fits, GivesAgain, HasRead, IsAfterNames, IsAfterValues, IsAt, IsNotDone, IsNotWhole, IsOpen, IsRefused, IsWhole, KeepsFault, Moves, answer, from_more_names, from_more_values, or_else, says};

use crate::answers::{HeaderError, Step};
use crate::columns::{read_columns, read_first_row, read_later_row};
use crate::state::State;
use crate::words::{
    check_group, find_emrat, read_block_length, read_emrat_place, read_mass_ratio, read_name_count,
    read_ncoeff, starts_with_group,
};
use de_text::Line;
use spec_ephemeris::{Column, Columns, Header, MAX_COLUMNS};
use spec_faults::ENDED;
use spec_files::{BlockShape, BrokenRule, Facts};
use spec_text::Fault;
use std::alloc::Global;
use std::marker::Model;

// Returns how many of `left` words that are still to come stand on this line: all of its words, but no more than
// `left`.
fn words_on_line(left: u32, line: &Line<'_>) -> u32
    ensures { result ≡ min left (length line.now.tokens) }
{
    (left as usize).min(line.count()) as u32
}

// Returns the place of the name `EMRAT` among all names, counted from 0. It is `found` if it was found before; else
// it is looked for among the first `n` words of this line, which are counted from `start`. None if it was not found
// yet.
fn emrat_place(found: Option<u32>, line: &Line<'_>, n: u32, start: u32) -> Option<u32>
    requires few { start + n ≤ MAX_CONSTANTS }
    requires there { n ≤ length line.now.tokens }
    ensures { result ≡ or_else found (emrat_from start (take n line.now.tokens)) }
{
    match found {
        Some(place) => Some(place),
        None => find_emrat(line, n, start),
    }
}

// Returns the state in which `passed` names were read and `left` are still to come. If none is left, it is the state
// before the values.
#[tactic(auto, unfolding(crate::specs::Reader::says), using(crate::proofs::Steps::no_names_left))]
fn state_before_names(
    shape: BlockShape,
    count: u32,
    left: u32,
    passed: u32,
    emrat: Option<u32>,
) -> State
    requires few { passed + left ≤ MAX_CONSTANTS }
    requires count { count ≤ MAX_CONSTANTS }
    ensures place { IsAt result (from_more_names shape count left passed emrat) }
    ensures fits { Fits result }
{
    if left == 0 {
        State::ValueGroup {
            shape,
            count,
            emrat,
        }
    } else {
        State::Names {
            shape,
            count,
            left,
            passed,
            emrat,
        }
    }
}

// Returns the state after a line of names, of which `passed` were read before and `left` were still to come. The name
// `EMRAT` may stand on the line.
fn pass_names(
    shape: BlockShape,
    count: u32,
    left: u32,
    passed: u32,
    emrat: Option<u32>,
    line: &Line<'_>,
) -> State
    requires { Fits (states.Names shape count left passed emrat) }
    ensures moves { Moves (states.Names shape count left passed emrat) line.now (Ok result) }
    ensures fits { Fits result }
{
    let here = words_on_line(left, line);
    let emrat = emrat_place(emrat, line, here, passed);
    state_before_names(shape, count, left - here, passed + here, emrat)
}

// Returns the state in which `left` values after that of `EMRAT` are still to come. If none is left, it is the state
// before the columns.
#[tactic(auto, unfolding(crate::specs::Reader::says), using(crate::proofs::Steps::no_values_left))]
fn state_before_values(facts: Facts, left: u32) -> State
    requires { left ≤ MAX_CONSTANTS }
    ensures place { IsAt result (from_more_values facts left) }
    ensures fits { Fits result }
{
    if left == 0 {
        State::ColumnGroup { facts }
    } else {
        State::ValuesAfter { facts, left }
    }
}

// Returns the state after a line of values, of which `left` are still to come, `before` of them before that of
// `EMRAT`. If the line has that value, it is read. Errors: the rule that is broken by a mass ratio that is no decimal
// or is out of range.
fn pass_values(
    shape: BlockShape,
    left: u32,
    before: u32,
    line: &Line<'_>,
) -> Result<State, BrokenRule>
    requires { left ≤ MAX_CONSTANTS }
    ensures moves { Moves (states.ValuesBefore shape left before) line.now result }
    ensures fits { IfOk result Fits }
{
    let here = words_on_line(left, line);
    if here <= before {
        return Ok(State::ValuesBefore {
            shape,
            left: left - here,
            before: before - here,
        });
    }
    match read_mass_ratio(line, before) {
        Err(broken) => Err(broken),
        Ok(emrat) => {
            let facts = Facts {
                ncoeff: shape.ncoeff,
                block_seconds: shape.block_seconds,
                emrat,
            };
            Ok(state_before_values(facts, left - here))
        }
    }
}

// Returns the state after a line of values that follow that of `EMRAT`. They are counted, and not read.
fn pass_more_values(facts: Facts, left: u32, line: &Line<'_>) -> State
    requires { Fits (states.ValuesAfter facts left) }
    ensures moves { Moves (states.ValuesAfter facts left) line.now (Ok result) }
    ensures fits { Fits result }
{
    let here = words_on_line(left, line);
    state_before_values(facts, left - here)
}

// Returns the state after the row of the columns' starts. Errors: the first rule that the row breaks.
#[tactic(auto, unfolding(crate::specs::Reader::says))]
fn pass_starts(facts: Facts, line: &Line<'_>) -> Result<State, BrokenRule>
    ensures moves { Moves (states.Starts facts) line.now result }
    ensures fits { IfOk result Fits }
{
    let starts = read_first_row(line)?;
    Ok(State::Coefficients {
        facts,
        count: line.count(),
        starts,
    })
}

// Returns the state after the row of the columns' counts of coefficients. Errors: the first rule that the row breaks.
#[tactic(auto, unfolding(crate::specs::Reader::says))]
fn pass_coefficients(
    facts: Facts,
    count: usize,
    starts: [u32; MAX_COLUMNS],
    line: &Line<'_>,
) -> Result<State, BrokenRule>
    requires { count ≤ MAX_COLUMNS }
    ensures moves { Moves (states.Coefficients facts count starts) line.now result }
    ensures fits { IfOk result Fits }
{
    let coefs = read_later_row(count, line)?;
    Ok(State::Granules {
        facts,
        count,
        starts,
        coefs,
    })
}

// Returns the state after the row of the columns' counts of granules, with which the columns are whole. Errors: the
// first rule that the row or a column breaks.
#[tactic(auto, unfolding(crate::specs::Reader::says))]
fn pass_granules(
    facts: Facts,
    count: usize,
    starts: [u32; MAX_COLUMNS],
    coefs: [u32; MAX_COLUMNS],
    line: &Line<'_>,
) -> Result<State, BrokenRule>
    requires { count ≤ MAX_COLUMNS }
    ensures moves { Moves (states.Granules facts count starts coefs) line.now result }
    ensures fits { IfOk result Fits }
{
    let columns = read_columns(facts, count, &starts, &coefs, line)?;
    Ok(State::EndGroup {
        facts,
        count,
        columns,
    })
}

// Returns the state after a line of the table of columns, whose states are apart from the earlier ones so that no
// function has too many of them. Errors: the first rule that the line breaks.
#[tactic(auto, unfolding(crate::specs::Reader::says))]
fn step_after_values(state: State, line: &Line<'_>) -> Result<State, BrokenRule>
    requires open { IsOpen state }
    requires after { IsAfterValues state }
    requires fits { Fits state }
    ensures moves { Moves state line.now result }
    ensures fits { IfOk result Fits }
{
    match state {
        State::ColumnGroup { facts } => {
            check_group(b"1050", 1050, line)?;
            Ok(State::Starts { facts })
        }
        State::Starts { facts } => pass_starts(facts, line),
        State::Coefficients {
            facts,
            count,
            starts,
        } => pass_coefficients(facts, count, starts, line),
        State::Granules {
            facts,
            count,
            starts,
            coefs,
        } => pass_granules(facts, count, starts, coefs, line),
        State::EndGroup {
            facts,
            count,
            columns,
        } => {
            check_group(b"1070", 1070, line)?;
            Ok(State::Whole {
                facts,
                count,
                columns,
            })
        }
        state => Ok(state),
    }
}

// Returns the state after a line that comes after the names: of values, or of the table of columns. Errors: the first
// rule that the line breaks.
#[tactic(auto, unfolding(crate::specs::Reader::says))]
fn step_after_names(state: State, line: &Line<'_>) -> Result<State, BrokenRule>
    requires open { IsOpen state }
    requires after { IsAfterNames state }
    requires fits { Fits state }
    ensures moves { Moves state line.now result }
    ensures fits { IfOk result Fits }
{
    match state {
        State::ValueGroup {
            shape,
            count,
            emrat,
        } => {
            check_group(b"1041", 1041, line)?;
            Ok(State::ValueCount {
                shape,
                count,
                emrat,
            })
        }
        State::ValueCount {
            shape,
            count,
            emrat,
        } => {
            let before = read_emrat_place(count, emrat, line)?;
            Ok(State::ValuesBefore {
                shape,
                left: count,
                before,
            })
        }
        State::ValuesBefore {
            shape,
            left,
            before,
        } => pass_values(shape, left, before, line),
        State::ValuesAfter { facts, left } => Ok(pass_more_values(facts, left, line)),
        state => step_after_values(state, line),
    }
}

// Returns the state after a line of titles, or after the line that ends them, whose first word is `GROUP`. Errors:
// the rule that such a line breaks if it is not `GROUP 1030`.
#[tactic(auto, unfolding(crate::specs::Reader::says))]
fn pass_title(ncoeff: u32, line: &Line<'_>) -> Result<State, BrokenRule>
    ensures moves { Moves (states.Titles ncoeff) line.now result }
    ensures fits { IfOk result Fits }
{
    if starts_with_group(line) {
        check_group(b"1030", 1030, line)?;
        Ok(State::Span { ncoeff })
    } else {
        Ok(State::Titles { ncoeff })
    }
}

// Returns the state after a line, in any state that wants one: no header is whole, and no rule was broken. Errors:
// the first rule that the line breaks.
#[tactic(auto, unfolding(crate::specs::Reader::says))]
fn step_open_state(state: State, line: &Line<'_>) -> Result<State, BrokenRule>
    requires open { IsOpen state }
    requires fits { Fits state }
    ensures moves { Moves state line.now result }
    ensures fits { IfOk result Fits }
{
    match state {
        State::First => {
            let ncoeff = read_ncoeff(line)?;
            Ok(State::TitleGroup { ncoeff })
        }
        State::TitleGroup { ncoeff } => {
            check_group(b"1010", 1010, line)?;
            Ok(State::Titles { ncoeff })
        }
        State::Titles { ncoeff } => pass_title(ncoeff, line),
        State::Span { ncoeff } => {
            let block_seconds = read_block_length(line)?;
            let shape = BlockShape {
                ncoeff,
                block_seconds,
            };
            Ok(State::NameGroup { shape })
        }
        State::NameGroup { shape } => {
            check_group(b"1040", 1040, line)?;
            Ok(State::NameCount { shape })
        }
        State::NameCount { shape } => {
            let count = read_name_count(line)?;
            Ok(state_before_names(shape, count, count, 0, None))
        }
        State::Names {
            shape,
            count,
            left,
            passed,
            emrat,
        } => Ok(pass_names(shape, count, left, passed, emrat, line)),
        state => step_after_names(state, line),
    }
}

// Returns the state after a line, in any state but that of a whole header. A line that breaks a rule gives a state
// that keeps its fault, and a fault that was met before stays.
#[tactic(auto, unfolding(crate::specs::Reader::says))]
fn next_state(state: State, line: &Line<'_>) -> State
    requires open { IsNotWhole state }
    requires fits { Fits state }
    ensures says { HasRead state line.now result }
    ensures kept { (fault : Fault) → IsRefused state fault → IsRefused result fault }
    ensures fits { Fits result }
{
    if let State::Refused(fault) = state {
        return State::Refused(fault);
    }
    match step_open_state(state, line) {
        Ok(state) => state,
        Err(broken) => State::Refused(broken.at_line(line.number())),
    }
}

// Returns what the reader answers in this state: that it wants more lines, that its header is whole, or the fault
// that it met.
#[tactic(auto, unfolding(crate::specs::Reader::says))]
fn answer_of_state(state: State) -> Result<Step, HeaderError>
    requires { Fits state }
    ensures answer { result ≡ answer (says 0 state []) }
    ensures more { result ≡ Ok steps.More → IsOpen state }
    ensures not_done { IsNotDone result → IsNotWhole state }
    ensures done { result ≡ Ok steps.Done → IsWhole state }
    ensures refused { KeepsFault state result }
    ensures kept { (fault : Fault) → IsRefused state fault → result ≡ Err (errors.Fault fault) }
{
    match state {
        State::Whole { .. } => Ok(Step::Done),
        State::Refused(fault) => Err(HeaderError::Fault(fault)),
        _ => Ok(Step::More),
    }
}

// Makes the header of these facts and the first `count` columns, which it copies into a vector. The only error is out
// of memory.
fn header_of_columns(
    alloc: Global,
    facts: Facts,
    count: usize,
    columns: [Column; MAX_COLUMNS],
) -> Result<Header, HeaderError>
    ensures { (end : ℕ) → Ends end (Ok (header_of facts (take count columns), [])) result }
{
    let mut list = Vec::from_array(alloc, columns)?;
    list.truncate(count);
    Ok(Header {
        ncoeff: facts.ncoeff,
        block_seconds: i64::from(facts.block_seconds),
        emrat: facts.emrat,
        columns: Columns::new(list),
    })
}

// Returns the header that a state has read when the lines end. Errors: the fault that was met, or that a header is
// not whole, at this line; or out of memory.
#[tactic(auto, unfolding(crate::specs::Reader::says))]
fn header_at_end(alloc: Global, state: State, line: u32) -> Result<Header, HeaderError>
    ensures end { Ends line (says 0 state []) result }
    ensures memory { result ≡ Err errors.Memory → IsWhole state }
{
    match state {
        State::Whole {
            facts,
            count,
            columns,
        } => header_of_columns(alloc, facts, count, columns),
        State::Refused(fault) => Err(HeaderError::Fault(fault)),
        _ => Err(HeaderError::Fault(BrokenRule::new(ENDED, 0).at_line(line))),
    }
}

/// A reader of the header of a file, or of several files one after the other.
#[derive(Drop)]
pub struct HeaderReader {
    state: State,
}

impl Model for HeaderReader {
    ghost use Rattle.de_header.specs.declared.state.State.{State};
    ghost use Rattle.de_header.specs.Reader.{Fits};

    ghost Value = { State };

    ghost view = { λ r. r.state };

    ghost invariant = { λ r. Fits r.state };
}

impl HeaderReader {
    /// Makes a reader that waits for the first line of a header.
    pub fn new() -> Self
        ensures header { IsAt result header }
        ensures open { IsOpen result × IsNotWhole result }
    {
        HeaderReader {
            state: State::First,
        }
    }

    /// Reads the next line. Returns `Done` at the line that ends the header, and `More` before it. Errors: `Fault` at
    /// the first line that breaks a rule, and at every line after it. A line does not allocate, so that `Memory`
    /// never comes here.
    pub fn line(&mut self, line: &Line<'_>) -> Result<Step, HeaderError>
        requires { IsNotWhole self.old }
        ensures says { HasRead self.old line.now self.new }
        ensures answer { result ≡ answer (says 0 self.new []) }
        ensures more { result ≡ Ok steps.More → IsOpen self.new }
        ensures not_done { IsNotDone result → IsNotWhole self.new }
        ensures done { result ≡ Ok steps.Done → IsWhole self.new }
        ensures refused { KeepsFault self.new result }
        ensures kept { GivesAgain self.old self.new result }
        ensures no_memory_is_wanted { result ≡ Err errors.Memory → ⊥ }
    {
        self.state = next_state(self.state, line);
        answer_of_state(self.state)
    }

    /// Ends the reading and returns the header. `line` is one more than the number of the last line of the last file.
    /// Errors: the fault that was met before; or, if the header is not whole, fault 22 at `line`, that the text has
    /// ended; or out of memory. The clause `rules` says when the header meets the rules: if the reader was made by
    /// `new` and was given these lines.
    pub fn end(self, alloc: Global, line: u32) -> Result<Header, HeaderError>
        ensures end { Ends line (says 0 self []) result }
        ensures memory { result ≡ Err errors.Memory → IsWhole self }
        ensures rules { (lines : List FileLine) → says 0 self [] ≡ header lines
            → IfOk result IsHeader }
    {
        header_at_end(alloc, self.state, line)
    }
}
