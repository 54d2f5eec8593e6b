// A cursor over the lines of a text.
ghost use Rattle.std.specs.Prelude.{◌≡◌, ◌+◌, ◌<◌, ◌≤◌, IfNone, IfSome, length, slice_get};
ghost use Rattle.std.specs.Option.{option_copied};
ghost use Rattle.spec_text.specs.Lines.{lines, text_lines};
ghost use Rattle.spec_text.specs.Reading.{whole_at};
ghost use Rattle.de_text.specs.Cursor.{counted_after};
ghost use Rattle.de_text.specs.Steps.{lines_after, step_of};
ghost use Rattle.de_text.specs.Triples.{AreTriple};
ghost use Rattle.de_text.specs.declared.cursor.LineStep.TheVariants as steps;

use crate::decimal::read_whole;
use crate::fields::cut_triple;
use crate::lines::{cut_line, line_count};
use crate::tokens::{is_blank, token_at, token_count};
use crate::triple::Triple;
use crate::words::Words;
use spec_text::{MAX_LINE_BYTES, MAX_TEXT_BYTES};
use std::marker::Model;

/// A line that has tokens: what stands between its blanks and tabs.
#[derive(Drop)]
pub struct Line<'a> {
    number: u32,
    bytes: &'a [u8],
    triple: Option<Triple>,
}

impl<'a> Model for Line<'a> {
    ghost use Rattle.std.specs.Prelude.{◌<◌, IfSome, length};
    ghost use Rattle.spec_text.specs.Lines.{TokenLine, tokens};
    ghost use Rattle.de_text.specs.Triples.{AreTriple};

    ghost Value = { TokenLine };

    ghost view = { λ l. record { number = l.number; tokens = tokens l.bytes.now } };

    ghost invariant = { λ l. (0 < length (tokens l.bytes.now))
        × IfSome l.triple (λ t. AreTriple (tokens l.bytes.now) t) };
}

impl<'a> Line<'a> {
    /// Returns the line's number in its text, counted from 1. Blank lines count too.
    pub fn number(&self) -> u32
        ensures { result ≡ self.now.number }
    {
        self.number
    }

    /// Returns how many tokens the line has, at least one.
    pub fn count(&self) -> usize
        ensures count { result ≡ length self.now.tokens }
        ensures some { 0 < result }
    {
        token_count(self.bytes)
    }

    /// Returns the token at a place of the line, counted from 0. None if the place is the count of tokens or past it.
    pub fn token(&self, i: usize) -> Option<&[u8]>
        ensures { option_copied result ≡ slice_get self.now.tokens i }
    {
        token_at(self.bytes, i)
    }

    /// Returns the whole number that the token at a place is, counted from 0. None if no token stands there, or if it
    /// is not 1 to 9 digits.
    pub fn whole_number_at(&self, i: usize) -> Option<u32>
        ensures { result ≡ whole_at (slice_get self.now.tokens i) }
    {
        match self.token(i) {
            Some(word) => read_whole(word),
            None => None,
        }
    }

    /// Returns the line's three numbers, if they are its only tokens and `triple_line` read them. None for any other
    /// line; it says nothing of the tokens.
    #[inline(always)]
    pub fn triple(&self) -> Option<Triple>
        ensures { IfSome result (λ t. AreTriple self.now.tokens t) }
    {
        self.triple
    }

    /// Returns a copy of the line without the numbers that `triple_line` read with it. Rare paths take such a copy by
    /// reference, so that the line itself need not stand in memory.
    #[inline(always)]
    pub fn without_triple(&self) -> Line<'a>
        ensures { result ≡ self.now }
    {
        Line {
            number: self.number,
            bytes: self.bytes,
            triple: None,
        }
    }

    /// Returns a cursor over the line's tokens, from left to right.
    pub fn words(&self) -> Words<'a>
        ensures { result ≡ self.now.tokens }
    {
        Words { rest: self.bytes }
    }
}

/// What a cursor meets next.
#[derive(Drop)]
pub enum LineStep<'a> {
    /// The next line that is not blank.
    Line(Line<'a>),
    /// The next line, by its number, has more than 4,096 bytes without its line end.
    TooLong(u32),
    /// No line is left but blank ones.
    End,
}

/// A cursor over the lines of a text. It skips blank lines, and stays for good at a line that is too long.
#[derive(Drop)]
pub struct Tokens<'a> {
    rest: &'a [u8],
    passed: u32,
}

impl<'a> Model for Tokens<'a> {
    ghost use Rattle.std.specs.Prelude.{◌+◌, ◌≤◌, length};
    ghost use Rattle.spec_text.specs.Lines.{lines};
    ghost use Rattle.spec_text.specs.declared.limits.TheConstants.{MAX_TEXT_BYTES};
    ghost use Rattle.de_text.specs.Cursor.{Cursor, counted_after};

    ghost Value = { Cursor };

    ghost view = { λ t. record {
      left = counted_after t.passed t.rest.now;
      end_line = t.passed + length (lines t.rest.now) + 1;
    } };

    ghost invariant = { λ t. t.passed + length t.rest.now ≤ MAX_TEXT_BYTES };
}

// Returns what comes next in a text that has `before` lines before it: a line with tokens, a line that is too long,
// or the end. The text that is left comes with it, and how many lines stand before that.
fn next_line<'a>(text: &'a [u8], before: u32) -> (LineStep<'a>, &'a [u8], u32)
    requires { before + length text.now ≤ MAX_TEXT_BYTES }
    ensures step { result.0 ≡ step_of (counted_after before text.now) }
    ensures left { counted_after result.2 result.1.now
        ≡ lines_after (counted_after before text.now) }
    ensures end { result.2 + length (lines result.1.now) ≡ before + length (lines text.now) }
    ensures fits { result.2 + length result.1.now ≤ before + length text.now }
{
    let mut rest = text;
    let mut passed = before;
    while !rest.is_empty() {
        let (bytes, after) = cut_line(rest);
        let number = passed + 1;
        if bytes.len() > MAX_LINE_BYTES {
            return (LineStep::TooLong(number), rest, passed);
        }
        if !is_blank(bytes) {
            let line = Line {
                number,
                bytes,
                triple: None,
            };
            return (LineStep::Line(line), after, number);
        }
        rest = after;
        passed = number;
    }
    (LineStep::End, rest, passed)
}

// Returns the first line of a text that has `before` lines before it, if it is three numbers as JPL writes them. The
// text after it comes with it, and its number. None for any other line.
#[inline(always)]
fn next_triple_line<'a>(text: &'a [u8], before: u32) -> Option<(Line<'a>, &'a [u8], u32)>
    requires { before + length text.now ≤ MAX_TEXT_BYTES }
    ensures step { IfSome result (λ r. step_of (counted_after before text.now) ≡ steps.Line r.0) }
    ensures left { IfSome result (λ r. counted_after r.2 r.1.now
        ≡ lines_after (counted_after before text.now)) }
    ensures end { IfSome result (λ r. r.2 + length (lines r.1.now)
        ≡ before + length (lines text.now)) }
    ensures fits { IfSome result (λ r. r.2 + length r.1.now ≤ before + length text.now) }
{
    let found = cut_triple(text)?;
    let number = before + 1;
    let line = Line {
        number,
        bytes: found.bytes,
        triple: Some(found.triple),
    };
    Some((line, found.rest, number))
}

impl<'a> Tokens<'a> {
    /// Makes a cursor at the front of a text of at most 268,435,456 bytes.
    pub fn new(bytes: &'a [u8]) -> Self
        requires { length bytes.now ≤ MAX_TEXT_BYTES }
        ensures left { result.left ≡ text_lines bytes.now }
        ensures end_line { result.end_line ≡ length (lines bytes.now) + 1 }
    {
        Tokens {
            rest: bytes,
            passed: 0,
        }
    }

    /// Makes a cursor at the front of a later piece of a text, after pieces with `before` lines. Lines are numbered on
    /// from there. The lines of these pieces and the bytes of this one are at most 268,435,456 together.
    pub fn after(before: u32, bytes: &'a [u8]) -> Self
        requires { before + length bytes.now ≤ MAX_TEXT_BYTES }
        ensures left { result.left ≡ counted_after before bytes.now }
        ensures end_line { result.end_line ≡ before + length (lines bytes.now) + 1 }
    {
        Tokens {
            rest: bytes,
            passed: before,
        }
    }

    /// Returns the next line that is not blank, and passes it, or `End` if only blank lines are left. A line that is
    /// too long is not passed: every later call returns it again.
    pub fn line(&mut self) -> LineStep<'a>
        ensures step { result ≡ step_of self.old.left }
        ensures left { self.new.left ≡ lines_after self.old.left }
        ensures end_line { self.new.end_line ≡ self.old.end_line }
    {
        let (step, rest, passed) = next_line(self.rest, self.passed);
        self.rest = rest;
        self.passed = passed;
        step
    }

    /// Returns the next line with its numbers and passes it, if it is three numbers as JPL writes those of blocks.
    /// None for any other line, which is not passed.
    #[inline(always)]
    pub fn triple_line(&mut self) -> Option<Line<'a>>
        ensures step { IfSome result (λ line. step_of self.old.left ≡ steps.Line line) }
        ensures left { IfSome result (λ line. self.new.left ≡ lines_after self.old.left) }
        ensures other { IfNone result (self.new ≡ self.old) }
        ensures end_line { self.new.end_line ≡ self.old.end_line }
    {
        let (line, rest, passed) = next_triple_line(self.rest, self.passed)?;
        self.rest = rest;
        self.passed = passed;
        Some(line)
    }

    /// Returns the number of lines of the whole text plus 1, wherever the cursor stands. A fault names this line if
    /// the text ends too early.
    pub fn end_line(&self) -> u32
        ensures { result ≡ self.now.end_line }
    {
        self.passed + line_count(self.rest) as u32 + 1
    }
}
