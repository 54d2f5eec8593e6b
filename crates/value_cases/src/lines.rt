// Rows of the lines of a text with their tokens.
use crate::fields::{Fields, RowError};
use de_text::{Line, LineStep, Tokens, Words};
use spec_text::MAX_TEXT_BYTES;
use std::alloc::Global;

// Tells whether these bytes are the token at this place of a line, by the place and as the next of the line's words.
fn is_token_at(line: &Line<'_>, words: &mut Words<'_>, place: usize, token: &[u8]) -> bool {
    words.next() == Some(token) && line.token(place) == Some(token)
}

// Reads the number of a line, the count of its tokens and the tokens, and tells whether the given line has these and
// no more.
fn line_agrees(alloc: Global, fields: &mut Fields<'_>, line: &Line<'_>) -> Result<bool, RowError> {
    let number = fields.next_number::<u32>();
    let count = fields.next_number::<usize>();
    let mut words = line.words();
    let mut agrees = line.number() == number && line.count() == count;
    for place in 0..count {
        let token = fields.next_bytes(alloc)?;
        agrees = is_token_at(line, &mut words, place, &token) && agrees;
    }
    let is_last = words.next().is_none() && line.token(count).is_none();
    Ok(agrees && is_last)
}

// Takes the number and the tokens of an expected line from the row if the text has no such line, so that the fields
// after them can still be read.
fn skip_expected_line(fields: &mut Fields<'_>) {
    let _number = fields.next_number::<u32>();
    for _ in 0..fields.next_number::<usize>() {
        let _token = fields.next_word();
        if fields.is_malformed() {
            return;
        }
    }
}

// Tells whether the next step of the reader is a line, with the number and the tokens that the next fields have.
fn next_line_agrees(
    alloc: Global,
    fields: &mut Fields<'_>,
    step: &LineStep<'_>,
) -> Result<bool, RowError> {
    match step {
        LineStep::Line(line) => line_agrees(alloc, fields, line),
        _ => {
            skip_expected_line(fields);
            Ok(false)
        }
    }
}

// Tells whether the reader says that the lines have ended, and says so again when it is asked again.
fn have_lines_ended(tokens: &mut Tokens<'_>) -> bool {
    let has_ended = matches!(tokens.line(), LineStep::End);
    let has_ended_again = matches!(tokens.line(), LineStep::End);
    has_ended && has_ended_again
}

// Tells whether a step of the reader is a line that is too long, and has this number.
fn is_long_line(step: &LineStep<'_>, number: u32) -> bool {
    match step {
        LineStep::TooLong(found) => *found == number,
        _ => false,
    }
}

// Tells whether the reader stops at a line that is too long and has this number, and stops there again when it is
// asked again.
fn stays_at_long_line(tokens: &mut Tokens<'_>, number: u32) -> bool {
    let is_next = is_long_line(&tokens.line(), number);
    let is_again = is_long_line(&tokens.line(), number);
    is_next && is_again
}

// Tells whether the reader stops as the row says: for `end` the lines have ended, and the line after the last has the
// number `end`; for `long` a line is too long, whose number is the next field.
fn end_agrees(fields: &mut Fields<'_>, kind: &str, tokens: &mut Tokens<'_>, end: u32) -> bool {
    match kind {
        "end" => have_lines_ended(tokens) && tokens.end_line() == end,
        "long" => stays_at_long_line(tokens, fields.next_number::<u32>()),
        _ => {
            fields.refuse();
            false
        }
    }
}

// Tells whether a text has the lines of the next fields, in order, and stops as they say. A text longer than the
// reader takes is malformed.
fn lines_of_text_agree(
    alloc: Global,
    fields: &mut Fields<'_>,
    text: &[u8],
) -> Result<bool, RowError> {
    if text.len() > MAX_TEXT_BYTES {
        return Err(RowError::Malformed);
    }
    let end = fields.next_number::<u32>();
    let mut tokens = Tokens::new(text);
    let mut agrees = tokens.end_line() == end;
    // Each line takes a byte at least, and the end is one row more.
    for _ in 0..=text.len() {
        match fields.next_word() {
            "line" => agrees = next_line_agrees(alloc, fields, &tokens.line())? && agrees,
            kind => return Ok(end_agrees(fields, kind, &mut tokens, end) && agrees),
        }
    }
    Err(RowError::Malformed)
}

/// Compares the lines of a text: the row has the text, the number of the line after its last, the lines that are not
/// blank with their numbers and tokens, and whether they end or stop at a line that is too long.
pub(crate) fn lines_agree(alloc: Global, fields: &mut Fields<'_>) -> Result<bool, RowError> {
    let text = fields.next_bytes(alloc)?;
    lines_of_text_agree(alloc, fields, &text)
}
