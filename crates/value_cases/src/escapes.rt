// The bytes of fields that are escaped.
use crate::fields::RowError;
use std::alloc::Global;

// What was read before a byte: nothing of an escape, its `%`, its first digit, or a byte that no escape may have.
#[derive(Clone, Copy)]
enum EscapeState {
    Plain,
    AfterPercent,
    AfterDigit(u8),
    Malformed,
}

// The state after a byte of a field, and the byte that is complete with it, if any.
type Step = (EscapeState, Option<u8>);

// Returns the value, 0 to 15, of a hexadecimal digit, whose letters are capitals. None for any other byte.
fn hex_digit_value(byte: u8) -> Option<u8> {
    match byte {
        b'0'..=b'9' => Some(byte - b'0'),
        b'A'..=b'F' => Some(byte - b'A' + 10),
        _ => None,
    }
}

// Takes a byte of a field that is not part of an escape: a blank is complete with `~`, nothing with `%`, which begins
// an escape, and any other byte as it is.
fn step_of_plain_byte(byte: u8) -> Step {
    match byte {
        b'%' => (EscapeState::AfterPercent, None),
        b'~' => (EscapeState::Plain, Some(b' ')),
        _ => (EscapeState::Plain, Some(byte)),
    }
}

// Takes the first digit of an escape.
fn step_of_first_digit(byte: u8) -> Step {
    match hex_digit_value(byte) {
        Some(high) => (EscapeState::AfterDigit(high), None),
        None => (EscapeState::Malformed, None),
    }
}

// Takes the second digit of an escape, with which its byte is complete.
fn step_of_second_digit(high: u8, byte: u8) -> Step {
    match hex_digit_value(byte) {
        Some(low) => (
            EscapeState::Plain,
            Some(high.wrapping_mul(16).wrapping_add(low)),
        ),
        None => (EscapeState::Malformed, None),
    }
}

// Takes the next byte of a field: after `%` two hexadecimal digits make one byte.
fn step_of_byte(place: EscapeState, byte: u8) -> Step {
    match place {
        EscapeState::Plain => step_of_plain_byte(byte),
        EscapeState::AfterPercent => step_of_first_digit(byte),
        EscapeState::AfterDigit(high) => step_of_second_digit(high, byte),
        EscapeState::Malformed => (EscapeState::Malformed, None),
    }
}

/// Returns the bytes that a field stands for: `~` is a blank, `%` with two hexadecimal digits is the byte of that
/// number, `%` alone is no byte at all, and each other byte is itself. A field with a `%` that is followed by anything
/// else, or that ends within an escape, is malformed.
pub(crate) fn unescaped_bytes(alloc: Global, field: &str) -> Result<Vec<u8>, RowError> {
    let mut bytes = Vec::new(alloc);
    if field == "%" {
        return Ok(bytes);
    }
    let mut place = EscapeState::Plain;
    for &byte in field.as_bytes() {
        let (next, complete) = step_of_byte(place, byte);
        place = next;
        if let Some(byte) = complete {
            bytes.push(byte)?;
        }
    }
    match place {
        EscapeState::Plain => Ok(bytes),
        _ => Err(RowError::Malformed),
    }
}
