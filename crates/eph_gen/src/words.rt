// The words of generated blocks. Calls fail only if memory is out.
ghost use Rattle.std.specs.Prelude.{◌≡◌, ◌+◌, ◌-◌, ◌<◌, ◌≤◌, ◌++◌, ℕ, OnOk, string_bytes};
ghost use Rattle.spec_generated.specs.Draws.{IsUpto};
ghost use Rattle.spec_generated.specs.Words.{block_word, coefficient_word, date_word, fraction_word, sign_word};

use crate::draws::Draws;
use crate::terms::{coefficient_in_millionths, shape_at};
use spec_ephemeris::FIRST_PLACE;
use spec_generated::{BLOCK_DATES, FIRST_DATE, MAX_GENERATED, NCOEFF};
use std::alloc::AllocError;
use std::fmt::Write;

// Appends a number below 1 as JPL writes it: `0.`, `size` in 18 digits, and the text of an exponent. A `size` of more
// digits is written whole. The only error is out of memory.
fn add_fraction(text: &mut String, size: u64, exponent: &str) -> Result<(), AllocError>
    ensures { OnOk result
        (string_bytes text.new ≡ string_bytes text.old ++ fraction_word size exponent.now) }
{
    write!(text, "0.{size:018}{exponent}")
}

// Appends a minus sign for a number below 0, and nothing for any other. The only error is out of memory.
fn add_sign(text: &mut String, number: i64) -> Result<(), AllocError>
    ensures { OnOk result (string_bytes text.new ≡ string_bytes text.old ++ sign_word number) }
{
    if number < 0 { text.push('-') } else { Ok(()) }
}

// Appends the Julian date at which a block, counted from 0, starts, as JPL writes it. The only error is out of
// memory.
fn add_date(text: &mut String, block: u32) -> Result<(), AllocError>
    requires { block ≤ MAX_GENERATED }
    ensures { OnOk result (string_bytes text.new ≡ string_bytes text.old ++ date_word block) }
{
    let date = FIRST_DATE + u64::from(block) * BLOCK_DATES;
    add_fraction(text, date, "D+07")
}

// Appends a coefficient in km as JPL writes it, from its number of millionths of a km. The only error is out of
// memory.
fn add_coefficient(text: &mut String, millionths: i64) -> Result<(), AllocError>
    ensures { OnOk result
        (string_bytes text.new ≡ string_bytes text.old ++ coefficient_word millionths) }
{
    add_sign(text, millionths)?;
    add_fraction(text, millionths.unsigned_abs(), "D+12")
}

/// Appends the word at a place, counted from 1, of a block, counted from 0: its two dates first, then coefficients,
/// each of which takes the next draw, and zeros after the last. The only error is out of memory.
pub fn add_word(
    text: &mut String,
    block: u32,
    place: u32,
    draws: &mut Draws,
) -> Result<(), AllocError>
    requires few { block < MAX_GENERATED }
    requires some { 0 < place }
    ensures word { (state : ℕ) → IsUpto state (place - 1) draws.old → OnOk result
        (string_bytes text.new ≡ string_bytes text.old ++ block_word state block place) }
    ensures drawn { (state : ℕ) → IsUpto state (place - 1) draws.old → OnOk result
        (IsUpto state place draws.new) }
{
    if place < FIRST_PLACE {
        add_date(text, block + (place - 1))
    } else if NCOEFF < place {
        text.push_str("0.000000000000000000D+00")
    } else {
        add_coefficient(
            text,
            coefficient_in_millionths(shape_at(place), draws.draw()),
        )
    }
}
