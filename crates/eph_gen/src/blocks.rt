// The lines of generated blocks. Calls fail only if memory is out.
ghost use Rattle.std.specs.Prelude.{◌≡◌, ◌+◌, ◌-◌, ◌*◌, ◌<◌, ◌≤◌, ◌++◌, ◌∷◌, [], ℕ, OnOk, string_bytes};
ghost use Rattle.spec_text.specs.Bytes.{line_feed};
ghost use Rattle.spec_generated.specs.Blocks.{block_lines, row, rows_from};
ghost use Rattle.spec_generated.specs.Draws.{IsUpto, state_after};
ghost use Rattle.spec_text.specs.Printed.{joined_lines};
ghost use Rattle.spec_generated.specs.Words.{block_word};

use crate::draws::Draws;
use crate::words::add_word;
use spec_generated::{DRAWS, MAX_GENERATED, NCOEFF, ROWS};
use std::alloc::AllocError;
use std::fmt::Write;

// Appends a line of a generated block, counted from 0: the words at three places from `place` on, counted from 1,
// parted by blanks. The only error is out of memory.
fn add_row(text: &mut String, block: u32, place: u32, draws: &mut Draws) -> Result<(), AllocError>
    requires few { block < MAX_GENERATED }
    requires some { 0 < place }
    requires inside { place ≤ NCOEFF }
    ensures row { (state : ℕ) → IsUpto state (place - 1) draws.old → OnOk result
        (string_bytes text.new
        ≡ string_bytes text.old ++ (row (block_word state block) place ++ line_feed ∷ [])) }
    ensures drawn { (state : ℕ) → IsUpto state (place - 1) draws.old → OnOk result
        (IsUpto state (place + 2) draws.new) }
{
    add_word(text, block, place, draws)?;
    text.push(' ')?;
    add_word(text, block, place + 1, draws)?;
    text.push(' ')?;
    add_word(text, block, place + 2, draws)?;
    text.push('\n')
}

// Appends all lines of a generated block, counted from 0, but its first, with three words in each. Its coefficients
// are the next draws. The only error is out of memory.
fn add_rows(text: &mut String, block: u32, draws: &mut Draws) -> Result<(), AllocError>
    requires few { block < MAX_GENERATED }
    ensures rows { OnOk result (string_bytes text.new
        ≡ string_bytes text.old ++ joined_lines (rows_from (block_word draws.old block) 1 ROWS)) }
    ensures drawn { OnOk result (draws.new ≡ state_after draws.old DRAWS) }
{
    for rows in 0..ROWS {
        add_row(text, block, 3 * rows + 1, draws)?;
    }
    Ok(())
}

/// Appends the lines of a generated block, counted from 0, whose coefficients are the next draws. The first line has
/// the block's number, counted from 1, and the count of its numbers. The only error is out of memory.
pub fn add_block(text: &mut String, block: u32, draws: &mut Draws) -> Result<(), AllocError>
    requires few { block < MAX_GENERATED }
    ensures lines { OnOk result (string_bytes text.new
        ≡ string_bytes text.old ++ joined_lines (block_lines draws.old block)) }
    ensures drawn { OnOk result (draws.new ≡ state_after draws.old DRAWS) }
{
    let record = block + 1;
    writeln!(text, "{record} {NCOEFF}")?;
    add_rows(text, block, draws)
}
