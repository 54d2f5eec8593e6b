// The generated text as a whole.
ghost use Rattle.std.specs.Prelude.{◌≡◌, ◌<◌, ◌≤◌, [], ◌∷◌, IfOk, Ok};
ghost use Rattle.spec_files.specs.Outcome.{outcome};
ghost use Rattle.spec_text.specs.Printed.{joined_lines};
ghost use Rattle.spec_generated.specs.Generated.{generated_ephemeris, generated_text, header_lines};

use crate::blocks::add_block;
use crate::draws::Draws;
use spec_generated::MAX_GENERATED;
use std::alloc::{AllocError, Global};

/// The one error of the calls: out of memory.
pub type Memory = AllocError;

// Returns the lines before the blocks, which are the same in every generated text: the header of a file with DE405's
// columns.
fn header_text() -> &'static str
    ensures { result.now ≡ joined_lines header_lines }
{
    "KSIZE= 2036 NCOEFF= 1018
GROUP 1010
GENERATED TEXT
GROUP 1030
2451536.50 2525008.50 32.
GROUP 1040
1
EMRAT
GROUP 1041
1
0.813005600000000000D+02
GROUP 1050
3 171 231 309 342 366 387 405 423 441 753 819 899
14 10 13 11 8 7 6 6 6 13 11 10 10
4 2 2 1 1 1 1 1 1 8 2 4 4
GROUP 1070
"
}

/// Returns a text of this many blocks, with coefficients that are drawn from the seed: JPL's form of DE405's columns,
/// with blocks of 32 days from Julian date 2451536.5 on. Each coefficient takes one draw, in the order of the places
/// over all blocks. The text is accepted as the only file, whatever the seed; its granules do not join smoothly. A
/// block takes about 26,000 bytes. The only error is out of memory.
pub fn generate(alloc: Global, blocks: u32, seed: u64) -> Result<Vec<u8>, Memory>
    requires some { 0 < blocks }
    requires few { blocks ≤ MAX_GENERATED }
    ensures text { IfOk result (λ text. text.items ≡ generated_text blocks seed) }
    ensures accepted { IfOk result (λ text.
        outcome (text.items ∷ []) ≡ Ok (generated_ephemeris blocks seed)) }
{
    let mut text = String::from_str(alloc, header_text())?;
    let mut draws = Draws::new(seed);
    for block in 0..blocks {
        add_block(&mut text, block, &mut draws)?;
    }
    Ok(text.into_bytes())
}
