// A line within a block.
ghost use Rattle.std.specs.Prelude.{◌<◌, length};
ghost use Rattle.spec_ephemeris.specs.Ephemeris.{IsEphemeris};
ghost use Rattle.spec_files.specs.Read.{AreRead};
ghost use Rattle.de_blocks.specs.Steps.{TakesLine};

use crate::block::OpenBlock;
use crate::state::Place;
use crate::walk::read_line;
use de_text::Line;
use spec_files::ReadError;

// Reads a line within a block into it, and accepts the block once it is whole. Returns whether the reader then stands
// inside a block or between two. Errors: the fault of the first rule that the line breaks, or out of memory.
#[inline(always)]
pub(crate) fn read_line_and_accept(
    block: &mut OpenBlock,
    line: &Line<'_>,
) -> Result<Place, ReadError>
    requires checked { IsEphemeris block.old.accepted }
    requires read { AreRead block.old.accepted block.old.numbers }
    requires few { length block.old.numbers < block.old.accepted.header.ncoeff }
    ensures { TakesLine block.old.accepted block.old.numbers line.now result block.new.accepted
        block.new.numbers }
{
    let ncoeff = block.header().ncoeff as usize;
    read_line(block, line)?;
    if block.count() < ncoeff {
        Ok(Place::Inside)
    } else {
        block.accept();
        Ok(Place::Between)
    }
}
