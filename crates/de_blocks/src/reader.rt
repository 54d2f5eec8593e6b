// The reader.
ghost use Rattle.std.specs.Prelude.{◌≡◌, [], IfOk, Ok, Err};
ghost use Rattle.spec_text.specs.declared.decimals.Fault.{Fault};
ghost use Rattle.spec_ephemeris.specs.Header.{IsHeader};
ghost use Rattle.spec_files.specs.Blocks.{blocks};
ghost use Rattle.spec_files.specs.declared.errors.ReadError.TheVariants as errors;
ghost use Rattle.de_blocks.specs.Reader.{Ends, GivesAgain, HasBlocks, HasRead, IsAt, IsNotMemory, IsNotRefused, IsRefused, KeepsFault, Takes, accepted_in, answer, from_record, says};
ghost use Rattle.de_blocks.specs.declared.state.Place.TheVariants as places;

use crate::accepting::read_line_and_accept;
use crate::answers::BlockError;
use crate::block::OpenBlock;
use crate::rules::check_record_line;
use crate::state::{Place, Rounding};
use de_text::Line;
use eph_model::{BlockStore, Ephemeris};
use spec_ephemeris::Header;
use spec_faults::{NO_BLOCK, TRUNCATED};
use spec_text::Fault;
use std::alloc::Global;
use std::marker::Model;

/// A reader of the blocks after a header, in the rest of its file and in the files that follow.
#[derive(Drop)]
pub struct BlockReader {
    block: OpenBlock,
    place: Place,
}

impl Model for BlockReader {
    ghost use Rattle.de_blocks.specs.Reader.{Progress, Fits};

    ghost Value = { Progress };

    ghost view = { λ r. record {
      accepted = r.block.accepted;
      numbers = r.block.numbers;
      place = r.place;
    } };

    ghost invariant = { λ r. Fits (record {
      accepted = r.block.accepted;
      numbers = r.block.numbers;
      place = r.place;
    }) };
}

// Makes the error of a text that ends too early: the fault of this number, at this line.
fn fault_at_end(line: u32, number: u8) -> BlockError
    ensures { result ≡ errors.Fault (record { line = line; number = number; detail = 0 }) }
{
    BlockError::Fault(Fault {
        line,
        number,
        detail: 0,
    })
}

// Returns the store of the accepted blocks, for a text that ends between two blocks. Errors: the fault `NO_BLOCK` at
// this line, if there is no block. `let _header` computes nothing: that call's contract says that the blocks are
// checked.
fn store_at_end(store: BlockStore, line: u32) -> Result<BlockStore, BlockError>
    ensures end { Ends line (from_record store.accepted []) (accepted_in result) }
    ensures rules { IfOk result (λ found. HasBlocks found.accepted) }
{
    let _header = store.header();
    if store.blocks() == 0 {
        Err(fault_at_end(line, NO_BLOCK))
    } else {
        Ok(store)
    }
}

impl BlockReader {
    /// Makes a reader that waits for the first line after the header, and rounds each number as it is read. It does not
    /// allocate.
    pub fn new(alloc: Global, header: Header) -> Self
        requires { IsHeader header }
        ensures blocks { IsAt result (blocks header) }
        ensures not_refused { IsNotRefused result }
    {
        BlockReader::with_rounding(alloc, header, Rounding::AtOnce)
    }

    /// Makes a reader that waits for the first line after the header. `rounding` is when it rounds numbers, on which
    /// nothing depends that it says of lines. It does not allocate.
    pub fn with_rounding(alloc: Global, header: Header, rounding: Rounding) -> Self
        requires { IsHeader header }
        ensures blocks { IsAt result (blocks header) }
        ensures not_refused { IsNotRefused result }
    {
        BlockReader {
            block: OpenBlock::new(alloc, header, rounding),
            place: Place::Between,
        }
    }

    // Drops the block that was begun, keeps the fault as the answer to all later lines, and returns it.
    fn keep_fault(&mut self, fault: Fault) -> Result<(), BlockError>
        ensures refused { IsRefused self.new fault }
        ensures result { result ≡ Err (errors.Fault fault) }
    {
        self.block.truncate(0);
        self.place = Place::Refused(fault);
        Err(BlockError::Fault(fault))
    }

    // Reads the record line, which stands before the numbers of a block. After it the reader stands inside the block.
    // Errors: the fault of a line that breaks the rule of record lines, which the reader keeps for good. The call is
    // not inlined, since it comes once a block.
    #[inline(never)]
    fn begin_block(&mut self, line: &Line<'_>) -> Result<(), BlockError>
        requires { self.old.place ≡ places.Between }
        ensures { Takes self.old line.now result self.new }
    {
        match check_record_line(self.block.header().ncoeff, line) {
            Ok(()) => {
                self.place = Place::Inside;
                Ok(())
            }
            Err(broken) => self.keep_fault(broken.at_line(line.number())),
        }
    }

    // Reads a line within a block. Errors: the fault of the first rule that the line breaks, which the reader keeps
    // for good; or out of memory, after which the reader is as before the line.
    #[inline(always)]
    fn continue_block(&mut self, line: &Line<'_>) -> Result<(), BlockError>
        requires { self.old.place ≡ places.Inside }
        ensures { Takes self.old line.now result self.new }
    {
        let kept = self.block.count();
        match read_line_and_accept(&mut self.block, line) {
            Ok(place) => {
                self.place = place;
                Ok(())
            }
            Err(BlockError::Fault(fault)) => {
                self.block.truncate(kept);
                self.keep_fault(fault)
            }
            Err(BlockError::Memory) => {
                self.block.truncate(kept);
                Err(BlockError::Memory)
            }
        }
    }

    /// Reads the next line. Errors: `Fault` at the first line that breaks a rule and at every line after it;
    /// `Memory`, after which the reader is as it was before the line.
    #[inline(always)]
    pub fn line(&mut self, line: &Line<'_>) -> Result<(), BlockError>
        ensures says { IsNotMemory result → HasRead self.old line.now self.new }
        ensures answer { IsNotMemory result → result ≡ answer (says 0 self.new []) }
        ensures not_refused { result ≡ Ok tt → IsNotRefused self.new }
        ensures refused { KeepsFault self.new result }
        ensures kept { GivesAgain self.old self.new result }
        ensures memory { result ≡ Err errors.Memory → self.new ≡ self.old }
    {
        match self.place {
            Place::Between => self.begin_block(&line.without_triple()),
            Place::Inside => self.continue_block(line),
            Place::Refused(fault) => Err(BlockError::Fault(fault)),
        }
    }

    /// Returns the store with the blocks of all lines. `line` is the number of the last file's lines plus 1. Errors: the
    /// fault that was kept; or, at `line`, fault 36 if the lines end within a block, or fault 37 if no block was read.
    /// It does not allocate.
    pub fn end_store(self, line: u32) -> Result<BlockStore, BlockError>
        ensures end { Ends line (says 0 self []) (accepted_in result) }
        ensures rules { IfOk result (λ found. HasBlocks found.accepted) }
    {
        match self.place {
            Place::Refused(fault) => Err(BlockError::Fault(fault)),
            Place::Inside => Err(fault_at_end(line, TRUNCATED)),
            Place::Between => store_at_end(self.block.finish(), line),
        }
    }

    /// Returns the ephemeris of all lines. `line` is the number of the last file's lines plus 1. Errors: those of
    /// `end_store`. It does not allocate.
    pub fn end(self, line: u32) -> Result<Ephemeris, BlockError>
        ensures end { Ends line (says 0 self []) result }
        ensures rules { IfOk result HasBlocks }
    {
        match self.end_store(line) {
            Ok(store) => Ok(store.finish()),
            Err(error) => Err(error),
        }
    }
}
