// A whole block becomes one of the blocks before it.
ghost use Rattle.std.specs.Prelude.{◌≡◌, ◌<◌, []};
ghost use Rattle.spec_ephemeris.specs.declared.limits.TheConstants.{MAX_BLOCKS};
ghost use Rattle.spec_ephemeris.specs.Ephemeris.{IsBlock, IsEphemeris, IsStart, with_block};
ghost use Rattle.spec_files.specs.Blocks.{begun};
ghost use Rattle.eph_model.specs.Starting.{starting_at};

use eph_model::BlockStore;

// Makes the whole block the first of the ephemeris, which then starts at this time, in seconds of TDB since J2000.
fn append_first_block(before: &mut BlockStore, start: i64)
    requires block { IsBlock before.old.accepted.header before.old.numbers }
    requires room { before.old.accepted.blocks < MAX_BLOCKS }
    requires start { IsStart start }
    ensures added { before.new.accepted
        ≡ starting_at (with_block before.old.accepted before.old.numbers) start }
    ensures numbers { before.new.numbers ≡ [] }
{
    before.close_block();
    before.start_at(start);
}

// Makes the whole block, which starts at this time, the next of the ephemeris. If it is the first, the ephemeris
// starts at this time too. Times are seconds of TDB since J2000.
#[tactic(auto, using(crate::proofs::Pushing::first_pushed))]
pub(crate) fn append_block(before: &mut BlockStore, start: i64)
    requires checked { IsEphemeris before.old.accepted }
    requires block { IsBlock before.old.accepted.header before.old.numbers }
    requires room { before.old.accepted.blocks < MAX_BLOCKS }
    requires start { IsStart start }
    ensures added { before.new.accepted
        ≡ with_block (begun before.old.accepted start) before.old.numbers }
    ensures numbers { before.new.numbers ≡ [] }
{
    if before.blocks() == 0 {
        append_first_block(before, start);
    } else {
        before.close_block();
    }
}
