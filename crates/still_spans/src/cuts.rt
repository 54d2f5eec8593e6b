// The times at which those of a search are cut into shares.
ghost use Rattle.std.specs.Prelude.{◌≤◌, ◌≤ℤ◌, pos};
ghost use Rattle.still_spans.specs.declared.cuts.TheConstants.{MAX_SHARES};

use eph_model::Ephemeris;

/// The most shares of a search.
pub(crate) const MAX_SHARES: u32 = 64;

/// Times that are cut into a number of shares, at times at which blocks of an ephemeris begin.
#[derive(Clone, Copy)]
pub(crate) struct Cuts {
    /// The first of the times.
    pub from: i64,
    /// The last of the times.
    pub upto: i64,
    /// The time at which the first block of the ephemeris begins.
    pub start: i64,
    /// The length of a block in ticks.
    pub block: i64,
    /// The number of shares.
    pub count: u32,
    ghost long: { pos 1 ≤ℤ block },
    ghost some: { 1 ≤ count },
    ghost few: { count ≤ MAX_SHARES },
}

// Returns into how many shares a span of `width` ticks is cut: one for each worker or one for each whole block of the
// ephemeris, whichever is fewer, but from 1 to 64.
fn share_count(width: i64, block: i64, workers: u32) -> u32
    requires { pos 1 ≤ℤ block }
    ensures some { 1 ≤ result }
    ensures few { result ≤ MAX_SHARES }
{
    let most = workers.clamp(1, MAX_SHARES);
    (width / block).clamp(1, i64::from(most)) as u32
}

impl Cuts {
    /// Cuts the times from `from` to `upto`, as far as the ephemeris has them, into one share for each worker, but
    /// into no more shares than they have whole blocks, and into at least one.
    pub(crate) fn new(ephemeris: &Ephemeris, from: i64, upto: i64, workers: u32) -> Cuts {
        let (start, block) = (ephemeris.start(), ephemeris.header().block_seconds);
        let (from, upto) = (from.max(start), upto.min(ephemeris.end()));
        Cuts {
            from,
            upto,
            start,
            block,
            count: share_count(upto.saturating_sub(from), block, workers),
        }
    }

    // Returns the last time, no later than `time`, at which a block of the ephemeris begins.
    fn last_block_start(&self, time: i64) -> i64 {
        let passed = time.saturating_sub(self.start);
        time.saturating_sub(passed.rem_euclid(self.block))
    }

    /// Returns the time at which the share at a place begins, which is where the share before it ends. Place 0 gives
    /// the first of all times, and the number of shares or more gives the last of them.
    pub(crate) fn share_start(&self, place: u32) -> i64 {
        if place == 0 {
            return self.from;
        }
        if self.count <= place {
            return self.upto;
        }
        let width = self.upto.saturating_sub(self.from);
        let share = width / i64::from(self.count);
        self.last_block_start(
            self.from
                .saturating_add(share.saturating_mul(i64::from(place))),
        )
    }
}
