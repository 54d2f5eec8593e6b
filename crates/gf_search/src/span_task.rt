// The search of a span of an ephemeris, as a task.
ghost use Rattle.std.specs.Prelude.{◌≡◌, ◌<◌, true};
ghost use Rattle.spec_outcomes.specs.Queries.{is_within};

use eph_model::Ephemeris;
use spec_outcomes::Span;
use std::alloc::Global;

/// The task to search a span of an ephemeris, whoever does it. The span is in the ticks of the ephemeris since J2000 in
/// TDB.
#[derive(Drop)]
pub(crate) struct SpanTask<'t> {
    /// The allocator of what is found.
    pub alloc: Global,
    /// The ephemeris.
    pub ephemeris: &'t Ephemeris,
    /// The span.
    pub span: Span,
    ghost block: { 0 < ephemeris.now.blocks },
    ghost within: { is_within span ephemeris.now ≡ true },
}
