// The times over which bounds are made.
ghost use Rattle.std.specs.Prelude.{◌≤◌, ◌≤ℤ◌, unsigned_abs};
ghost use Rattle.spec_intervals.specs.Enclosure.{time_limit};

use event_expr::rules::TimeSpan;

/// The times over which bounds are made, from a first to a last, each at most 2^50 in magnitude.
#[derive(Clone, Copy)]
pub(crate) struct BoundTimes<'t> {
    pub span: &'t TimeSpan,
    ghost ordered: { span.now.first ≤ℤ span.now.last },
    ghost first_near: { unsigned_abs span.now.first ≤ time_limit },
    ghost last_near: { unsigned_abs span.now.last ≤ time_limit },
}
