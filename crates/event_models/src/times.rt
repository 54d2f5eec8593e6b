// The times over which models are made.
ghost use Rattle.std.specs.Prelude.{◌<ℤ◌};

/// The times over which models are made: a first time and a later last one.
#[derive(Clone, Copy)]
pub(crate) struct ModelTimes {
    pub first: i64,
    pub last: i64,
    ghost ordered: { first <ℤ last },
}
