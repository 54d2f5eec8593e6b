// The limit of the leaves of a run.

/// The most leaves of one search.
pub const MAX_LEAVES: u32 = 33_554_432;
