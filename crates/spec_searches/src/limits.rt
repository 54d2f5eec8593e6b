// The limits of a search.

/// The greatest width, in ticks, down to which nodes are split. The least is 1.
pub const MAX_WIDTH: u32 = 1_000_000;

/// The greatest depth down to which nodes are split. The root has depth 0.
pub const MAX_DEPTH: u32 = 40;
