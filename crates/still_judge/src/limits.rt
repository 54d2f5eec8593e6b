// The limit of the spans that are taken.

/// The greatest number of times that a node in a still span is halved.
pub const MAX_HALVINGS: u32 = 31;
