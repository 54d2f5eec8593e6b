// Where a node stands among still spans.

/// Where a node stands among still spans.
#[derive(Clone, Copy)]
pub(crate) enum Standing {
    /// A still span serves the node.
    Served,
    /// No span serves the node, one begins in it, and the limits of the search allow it to be split.
    Begun,
    /// Neither of these: the judge of the search is asked.
    Open,
}
