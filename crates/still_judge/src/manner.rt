// What a judge says of the nodes that still spans serve.

/// What a judge says of the nodes of a search that still spans serve.
#[derive(Clone, Copy)]
pub enum Manner {
    /// Each node has the verdict of the search.
    Exact,
    /// A node that a still span serves is clear, and one in which a still span begins is split unjudged, down to the
    /// limits of the search.
    Eager,
    /// A node that a still span serves is clear.
    Served,
}
