// The leaves that are wanted of a search.

/// The leaves that are wanted of a search.
#[derive(Clone, Copy, PartialEq, Eq)]
pub enum Wanted {
    /// The leaves of the search's tree, whose windows are those of the events.
    Leaves,
    /// Leaves that have the windows of the search's leaves. Nodes in spans that are known to be still are not cut,
    /// and nodes in which such a span begins are split unjudged.
    Windows,
    /// Leaves that show at each time the sign that the search's leaves show. Nodes in spans that are known to be
    /// still are not cut.
    Signs,
}
