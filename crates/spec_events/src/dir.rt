// The directions that a search asks for.

/// Which turns are wanted: those from below 0 to at least 0 (`Rise`), those back (`Fall`), or both (`Any`).
#[derive(Clone, Copy, PartialEq, Eq)]
pub enum Dir {
    Any,
    Rise,
    Fall,
}
