// The enclosure.

/// What is known of a value over a span of times, by three intervals of type `I`: its value in the middle, all its values,
/// and its change from each time to the next.
#[derive(Clone, Copy, PartialEq, Eq)]
pub struct Enclosure<I> {
    /// Holds the value at the middle time.
    pub mid: I,
    /// Holds the value at each time.
    pub range: I,
    /// Holds the difference from each time to the next.
    pub step: I,
}
