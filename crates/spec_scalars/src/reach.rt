// What is known of a scalar over a span of times.

/// Bounds of a scalar at each time of a span, and of its change from each of them but the last to the next.
#[derive(Clone, Copy, PartialEq, Eq)]
pub struct Reach {
    /// The scalar is no less than this.
    pub lo: i128,
    /// The scalar is no more than this.
    pub hi: i128,
    /// The change of the scalar is no less than this.
    pub step_lo: i128,
    /// The change of the scalar is no more than this.
    pub step_hi: i128,
}
