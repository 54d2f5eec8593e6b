// Where a span is cut in two.

/// The named rules by which a span is cut: in its middle, or at its first third.
#[derive(Clone, Copy, PartialEq, Eq)]
pub enum CutRule {
    Half,
    Third,
}
