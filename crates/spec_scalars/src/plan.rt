// How a scalar is searched.

use spec_events::Dir;
use spec_trees::CutRule;

/// The turns that are wanted, the width, in times, and the depth down to which nodes are split, and the rule of the
/// cuts.
#[derive(Clone, Copy, PartialEq, Eq)]
pub struct Plan {
    pub dir: Dir,
    pub width: u64,
    pub depth: u32,
    pub cut: CutRule,
}
