//! From a book of leaves to windows. The leaves of a root come in, in whatever order they were entered; what goes out
//! is the leaves in order of time, or the windows that they make then: one for each leaf with an event, and one for each
//! longest run of undecided leaves. Nothing here knows what an event is.
#![tactic(auto)]

mod joining;
mod ordering;

pub use joining::leaf_windows;
pub use ordering::{Memory, leaves, windows};
pub use spec_trees::{Holds, Window};
