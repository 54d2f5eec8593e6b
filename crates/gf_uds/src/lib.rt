//! Searches of a scalar of one's own: a law, which tells what is known of the scalar over a span of times; a judge of
//! the nodes of its search; and the search itself, by one walk or by workers.
//!
//! In come a law and how it is searched; out comes the book of the leaves of a span, whose windows are those of the
//! times at which the scalar passes 0 in a wanted direction. The law is whatever its type says in its ghost members:
//! values that keep within the bounds that it returns. No call but the searches allocates or fails.
#![tactic(auto)]

mod finding;
mod judge;
mod judging;
mod law;
mod quad;
mod quad_law;
mod scalar;
mod squares;
mod verdicts;

pub use finding::{find_scalar, scalar_leaves};
pub use judge::ScalarJudge;
pub use law::{Law, law_holds};
pub use quad::Quad;
pub use scalar::Scalar;
pub use spec_events::Dir as Want;
pub use spec_scalars::{Plan, Reach};
