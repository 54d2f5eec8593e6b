//! The judges of the nodes of a search by its still spans, and by the signs that these tell.
//!
//! In come a judge, its search, still spans and a manner; out comes a judge that takes what the spans decide from them: of
//! the search's own tree, of its eager tree, or of its served tree. How spans are found (`still_spans`) no judge knows. If
//! no node lies in one, the search is slow and never wrong.
//!
//! What is decided, where, and in which order:
//! 1. Of a node, by `judging`: whether a span shows that it is clear, or, in an eager or a served tree, serves it, by halving of
//!    a `StillList`: `serving`; and in an eager tree whether one begins in it, so that it is split unjudged: `beginning`. Else
//!    another judge is asked.
//! 2. That one is a `SignJudge`, for the most part: if still spans hold the two ends of a node, the signs that they tell there
//!    may decide it, and times at which the conditions hold: `end_signs`, `certified_times`, `conditions`. Else the judge of
//!    the search is asked.
//! 3. Of leaves: how many leaves of the tree they stand for at most: `serving`; and which undecided ones of an eager tree lie in
//!    a clear leaf of the tree, and are clear for that: `settling`, by a short way down from the leaf before: `nearing`.
//!
//! A `StillList` has spans of which each begins no earlier than the one before it ends, so that no more than one can serve a
//! node; it is empty where they do not. A `StillJudge` and a `SignJudge` are given spans that are still, since they take
//! verdicts and signs from them. No call of a judge allocates or fails; memory can run out as a `SignJudge` is made.
#![tactic(auto)]

mod beginning;
mod certified_times;
mod conditions;
mod end_signs;
mod judging;
mod limits;
mod manner;
mod nearing;
mod serving;
mod settling;
mod sign_judge;
mod span_judge;
mod standing;
mod still_list;

pub use limits::MAX_HALVINGS;
pub use manner::Manner;
pub use sign_judge::SignJudge;
pub use span_judge::StillJudge;
pub use still_list::StillList;
