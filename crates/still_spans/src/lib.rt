//! The still spans of a search: in each of them its function keeps one sign, so that narrow nodes are clear.
//!
//! In come a search, two times and a number of workers; out come still spans between them, in order of time. Which are
//! found is a matter of speed alone: a search without any is slow and never wrong. What they decide of nodes is for
//! `still_judge`.
//!
//! What is decided, where, and in which order:
//! 1. Whether spans are worth looking for: `worth`. Then the times are cut into shares where blocks of the ephemeris begin,
//!    mostly, so that no granule lies in two, one share for each worker: `cuts`, `shares`.
//! 2. Which times have no border of a granule in them: `granules`, `walk`. A granule is still as a whole where the bound of the
//!    function over it has one sign: `quiet`.
//! 3. How far else the function keeps from 0, by a model over the granule: `knowledge`, `known`. Where it tells too little the
//!    halves are asked, and theirs, and where it is blurred a model of their own is made: `halves`. Where the model tells signs
//!    alone, as that of a right angle, pieces are taken in which the function is monotone too: `sign_halves`.
//! 4. How wide a node in a piece may be that is clear for that, by the bound of the steps: `span_bound`, `units`. As fewer
//!    leaves are left to spare, bounds over parts of a granule, and over pieces, are made: `budget`.
//! 5. Whether the unit between two spans is still, which have the same sign: `borders`. Shares are joined in order: `joining`.
#![tactic(auto)]

mod borders;
mod budget;
mod cuts;
mod granules;
mod halves;
mod joining;
mod knowledge;
mod known;
mod quiet;
mod shares;
mod sign_halves;
mod span_bound;
mod units;
mod walk;
mod worth;

pub use shares::still_spans_by;
pub use spec_stills::StillSpan;
pub use walk::still_spans;
