//! Texts that are generated. A number of blocks, at most 40, and a seed come in; what goes out is a text of JPL's form
//! with DE405's columns and with coefficients that are drawn from the seed, which is always accepted. Nothing is read.
#![tactic(auto)]

mod blocks;
mod draws;
mod generator;
mod terms;
mod words;

pub use generator::{Memory, generate};
pub use spec_generated::MAX_GENERATED;
