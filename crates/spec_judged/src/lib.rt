//! Searches whose verdicts are those of what is found at the nodes of a tree: the law that their marks are right, and
//! that the windows of any leaves that cover a span are those of the events in it. The rules of a tree come in, a
//! function with its guards, and what is found of it at each node; what windows promise goes out, whatever the
//! function is.
#![tactic(auto)]

pub mod laws;
