//! Neighbouring spans: when the windows of a span are those of its parts, joined, and its leaves those of its parts. A
//! search and spans that meet come in; laws on their windows and leaves go out, so that a search can be run by parts, on
//! one machine or on many. Nothing here knows of files or of reports.
#![tactic(auto)]

pub mod examples;
pub mod laws;
