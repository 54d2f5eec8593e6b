//! The kinds of events: an ask over an ephemeris becomes an event, as a function and guards, or the first fault.
//!
//! In comes what is asked, with an ephemeris whose columns are looked at; out come formulas over the positions and the
//! velocities of two targets, of which the first is the ask's target. Nothing here evaluates them, or knows of times.
#![tactic(auto)]

mod asks;
mod faults;
mod guarded;
mod rows;
mod table;
mod vectors;

pub use asks::is_ask;
pub use faults::KindFault;
pub use guarded::{Event, Guard};
pub use spec_bodies::Frame;
pub use spec_events::Dir;
pub use spec_kinds::{Ask, EventFault, Kind};
pub use table::event;

/// The frame of an ask, which is that of the bodies.
pub type Frame2 = Frame;
