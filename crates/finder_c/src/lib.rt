//! The commands for a host that has no files, no threads and no streams: the words of a command line and the bytes of files
//! come in, and a status and a text go out. `include/finder.h` says how the bytes are laid out. No crate stands on this one.
#![tactic(auto)]

mod export;
mod layout;
mod reply;
mod shelf;

pub use export::finder_call;
pub use reply::MALFORMED;
