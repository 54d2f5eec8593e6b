//! The header of a file, read line by line. Lines come in, as the text reader cuts them; what goes out is the header,
//! or the first fault. Only the end of the reading allocates, for the columns.
#![tactic(auto)]

mod answers;
mod bounds;
mod columns;
mod laws;
mod reader;
mod state;
mod words;

pub use answers::{HeaderError, Step};
pub use laws::open_readers_say_the_same_in_every_file;
pub use reader::HeaderReader;
pub use spec_ephemeris::{Column, Columns, Header};
pub use spec_text::Fault;
pub use state::State;
