//! The blocks of a file, read line by line after its header. Lines come in, as the text reader cuts them; what goes out
//! is the ephemeris, or the first fault. Each number is written straight into the store of the ephemeris. It is dropped if
//! its line is refused, and counts once its block is whole.
#![tactic(auto)]

mod accepting;
mod answers;
mod block;
mod closing;
mod dates;
mod laws;
mod reader;
mod rules;
mod state;
mod walk;

pub use answers::BlockError;
pub use eph_model::{BlockStore, Ephemeris};
pub use laws::readers_of_blocks_say_the_same_in_every_file;
pub use reader::BlockReader;
pub use spec_text::Fault;
pub use state::{Place, Rounding};
