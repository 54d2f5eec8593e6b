//! Files by their names into an ephemeris. A shelf and names come in; out goes the ephemeris that the texts of these
//! files are, or the first fault with its file, or the file that could not be read. No file is opened after one that has
//! a fault or cannot be read.
#![tactic(auto)]

mod errors;
mod file;
mod files;
mod pieces;
mod reader;

pub use de_blocks::Rounding;
pub use errors::FilesError;
pub use file::read_file;
pub use files::{Accepted, Stored, read_files, read_store};
