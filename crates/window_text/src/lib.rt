//! Texts of times, and of what a search found. A time comes in, and its calendar text goes out; a word comes in, and
//! the time that it stands for goes out; a request with its span and windows or sets comes in, or an ephemeris, and the
//! bytes of a report or a summary go out. Times are ticks since J2000 in TDB, of which a second has one or 1,000; those
//! of an ephemeris that is summed up are seconds, and those of a scalar are whole numbers.
#![tactic(auto)]

mod counting;
mod memory;
mod pieces;
mod printing;
mod query_lines;
mod reading;
mod report_lines;
mod scalar_lines;
mod set_lines;
mod showing;
mod summary_lines;
mod window_lines;

pub use memory::Memory;
pub use printing::time_text;
pub use reading::read_time;
pub use report_lines::{generation, report, request_line, verification};
pub use scalar_lines::scalar_report;
pub use set_lines::set_report;
pub use spec_requests::{FindAsk, Relation, ScalarAsk};
pub use spec_times::TimeFault;
pub use summary_lines::{summary, summary_of_store};
