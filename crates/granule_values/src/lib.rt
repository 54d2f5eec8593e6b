//! What a quantity of a column is within a granule, over a span of times: its enclosure with a look
//! at the middle, or its range.
//!
//! In comes a granule with times in it (`GranuleSpan`); out come enclosures or ranges of a position
//! or a velocity along the wanted axes. Rows of the bases are made once for all axes, and for all
//! granules that begin and end together: in room for one question (`RowRoom`), or in room that the
//! caller keeps from one span to the next (`RangeRows`). No call allocates or fails.
#![tactic(auto)]

mod axis_entries;
mod bases;
mod evaluation;
mod granule_span;
mod made_rows;
mod range_rows;
mod ranges;

pub use axis_entries::{AxisEntries, ColumnQuestion};
pub use bases::{PlainRow, RowRoom, Rows};
pub use granule_span::GranuleSpan;
pub use range_rows::RangeRows;
