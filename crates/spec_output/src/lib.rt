//! What the program writes: the definitions that contracts cite, as lists of bytes. A request, its span and its windows
//! or sets come in, or an ephemeris, or a fault; the bytes of a report, of a summary or of the line of a refusal go
//! out, and what a sink takes of a text. Times are ticks since J2000 in TDB, printed as calendar texts; those of an
//! ephemeris are seconds, and those of a scalar are whole numbers, printed as such.
#![tactic(auto)]

mod columns;
mod examples;
mod laws;
mod limits;

pub use columns::COLUMN_BODIES;
pub use examples::{
    absent_values_are_printed_as_dashes, columns_have_names, reports_end_with_their_counts,
    requests_are_printed, scalars_are_printed, sets_are_printed, ticks_are_printed,
    windows_are_counted,
};
pub use laws::{
    bad_command_lines_are_reported_with_their_fault, failed_writes_leave_a_prefix,
    faults_have_titles, faults_of_events_are_reported_by_number_and_name,
    the_line_of_a_request_is_a_line, too_many_leaves_are_reported_with_their_limit,
};
pub use limits::MAX_LEAVES;
