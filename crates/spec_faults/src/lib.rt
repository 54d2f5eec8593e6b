//! The faults that a run reports: the one table of their numbers and names, which definitions and code look up. What
//! breaks a rule is said where the rule stands; this crate knows only how it is reported.
#![tactic(auto)]

mod laws;
mod numbers;
mod table;

pub use laws::{fault_numbers_rise, faults_are_looked_up, the_table_has_38_rows};
pub use numbers::{
    BAD_VALUE, BLOCK_GAP, BLOCK_SPAN, BODY_ABSENT, CERT_END, CERT_LINE, CERT_MARK, CERT_PLACE,
    CERT_REQUEST, COEFFICIENT_COUNT, COLUMN_COUNT, COLUMN_PLACE, COUNT_MISMATCH, EMRAT_MISSING,
    EMRAT_RANGE, ENDED, FILE_TOO_LARGE, FIRST_LINE, GRANULE_NOT_WHOLE, GROUP_MISSING,
    HEADER_NUMBER, JD_NOT_WHOLE_SECOND, LIMIT, LINE_TOO_LONG, NCOEFF_DIFFERS, NO_BLOCK, NO_COMMAND,
    NUMBER, RECORD_LINE, REFERENCE_RANGE, SAME_BODY, TOO_LARGE, TOO_MANY_BLOCKS, TOO_MANY_FILES,
    TRAILING_NUMBERS, TRUNCATED, UNKNOWN_COMMAND, WORDS,
};
pub use table::{FAULTS, FaultKind, fault_kind};
