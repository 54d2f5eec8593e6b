// The table of all faults.
ghost use Rattle.std.specs.Prelude.{◌≡◌, IfNone, IfSome, None, Some};
ghost use Rattle.spec_faults.specs.Faults.{fault_kind, kind_among, kinds_of};
ghost use Rattle.spec_faults.specs.Shown.{kind_of};

use crate::numbers::*;

/// All faults, in the order of their numbers: the number under which one is reported, its name, and whether a detail is
/// printed after the name.
pub const FAULTS: [(u8, &str, bool); 38] = [
    (LINE_TOO_LONG, "LineTooLong", false),
    (TOO_MANY_FILES, "TooManyFiles", false),
    (FILE_TOO_LARGE, "FileTooLarge", false),
    (FIRST_LINE, "FirstLine", false),
    (GROUP_MISSING, "GroupMissing", true),
    (JD_NOT_WHOLE_SECOND, "JdNotWholeSecond", false),
    (COUNT_MISMATCH, "CountMismatch", false),
    (EMRAT_MISSING, "EmratMissing", false),
    (EMRAT_RANGE, "EmratRange", false),
    (COLUMN_COUNT, "ColumnCount", false),
    (COLUMN_PLACE, "ColumnPlace", false),
    (COEFFICIENT_COUNT, "CoefficientCount", false),
    (GRANULE_NOT_WHOLE, "GranuleNotWhole", false),
    (LIMIT, "Limit", false),
    (HEADER_NUMBER, "HeaderNumber", true),
    (ENDED, "Ended", false),
    (RECORD_LINE, "RecordLine", false),
    (NCOEFF_DIFFERS, "NcoeffDiffers", false),
    (BLOCK_SPAN, "BlockSpan", false),
    (BLOCK_GAP, "BlockGap", false),
    (NUMBER, "Number", true),
    (TOO_LARGE, "TooLarge", false),
    (TRUNCATED, "Truncated", false),
    (NO_BLOCK, "NoBlock", false),
    (TOO_MANY_BLOCKS, "TooManyBlocks", false),
    (TRAILING_NUMBERS, "TrailingNumbers", false),
    (BODY_ABSENT, "BodyAbsent", false),
    (SAME_BODY, "SameBody", false),
    (REFERENCE_RANGE, "ReferenceRange", false),
    (NO_COMMAND, "NoCommand", false),
    (UNKNOWN_COMMAND, "UnknownCommand", false),
    (WORDS, "Words", false),
    (BAD_VALUE, "BadValue", false),
    (CERT_LINE, "CertLine", false),
    (CERT_REQUEST, "CertRequest", false),
    (CERT_PLACE, "CertPlace", false),
    (CERT_MARK, "CertMark", false),
    (CERT_END, "CertEnd", false),
];

/// One kind of fault: how it is reported.
#[derive(Clone, Copy, PartialEq, Eq)]
pub struct FaultKind {
    /// The number under which it is reported.
    pub number: u8,
    /// Its name, as it is printed after the number.
    pub name: &'static str,
    /// Whether a detail is printed after the name.
    pub has_detail: bool,
}

/// Returns the row of the table of faults that has this number, or `None` if no fault is reported under it.
pub fn fault_kind(number: u8) -> Option<FaultKind>
    ensures found { IfSome result (λ kind. fault_kind number ≡ Some (kind_of kind)) }
    ensures not_found { IfNone result (fault_kind number ≡ None) }
{
    kind_among(&FAULTS, number)
}

// Returns the first of the given rows that has this number, or `None` if none has it. The rows are a parameter because
// the search calls itself on the rest of the table.
fn kind_among(rows: &[(u8, &'static str, bool)], number: u8) -> Option<FaultKind>
    ensures found { IfSome result (λ kind.
        kind_among (kinds_of rows.now) number ≡ Some (kind_of kind)) }
    ensures not_found { IfNone result (kind_among (kinds_of rows.now) number ≡ None) }
{
    match rows {
        [(found, name, has_detail), rest @ ..] => {
            if *found == number {
                Some(FaultKind {
                    number,
                    name,
                    has_detail: *has_detail,
                })
            } else {
                kind_among(rest, number)
            }
        }
        [] => None,
    }
}
