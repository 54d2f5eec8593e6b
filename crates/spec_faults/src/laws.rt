// Laws of the table of faults. Each is the contract of a function that does nothing.
ghost use Rattle.std.specs.Prelude.{◌≡◌, ◌∷◌, [], IsTrue, None, Some, codes, drop, false, take, true};
ghost use Rattle.spec_faults.specs.Faults.{fault_kind, kinds, rise_from};
ghost use Rattle.spec_faults.specs.Rows.{row};

/// States that the rows of the table of faults stand in rising order of their numbers, starting above 0, so that no two
/// faults share a number.
pub fn fault_numbers_rise()
    ensures { IsTrue (rise_from 0 kinds) }
{}

/// States that a fault's row is found by its number: shown for the numbers 4, 11, 39, 63 and 72, one of each range. The
/// number 23, which has no row, gives `None`.
#[tactic(auto, unfolding(crate::specs::Faults::fault_kind))]
pub fn faults_are_looked_up()
    ensures whole_file { fault_kind 4
        ≡ Some (record { number = 4; name = codes "LineTooLong"; has_detail = false }) }
    ensures header { fault_kind 11
        ≡ Some (record { number = 11; name = codes "GroupMissing"; has_detail = true }) }
    ensures block { fault_kind 39
        ≡ Some (record { number = 39; name = codes "TrailingNumbers"; has_detail = false }) }
    ensures words { fault_kind 63
        ≡ Some (record { number = 63; name = codes "BadValue"; has_detail = false }) }
    ensures certificate { fault_kind 72
        ≡ Some (record { number = 72; name = codes "CertPlace"; has_detail = false }) }
    ensures no_row { fault_kind 23 ≡ None }
{}

/// States all 38 rows of the table of faults, each with its number, its name and whether a detail is printed: for whole
/// files (4 to 6), a header (10 to 22), a block (30 to 39), an event (50 to 52), words (60 to 63) and a certificate (70
/// to 74).
pub fn the_table_has_38_rows()
    ensures files { take 3 kinds ≡
        row 4 (codes "LineTooLong") false ∷
        row 5 (codes "TooManyFiles") false ∷
        row 6 (codes "FileTooLarge") false ∷
        [] }
    ensures header { take 13 (drop 3 kinds) ≡
        row 10 (codes "FirstLine") false ∷
        row 11 (codes "GroupMissing") true ∷
        row 12 (codes "JdNotWholeSecond") false ∷
        row 13 (codes "CountMismatch") false ∷
        row 14 (codes "EmratMissing") false ∷
        row 15 (codes "EmratRange") false ∷
        row 16 (codes "ColumnCount") false ∷
        row 17 (codes "ColumnPlace") false ∷
        row 18 (codes "CoefficientCount") false ∷
        row 19 (codes "GranuleNotWhole") false ∷
        row 20 (codes "Limit") false ∷
        row 21 (codes "HeaderNumber") true ∷
        row 22 (codes "Ended") false ∷
        [] }
    ensures block { take 10 (drop 16 kinds) ≡
        row 30 (codes "RecordLine") false ∷
        row 31 (codes "NcoeffDiffers") false ∷
        row 32 (codes "BlockSpan") false ∷
        row 33 (codes "BlockGap") false ∷
        row 34 (codes "Number") true ∷
        row 35 (codes "TooLarge") false ∷
        row 36 (codes "Truncated") false ∷
        row 37 (codes "NoBlock") false ∷
        row 38 (codes "TooManyBlocks") false ∷
        row 39 (codes "TrailingNumbers") false ∷
        [] }
    ensures event { take 3 (drop 26 kinds) ≡
        row 50 (codes "BodyAbsent") false ∷
        row 51 (codes "SameBody") false ∷
        row 52 (codes "ReferenceRange") false ∷
        [] }
    ensures words { take 4 (drop 29 kinds) ≡
        row 60 (codes "NoCommand") false ∷
        row 61 (codes "UnknownCommand") false ∷
        row 62 (codes "Words") false ∷
        row 63 (codes "BadValue") false ∷
        [] }
    ensures certificate { drop 33 kinds ≡
        row 70 (codes "CertLine") false ∷
        row 71 (codes "CertRequest") false ∷
        row 72 (codes "CertPlace") false ∷
        row 73 (codes "CertMark") false ∷
        row 74 (codes "CertEnd") false ∷
        [] }
{}
