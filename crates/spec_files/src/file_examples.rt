// Worked examples of the definitions of files. The calls do nothing when they run.
ghost use Rattle.std.specs.Prelude.{◌≡◌, ◌+◌, ◌<◌, [], ◌∷◌, ◌++◌, Err, List, None, Some, codes, length, replicate, ℕ};
ghost use Rattle.spec_text.specs.declared.limits.TheConstants.{MAX_TEXT_BYTES};
ghost use Rattle.spec_text.specs.declared.decimals.Fault.{Fault};
ghost use Rattle.spec_faults.specs.declared.numbers.TheConstants.{ENDED, FIRST_LINE, LINE_TOO_LONG, TOO_MANY_FILES};
ghost use Rattle.spec_files.specs.Files.{AreFiles, FewAreTaken, HasLeft, IsFile, IsLongFile};
ghost use Rattle.spec_files.specs.Outcome.{first_fault, outcome};
ghost use Rattle.spec_files.specs.Reading.{AreTooMany};
ghost use Rattle.spec_files.specs.Texts.{at_end, first_cut, fault_at, joined};

/// Works out the lines of two texts as one list: each line that is not blank keeps its file, counted from 0, its number
/// in it, counted from 1, and its words. Texts that end too early are refused at the last line of the last file, here
/// line 3 of file 1.
#[tactic(none)]
pub fn lines_keep_their_file_and_number()
    ensures lines { joined (codes "KSIZE= 52\n\nGROUP\n" ∷ codes "1030" ∷ [])
        ≡ record { file = 0; number = 1; words = codes "KSIZE=" ∷ codes "52" ∷ [] }
        ∷ record { file = 0; number = 3; words = codes "GROUP" ∷ [] }
        ∷ record { file = 1; number = 1; words = codes "1030" ∷ [] } ∷ [] }
    ensures end { at_end (codes "KSIZE= 52\n\nGROUP\n" ∷ codes "1030\n " ∷ []) ENDED
        ≡ (1, fault_at 3 ENDED) }
{}

/// Works out the first faults of texts, with their files. A line of more than 4,096 bytes is refused, and nothing after
/// it is read; a broken rule on an earlier line counts first. That texts end too early is no fault while others may
/// follow.
#[tactic(none)]
pub fn texts_are_refused_at_their_first_fault()
    ensures whole { first_cut (codes "1\n2" ∷ [] ∷ []) ≡ None }
    ensures long { first_cut (codes "1" ∷ (codes "2\n" ++ replicate 4097 32) ∷ codes "3" ∷ [])
        ≡ Some (1, fault_at 2 LINE_TOO_LONG) }
    ensures read { joined (codes "1" ∷ (codes "2\n" ++ replicate 4097 32) ∷ codes "3" ∷ [])
        ≡ record { file = 0; number = 1; words = codes "1" ∷ [] }
        ∷ record { file = 1; number = 1; words = codes "2" ∷ [] } ∷ [] }
    ensures early { outcome (codes "KSIZE= 52 NCOEFF= 26\n" ∷ [] ∷ [])
        ≡ Err (1, fault_at 1 ENDED) }
    ensures not_yet { first_fault (codes "KSIZE= 52 NCOEFF= 26\n" ∷ [] ∷ []) ≡ None }
    ensures first { first_fault (codes "KSIZE= 52\n" ∷ replicate 4097 32 ∷ [])
        ≡ Some (0, fault_at 1 FIRST_LINE) }
{}

/// Works out what is said of files whose names and bytes are known: which bytes a file or a list of files has, that one
/// is longer than the limit, and how many bytes are taken or left. Nothing is said if no files are known (`None`).
pub fn bytes_of_known_files_are_told_by_name()
    ensures file { IsFile (Some ((codes "a", 7 ∷ 8 ∷ []) ∷ [])) (codes "a") (7 ∷ 8 ∷ []) }
    ensures files { AreFiles (Some ((codes "a", 7 ∷ []) ∷ (codes "b", 8 ∷ []) ∷ []))
        (codes "b" ∷ codes "a" ∷ []) ((8 ∷ []) ∷ (7 ∷ []) ∷ []) }
    ensures not_known { IsFile None (codes "a") (7 ∷ []) }
    ensures long { (bytes : List ℕ) → MAX_TEXT_BYTES < length bytes
        → IsLongFile (Some ((codes "a", bytes) ∷ [])) (codes "a") }
    ensures not_long { IsLongFile (Some ((codes "a", 7 ∷ 8 ∷ []) ∷ [])) (codes "a") → ⊥ }
    ensures left { HasLeft (Some ((codes "a", 7 ∷ 8 ∷ []) ∷ [])) (codes "a") 1 (Some (8 ∷ [])) }
    ensures taken { FewAreTaken (Some ((codes "a", 7 ∷ 8 ∷ []) ∷ [])) (codes "a") (Some (8 ∷ [])) }
    ensures taken_too_far { (bytes : List ℕ) → MAX_TEXT_BYTES + 1 < length bytes
        → FewAreTaken (Some ((codes "a", bytes) ∷ [])) (codes "a") (Some []) → ⊥ }
{}

/// Works out that a run with 64 files is not refused for their number, and that one with 65 is, as a fault of the file
/// with index 64 at line 0.
#[tactic(none)]
pub fn a_run_has_up_to_64_files()
    ensures most { (file : ℕ) (fault : Fault)
        → AreTooMany (replicate 64 (codes "a")) file fault → ⊥ }
    ensures too_many { AreTooMany (replicate 65 (codes "a")) 64 (fault_at 0 TOO_MANY_FILES) }
{}
