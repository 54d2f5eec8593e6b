// Laws of this crate's definitions, with small cases. The calls do nothing when they run.
ghost use Rattle.std.specs.Prelude.{◌≡◌, ◌≢◌, ◌^◌, ◌-◌, List, ℕ, [], ◌∷◌, None, Some, codes};
ghost use Rattle.gf_edges.specs.Edges.{Files, Lacks, Opens, Rose, file_of, raised};
ghost use Rattle.gf_edges.specs.States.{SinkState, given, taken};

/// States that a file is found by its whole name, the empty one too, that of two files with one name the first counts,
/// and that files with other names are skipped. Shown with lists of `a`, `b` and `ab`; then for all names. Unknown
/// files lack none.
pub fn files_are_found_by_their_whole_name()
    ensures first_of_two { file_of (codes "a")
        ((codes "b", 1 ∷ []) ∷ (codes "a", 2 ∷ []) ∷ (codes "a", 3 ∷ []) ∷ [])
        ≡ Some (2 ∷ []) }
    ensures missing { file_of (codes "a") ((codes "ab", 1 ∷ []) ∷ ([], 2 ∷ []) ∷ []) ≡ None }
    ensures empty_name { file_of [] ((codes "ab", 1 ∷ []) ∷ ([], 2 ∷ []) ∷ []) ≡ Some (2 ∷ []) }
    ensures opens { Opens (Some ((codes "a", 1 ∷ 2 ∷ []) ∷ [])) (codes "a") (Some (1 ∷ 2 ∷ [])) }
    ensures told_missing { Lacks (Some []) (codes "a") }
    ensures not_told { Lacks None (codes "a") → ⊥ }
    ensures first_counts { (name bytes : List ℕ) (rest : Files)
        → file_of name ((name, bytes) ∷ rest) ≡ Some bytes }
    ensures others_are_skipped { (name other bytes : List ℕ) (rest : Files)
        → other ≢ name → file_of name ((other, bytes) ∷ rest) ≡ file_of name rest }
{}

/// States that a count of faults rises by one up to 2^64 - 1 and then stays there. From 4 to 5 it rose, from 4 to 4 it
/// did not, and at 2^64 - 1 it counts as risen though it stayed.
pub fn counts_of_faults_stay_at_their_last_value()
    ensures by_one { raised 4 ≡ 5 }
    ensures at_last { raised (2 ^ 64 - 1) ≡ 2 ^ 64 - 1 }
    ensures rose { Rose 4 5 }
    ensures stayed { Rose 4 4 → ⊥ }
    ensures last_counts_as_risen { Rose (2 ^ 64 - 1) (2 ^ 64 - 1) }
{}

/// States how many bytes a read gives, as the least of what is left (3, 1 or 0), the buffer's length (4, 1 or 2) and
/// the limit of one read (2). A write of 3 bytes to a sink with room for 5, which holds 3, takes 2.
pub fn reads_and_writes_are_as_long_as_can_be()
    ensures by_piece { given (1 ∷ 2 ∷ 3 ∷ []) (0 ∷ 0 ∷ 0 ∷ 0 ∷ []) 2 ≡ 2 }
    ensures by_buffer { given (1 ∷ 2 ∷ 3 ∷ []) (0 ∷ []) 2 ≡ 1 }
    ensures by_end { given (1 ∷ []) (0 ∷ 0 ∷ []) 2 ≡ 1 }
    ensures at_end { given [] (0 ∷ 0 ∷ []) 2 ≡ 0 }
    ensures by_room { (s : SinkState) → s.room ≡ 5 → s.piece ≡ 4 → s.bytes ≡ 1 ∷ 2 ∷ 3 ∷ []
        → taken (7 ∷ 8 ∷ 9 ∷ []) s ≡ 2 }
{}
