// What is true of files that are known in one way alone.
ghost use Rattle.std.specs.Prelude.{◌≡◌, ◌⊎◌, List, Some, ℕ};
ghost use Rattle.spec_text.specs.declared.decimals.Fault.{Fault};
ghost use Rattle.gf_edges.specs.Edges.{Files, Rose};
ghost use Rattle.spec_files.specs.Reading.{AreRefused, IsNotRead};

/// States that known files are refused in one way only, for one fault in one file. If the count of faults of the
/// outside did not rise, only one file can be the first that is not read.
#[tactic(none)]
pub fn files_are_refused_in_one_way()
    ensures refused { (files : Files) (names : List (List ℕ)) (file place : ℕ) (fault other : Fault)
        → AreRefused (Some files) names file fault → AreRefused (Some files) names place other
        → (file ≡ place) × (fault ≡ other) }
    ensures not_read { (files : Files) (names : List (List ℕ)) (before now file place : ℕ)
        → IsNotRead (Some files) names before now file
        → IsNotRead (Some files) names before now place → Rose before now ⊎ (file ≡ place) }
{}
