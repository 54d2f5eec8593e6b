// Laws of the definitions of files. Each is the contract of a function that does nothing.
ghost use Rattle.std.specs.Prelude.{◌≡◌, ◌++◌, ◌+◌, ◌<◌, List, None, Some, Ok, Err, length, ℕ};
ghost use Rattle.spec_text.specs.declared.decimals.Fault.{Fault};
ghost use Rattle.spec_ephemeris.specs.Ephemeris.{Ephemeris, IsEphemeris};
ghost use Rattle.spec_ephemeris.specs.Ticks.{IsInSeconds};
ghost use Rattle.spec_files.specs.Sections.{FileLine};
ghost use Rattle.spec_files.specs.Lines.{ephemeris};
ghost use Rattle.gf_edges.specs.Edges.{Files, Rose};
ghost use Rattle.spec_files.specs.Texts.{first_cut_from, joined_from};
ghost use Rattle.spec_files.specs.Outcome.{first_fault, outcome};
ghost use Rattle.spec_files.specs.Reading.{AreAccepted, AreRefused, IsNotRead};

/// States that lines that are accepted as a header and its blocks are a checked ephemeris with at least one block.
#[tactic(none)]
pub fn accepted_lines_are_an_ephemeris()
    ensures checked { (lines : List FileLine) (e : Ephemeris)
        → ephemeris lines ≡ Ok e → IsEphemeris e }
    ensures some { (lines : List FileLine) (e : Ephemeris)
        → ephemeris lines ≡ Ok e → 0 < e.blocks }
{}

/// States that the ephemeris of accepted lines counts its times in seconds, and lies from Julian date 0 to Julian date
/// 5,000,000.
#[tactic(none)]
pub fn accepted_lines_count_seconds()
    ensures { (lines : List FileLine) (e : Ephemeris) → ephemeris lines ≡ Ok e → IsInSeconds e }
{}

/// States that if no line of the first texts is too long, the lines of later texts follow theirs, with files numbered
/// on, and the first line that is too long of all texts is that of the later ones.
#[tactic(auto, using(crate::proofs::Joining::joined_more, crate::proofs::Joining::cut_more))]
pub fn lines_of_later_texts_follow()
    ensures lines { (file : ℕ) (texts later : List (List ℕ)) → first_cut_from file texts ≡ None
        → joined_from file (texts ++ later)
        ≡ joined_from file texts ++ joined_from (file + length texts) later }
    ensures cuts { (file : ℕ) (texts later : List (List ℕ)) → first_cut_from file texts ≡ None
        → first_cut_from file (texts ++ later) ≡ first_cut_from (file + length texts) later }
{}

/// States that the first fault of texts, in its file, stays the first fault of all, whatever texts follow them.
#[tactic(auto, using(crate::proofs::FirstFault::first_fault_stays))]
pub fn first_faults_stay()
    ensures { (texts later : List (List ℕ)) (file : ℕ) (fault : Fault)
        → first_fault texts ≡ Some (file, fault)
        → first_fault (texts ++ later) ≡ Some (file, fault) }
{}

/// States that texts that have a first fault whatever follows them are refused for it, in the same file.
#[tactic(auto, using(crate::proofs::Joining::first_fault_refused))]
pub fn texts_with_a_fault_are_refused()
    ensures { (texts : List (List ℕ)) (file : ℕ) (fault : Fault)
        → first_fault texts ≡ Some (file, fault) → outcome texts ≡ Err (file, fault) }
{}

/// States that known files have only one outcome: accepted as one ephemeris, refused, or with a first file that is not
/// read. Only if the count of faults of the outside rose may files that would be accepted or refused not be read.
#[tactic(none)]
pub fn one_answer_is_true()
    ensures accepted { (files : Files) (names : List (List ℕ)) (e f : Ephemeris) (end stop : ℕ)
        → AreAccepted (Some files) names e end → AreAccepted (Some files) names f stop
        → (e ≡ f) × (end ≡ stop) }
    ensures not_refused { (files : Files) (names : List (List ℕ)) (e : Ephemeris)
        (end file : ℕ) (fault : Fault)
        → AreAccepted (Some files) names e end → AreRefused (Some files) names file fault → ⊥ }
    ensures accepted_is_read { (files : Files) (names : List (List ℕ)) (e : Ephemeris)
        (end before now file : ℕ)
        → AreAccepted (Some files) names e end → IsNotRead (Some files) names before now file
        → Rose before now }
    ensures refused_is_read { (files : Files) (names : List (List ℕ)) (place : ℕ) (fault : Fault)
        (before now file : ℕ)
        → AreRefused (Some files) names place fault → IsNotRead (Some files) names before now file
        → Rose before now }
{}
