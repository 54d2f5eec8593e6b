// Laws of the definitions of texts, with small cases. Each is the contract of a function that does nothing.
ghost use Rattle.std.specs.Prelude.{◌≡◌, [], ◌∷◌, ◌++◌, None, Some, codes, ℤ};
ghost use Rattle.std.specs.Fmt.{decimal};
ghost use Rattle.spec_text.specs.Printed.{IsLine};
ghost use Rattle.spec_requests.specs.declared.request.FindAsk.{FindAsk};
ghost use Rattle.spec_requests.specs.Limits.{IsWithinLimits};
ghost use Rattle.spec_output.specs.Messages.{event_text, leaves_text, title, words_text};
ghost use Rattle.spec_output.specs.declared.limits.TheConstants.{MAX_LEAVES};
ghost use Rattle.spec_output.specs.Report.{request_line};
ghost use Rattle.spec_output.specs.Writing.{AppendsPart};

/// Works out the titles of faults: the name, followed by the detail if the fault has one, as `GroupMissing 1030`. The
/// number 23, which is not in the table of faults, has an empty title.
pub fn faults_have_titles()
    ensures name { title 6 0 ≡ codes "FileTooLarge" }
    ensures detail { title 11 1030 ≡ codes "GroupMissing " ++ decimal 1030 }
    ensures words { title 60 0 ≡ codes "NoCommand" }
    ensures no_row { title 23 0 ≡ [] }
{}

/// Works out the lines that are printed for a command line without a word (fault 60), and for one with a bad option
/// (fault 63), here `width`.
pub fn bad_command_lines_are_reported_with_their_fault()
    ensures no_word { words_text 60 None ≡ codes "finder: words: 60 NoCommand\n" }
    ensures option { words_text 63 (Some (codes "width"))
        ≡ codes "finder: words: 63 BadValue width\n" }
{}

/// Works out the line that is printed for each of the three faults of an event, 50 to 52.
pub fn faults_of_events_are_reported_by_number_and_name()
    ensures absent { event_text 50 ≡ codes "finder: event: 50 BodyAbsent\n" }
    ensures same { event_text 51 ≡ codes "finder: event: 51 SameBody\n" }
    ensures reference { event_text 52 ≡ codes "finder: event: 52 ReferenceRange\n" }
{}

/// Works out the line that is printed if a search has too many leaves: more than 33,554,432 for its windows, or more
/// than 4,194,304 for its certificate.
pub fn too_many_leaves_are_reported_with_their_limit()
    ensures windows { leaves_text MAX_LEAVES ≡ codes "finder: more than 33554432 leaves\n" }
    ensures certificate { leaves_text 4_194_304 ≡ codes "finder: more than 4194304 leaves\n" }
{}

/// Works out what a sink that held 1 may hold after writing 2 and 3 failed: 1 and 2, or 1 alone, but not 1, 2 and 3,
/// which would be the whole text.
pub fn failed_writes_leave_a_prefix()
    ensures prefix { AppendsPart (Some (1 ∷ [])) (Some (1 ∷ 2 ∷ [])) (2 ∷ 3 ∷ []) }
    ensures nothing { AppendsPart (Some (1 ∷ [])) (Some (1 ∷ [])) (2 ∷ 3 ∷ []) }
    ensures not_all { AppendsPart (Some (1 ∷ [])) (Some (1 ∷ 2 ∷ 3 ∷ [])) (2 ∷ 3 ∷ []) → ⊥ }
{}

/// States that the line of a request within its limits, over any span, is one line of a text: it has words, at most
/// 4,096 bytes, no line feed, and no carriage return at its end.
pub fn the_line_of_a_request_is_a_line()
    ensures { (find : FindAsk) (from to : ℤ) → IsWithinLimits find
        → IsLine (request_line find from to) }
{}
