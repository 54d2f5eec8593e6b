// Worked lines of reports. The calls do nothing when they run.
ghost use Rattle.std.specs.Prelude.{◌≡◌, ◌∷◌, ◌++◌, [], None, Some, codes, neg_ℤ, pos, ℤ, List};
ghost use Rattle.std.specs.Fmt.{decimal};
ghost use Rattle.spec_ephemeris.specs.declared.body.Body.TheVariants.{Venus};
ghost use Rattle.spec_events.specs.declared.dir.Dir.TheVariants.{Any};
ghost use Rattle.spec_requests.specs.Examples.{search_in};
ghost use Rattle.spec_requests.specs.declared.request.Relation.TheVariants.{Less};
ghost use Rattle.spec_trees.specs.declared.cuts.CutRule.TheVariants.{Half};
ghost use Rattle.spec_kinds.specs.declared.kind.Kind.TheVariants.{Apsis, Coord};
ghost use Rattle.spec_trees.specs.declared.tree.Turn.TheVariants.{Fall, Rise};
ghost use Rattle.spec_trees.specs.declared.window.Holds.TheVariants.{Certain, Undecided};
ghost use Rattle.spec_trees.specs.Examples.{window};
ghost use Rattle.spec_output.specs.Report.{axis_of_kind, end_line, generation, query_line, query_text, relation_text, report, request_line, scalar_report, second_name, set_lines, set_report, span_text, ticks_text, turns_text, verification, verified_line};
ghost use Rattle.spec_output.specs.Summary.{column_lines, column_name};

/// Works out what a report prints for an event's axis and second body: their name, as `y` or `venus`, or `-` if the
/// kind has no axis or no second body is named.
pub fn absent_values_are_printed_as_dashes()
    ensures axis { axis_of_kind Coord 1 ≡ codes "y" }
    ensures no_axis { axis_of_kind Apsis 1 ≡ codes "-" }
    ensures second { second_name (Some Venus) ≡ codes "venus" }
    ensures no_second { second_name None ≡ codes "-" }
{}

/// Works out the text of a request without its span, which is one line that names every option, and the line that
/// reports a checked certificate of 4 leaves.
pub fn requests_are_printed()
    ensures windows { query_text (codes "FIND ") (turns_text Any) (search_in (codes "a"))
        ≡ codes "FIND coord target mercury second - observer ssb frame eq axis x values 0 dir any width "
        ++ decimal 1 ++ (codes " depth " ++ decimal 40 ++ codes " cut half") }
    ensures verified { verified_line 4 ≡ codes "VERIFIED leaves " ++ decimal 4 ++ codes "\n" }
{}

/// Works out what the line of a request says of ticks: nothing if a second has one tick, else ` tick ` and their
/// number.
pub fn ticks_are_printed()
    ensures seconds { ticks_text 1 ≡ [] }
    ensures milliseconds { ticks_text 1_000 ≡ codes " tick " ++ decimal 1_000 }
{}

/// Works out the last line of a report with a rise, an undecided window and a fall: certain windows are counted
/// together, 2 here, whether they rise or fall, and undecided ones apart, 1 here.
pub fn windows_are_counted()
    ensures { end_line (record { first = pos 1; last = pos 1; holds = Certain Rise }
        ∷ record { first = pos 2; last = pos 5; holds = Undecided }
        ∷ record { first = pos 9; last = pos 9; holds = Certain Fall } ∷ [])
        ≡ codes "END certain " ++ decimal 2 ++ (codes " undecided " ++ decimal 1 ++ codes "\n") }
{}

/// Works out whole reports, with two windows and with none: the line of the request, a line for each window, and the
/// counts. That of a certificate has one line more, with its number of leaves; that of a generated text starts with its
/// blocks, seed and size.
pub fn reports_end_with_their_counts()
    ensures windows { report (search_in (codes "a")) (pos 1_339_000) (pos 1_339_400)
        (window (pos 1_339_200) (pos 1_339_200) (Certain Rise) ∷ window (pos 1_339_300) (pos 1_339_400) Undecided ∷ [])
        ≡ request_line (search_in (codes "a")) (pos 1_339_000) (pos 1_339_400) ++ codes "\n"
        ++ (codes "C " ++ span_text 1 (pos 1_339_200) (pos 1_339_200) ++ codes " rise\n"
        ++ (codes "U " ++ span_text 1 (pos 1_339_300) (pos 1_339_400) ++ codes "\n"))
        ++ codes "END certain 1 undecided 1\n" }
    ensures no_window { report (search_in (codes "a")) (pos 1_339_000) (pos 1_339_400) []
        ≡ request_line (search_in (codes "a")) (pos 1_339_000) (pos 1_339_400) ++ codes "\n"
        ++ codes "END certain 0 undecided 0\n" }
    ensures certificate { verification (search_in (codes "a")) (pos 1_339_000) (pos 1_339_400) [] 9
        ≡ request_line (search_in (codes "a")) (pos 1_339_000) (pos 1_339_400) ++ codes "\n"
        ++ codes "END certain 0 undecided 0\n" ++ codes "VERIFIED leaves 9\n" }
    ensures generated { generation 2 9 50 (window (pos 1) (pos 1) (Certain Rise) ∷ [])
        ≡ codes "GEN 405 blocks 2 seed 9 bytes 50\nEND certain 1 undecided 0\n" }
{}

/// Works out the report of a set of times: its first line names the relation in place of a direction, the sure spans
/// come before the possible ones, and the counts of both come last.
pub fn sets_are_printed()
    ensures line { query_text (codes "SET ") (relation_text Less) (record (search_in (codes "a")) {
      width = pos 60;
    }) ≡ codes "SET coord target mercury second - observer ssb frame eq axis x values 0 relation less width 60 depth 40 cut half" }
    ensures spans { set_lines 1 ((pos 1_339_000, pos 1_339_150) ∷ [])
        ((pos 1_339_000, pos 1_339_199) ∷ [])
        ≡ codes "S " ++ span_text 1 (pos 1_339_000) (pos 1_339_150) ++ codes "\n"
        ++ (codes "P " ++ span_text 1 (pos 1_339_000) (pos 1_339_199) ++ codes "\n")
        ++ codes "END sure 1 possible 1\n" }
    ensures report { (from to : ℤ) (surely perhaps : List (ℤ × ℤ))
        → set_report (search_in (codes "a")) Less from to surely perhaps
        ≡ query_line (codes "SET ") (codes " relation less") (search_in (codes "a")) from to
        ++ codes "\n" ++ set_lines 1 surely perhaps }
{}

/// Works out the report of the times from -50 to 50 at which t^2 - 100 passes 0, a fall at -9 and a rise at 10. Its
/// times are printed as whole numbers, not as calendar texts.
pub fn scalars_are_printed()
    ensures { scalar_report (record {
      p = pos 1;
      q = pos 0;
      r = neg_ℤ (pos 100);
      text = codes "1,0,-100";
      from = neg_ℤ (pos 50);
      to = pos 50;
      plan = record { dir = Any; width = 1; depth = 40; cut = Half };
      workers = 1;
    }) (record { first = neg_ℤ (pos 9); last = neg_ℤ (pos 9); holds = Certain Fall }
        ∷ record { first = pos 10; last = pos 10; holds = Certain Rise } ∷ [])
        ≡ codes "SCALAR quad 1,0,-100 dir any width 1 depth 40 cut half span -50 50\n"
        ++ codes "C -9 -9 fall\n" ++ codes "C 10 10 rise\n"
        ++ codes "END certain 2 undecided 0\n" }
{}

/// Works out the names of columns in a summary, by their numbers: a body's name for 1 to 11, `nutations` for 12,
/// `librations` for 13, and `column14` and `column15` for the two that are not read. An absent column has no line.
pub fn columns_have_names()
    ensures first { column_name 1 ≡ codes "mercury" }
    ensures moon { column_name 10 ≡ codes "moon" }
    ensures nutations { column_name 12 ≡ codes "nutations" }
    ensures librations { column_name 13 ≡ codes "librations" }
    ensures not_read { column_name 14 ≡ codes "column14" }
    ensures last { column_name 15 ≡ codes "column15" }
    ensures absent { column_lines 1 (record { start = 3; coefs = 0; granules = 4 } ∷ []) ≡ [] }
{}
