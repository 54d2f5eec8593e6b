// Worked examples of a cursor's steps.
ghost use Rattle.std.specs.Prelude.{◌≡◌, [], ◌∷◌, codes, replicate};
ghost use Rattle.spec_text.specs.Lines.{text_lines};
ghost use Rattle.de_text.specs.Steps.{lines_after, step_of};
ghost use Rattle.de_text.specs.declared.cursor.LineStep.TheVariants.{End, Line, TooLong};

/// Works out steps of a cursor over lines. It skips blank lines but counts them: the first line that it meets in one
/// text is line 3. It takes 4,096 blanks as a blank line, and stays at a line of 4,097.
pub fn a_cursor_steps_from_line_to_line()
    ensures first { step_of (text_lines (codes "\n \nEMRAT  81.3\r\nlast"))
        ≡ Line (record { number = 3; tokens = codes "EMRAT" ∷ codes "81.3" ∷ [] }) }
    ensures second { step_of (lines_after (text_lines (codes "\n \nEMRAT  81.3\r\nlast")))
        ≡ Line (record { number = 4; tokens = codes "last" ∷ [] }) }
    ensures end { step_of (text_lines (codes "\n \n\t")) ≡ End }
    ensures longest { step_of (text_lines (replicate 4096 32)) ≡ End }
    ensures too_long { step_of (text_lines (replicate 4097 32)) ≡ TooLong 1 }
    ensures again { step_of (lines_after (record { number = 7; bytes = replicate 4097 32 } ∷ []))
        ≡ TooLong 7 }
{}
