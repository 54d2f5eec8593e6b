// A law of readers that read several files. The call does nothing when it runs.
ghost use Rattle.std.specs.Prelude.{◌≡◌, List, ℕ};
ghost use Rattle.spec_files.specs.Sections.{FileLine};
ghost use Rattle.de_header.specs.declared.state.State.{State};
ghost use Rattle.de_header.specs.Reader.{IsOpen, says};

/// States that what a reader that wants more lines says of further lines does not depend on the file that they are
/// in. So its state can be handed from one file to the next.
pub fn open_readers_say_the_same_in_every_file()
    ensures { (state : State) (lines : List FileLine) (f g : ℕ) → IsOpen state
        → says f state lines ≡ says g state lines }
{}
