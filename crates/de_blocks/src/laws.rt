// What readers say in several files.
ghost use Rattle.std.specs.Prelude.{◌≡◌, List, ℕ};
ghost use Rattle.spec_files.specs.Sections.{FileLine};
ghost use Rattle.de_blocks.specs.Reader.{IsNotRefused, Progress, says};

/// States that what a reader of blocks that met no fault says of further lines does not depend on the file that they
/// are in. So its state can be handed from one file to the next.
pub fn readers_of_blocks_say_the_same_in_every_file()
    ensures { (reader : Progress) (lines : List FileLine) (f g : ℕ)
        → IsNotRefused reader → says f reader lines ≡ says g reader lines }
{}
