// The command `check`: the summary of the ephemeris in the files.
ghost use Rattle.std.specs.Prelude.{◌≡◌, ◌⊎◌, Err, IfErr, IfOk};
ghost use Rattle.spec_output.specs.Summary.{summary};
ghost use Rattle.spec_outcomes.specs.Outcomes.{summary_of};
ghost use Rattle.gf_find.specs.Outcomes.{FilesHaveOutcome, HoldEphemeris, texts_of};
ghost use Rattle.gf_find.specs.Reported.{AreNotOpened};

use crate::files::store_of_files;
use gf_edges::Shelf;
use gf_files::Rounding;
use spec_outcomes::Refusal;
use std::alloc::Global;
use window_text::summary_of_store;

/// Returns the summary of the ephemeris in the files of these names, or why there is none. Its numbers are not rounded,
/// since no search needs them. Without a name, or with too many, no file is opened.
pub(crate) fn summary_of_files<S: Shelf>(
    alloc: Global,
    shelf: &mut S,
    names: &[String],
) -> Result<Vec<u8>, Refusal>
    ensures summary { IfOk result (λ text. HoldEphemeris
        (S.files shelf.old) (texts_of names.now) (λ e. text.items ≡ summary e)) }
    ensures stopped { IfErr result (λ refusal. (refusal ≡ Refusal.Memory)
        ⊎ FilesHaveOutcome (S.files shelf.old) (texts_of names.now)
        (S.faults shelf.old) (S.faults shelf.new) summary_of (Err refusal)) }
    ensures unopened { AreNotOpened (texts_of names.now) → shelf.new ≡ shelf.old }
{
    let store = store_of_files(alloc, Rounding::AtEnd, shelf, names)?;
    let text = summary_of_store(alloc, &store)?;
    Ok(text)
}
