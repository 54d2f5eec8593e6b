// Times beside turns at which the conditions of an event are certified.
ghost use Rattle.std.specs.Prelude.{All, IfOk, IsTrue};
ghost use Rattle.still_judge.specs.EndSigns.{AreCertifiedAt};

use crate::conditions::are_conditions_certified;
use crate::still_list::StillList;
use event_judge::EventSearch;
use gf_hooks::differ;
use spec_stills::StillSpan;
use std::alloc::{AllocError, Global};

// Tells whether a wanted turn lies between two still spans, and each condition of the event is certified as the later
// one begins.
fn is_turn_certified(search: &EventSearch, before: StillSpan, after: StillSpan) -> bool
    ensures { IsTrue result → AreCertifiedAt search.now after.from }
{
    differ(search.event().dir(), before.sign, after.sign)
        && are_conditions_certified(search, after.from)
}

/// Returns the times, in order, at which still spans of a search begin after a wanted turn and each condition of the
/// event is certified. The only error is out of memory.
pub(crate) fn certified_times(
    alloc: Global,
    search: &EventSearch,
    stills: &StillList,
) -> Result<Vec<i64>, AllocError>
    ensures { IfOk result (λ times. All (AreCertifiedAt search.now) times.items) }
{
    let mut times = Vec::new(alloc);
    for place in 1..stills.len() {
        let after = stills.span_at(place);
        if is_turn_certified(search, stills.span_at(place - 1), after) {
            times.push(after.from)?;
        }
    }
    Ok(times)
}
