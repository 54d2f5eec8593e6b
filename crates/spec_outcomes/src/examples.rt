// Worked causes and statuses. The calls do nothing when they run.
ghost use Rattle.std.specs.Prelude.{◌≡◌, None, Some, codes, false, pos, true};
ghost use Rattle.spec_kinds.specs.declared.fault.EventFault.TheVariants.{SameBody};
ghost use Rattle.spec_outcomes.specs.declared.refusal.Refusal.TheVariants.{Certificate, Event, File, Memory, NotRead, Outside, TooManyLeaves, Words};
ghost use Rattle.spec_outcomes.specs.Outcomes.{cause_by};
ghost use Rattle.spec_outcomes.specs.Refusals.{status_of};

use crate::query::Span;
use crate::statuses::{NOT_WRITTEN, REPORTED};

/// Works out which cause is reported against a search: a span outside that of the files before a fault of the event,
/// here `SameBody`, and none if there is neither.
pub fn spans_are_refused_before_events()
    ensures span { (span whole : Span)
        → cause_by false (Some SameBody) span whole ≡ Some (Outside span whole) }
    ensures event { (span whole : Span)
        → cause_by true (Some SameBody) span whole ≡ Some (Event SameBody) }
    ensures none { (span whole : Span) → cause_by true None span whole ≡ None }
{}

/// Works out the exit status of each cause for which a run writes no text: 2 for words, 3 for files, 4 if one is not
/// read, 6 for the span, 7 for the event, 8 out of memory, 9 for too many leaves and 10 for a certificate.
pub fn statuses_of_causes_are_from_2_to_10()
    ensures words { status_of (Words 60 None) ≡ 2 }
    ensures files { status_of (File (codes "a") (record { line = 5; number = 20; detail = 0 })) ≡ 3 }
    ensures not_read { status_of (NotRead (codes "a")) ≡ 4 }
    ensures span { status_of (Outside (record { from = pos 5; upto = pos 5 })
        (record { from = pos 0; upto = pos 9 })) ≡ 6 }
    ensures event { status_of (Event SameBody) ≡ 7 }
    ensures memory { status_of Memory ≡ 8 }
    ensures leaves { status_of (TooManyLeaves 4_194_304) ≡ 9 }
    ensures certificate { status_of (Certificate 5 73) ≡ 10 }
{}

/// States the exit statuses of runs that have a text: 0 if it was written whole, and 5 if not.
pub fn statuses_of_texts_are_0_and_5()
    ensures whole { REPORTED ≡ 0 }
    ensures part { NOT_WRITTEN ≡ 5 }
{}
