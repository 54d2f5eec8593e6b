// Laws of the sets of every relation. Each is the contract of a function that does nothing.
ghost use Rattle.std.specs.Prelude.{◌≡◌, ◌<◌, Err, None, Ok, Option, Some, false, true};
ghost use Rattle.spec_text.specs.declared.decimals.Decimal.{Decimal};
ghost use Rattle.spec_ephemeris.specs.Ephemeris.{Ephemeris, IsEphemeris};
ghost use Rattle.spec_sets.specs.Pairs.{AreSets, possible_spans, sure_spans};
ghost use Rattle.spec_kinds.specs.declared.fault.EventFault.{EventFault};
ghost use Rattle.spec_kinds.specs.Faults.{fault_of};
ghost use Rattle.spec_requests.specs.declared.request.FindAsk.{FindAsk};
ghost use Rattle.spec_requests.specs.declared.request.Relation.{Relation};
ghost use Rattle.spec_requests.specs.Limits.{IsSetWithinLimits};
ghost use Rattle.spec_output.specs.declared.limits.TheConstants.{MAX_LEAVES};
ghost use Rattle.spec_outcomes.specs.declared.refusal.Refusal.TheVariants.{Event, Outside};
ghost use Rattle.spec_outcomes.specs.Outcomes.{cause_of, searched};
ghost use Rattle.spec_outcomes.specs.Queries.{is_within, leaves_in, query_of, search, whole_span};
ghost use Rattle.spec_outcomes.specs.Sets.{IsRelated, IsSetQuery, other_query, related_signs, signs_found};

use crate::query::{Query, Span};
use crate::refusal::Refusal;

/// States that each sure time of a set has the relation and each time with the relation is possible, over a checked
/// ephemeris, if no cause stands against the search about either reference.
pub fn sets_meet_their_relation()
    ensures { (relation : Relation) (q r : Query) (e : Ephemeris) (span : Span)
        → IsEphemeris e → 0 < e.blocks → IsSetQuery q → IsSetQuery r
        → cause_of q e span ≡ None → cause_of r e span ≡ None
        → AreSets (IsRelated relation (search q e) (search r e)) span.from span.upto
        (sure_spans (related_signs relation (search q e) (search r e) span) span.from span.upto)
        (possible_spans (related_signs relation (search q e) (search r e) span) span.from span.upto) }
{}

/// States that the words of `set` within their limits ask for a query that has sets, and that the same query about the
/// second reference has them too.
pub fn words_of_sets_ask_for_queries_with_sets()
    ensures asked { (find : FindAsk) (ref2 : Option Decimal) (relation : Relation)
        → IsSetWithinLimits find ref2 relation → IsSetQuery (query_of find) }
    ensures other { (q : Query) (ref2 : Option Decimal) → IsSetQuery q
        → IsSetQuery (other_query q ref2) }
{}

/// States for which cause a set is refused if several stand against it: the span first, then a fault of the event about
/// the first and about the second reference, then too many leaves of either search.
pub fn sets_are_refused_for_their_first_cause()
    ensures outside { (relation : Relation) (q r : Query) (e : Ephemeris) (span : Span)
        → is_within span e ≡ false
        → signs_found relation q r e span ≡ Err (Outside span (whole_span e)) }
    ensures first { (relation : Relation) (q r : Query) (e : Ephemeris) (span : Span)
        → is_within span e ≡ true → (fault : EventFault) → fault_of e q.ask ≡ Some fault
        → signs_found relation q r e span ≡ Err (Event fault) }
    ensures second { (relation : Relation) (q r : Query) (e : Ephemeris) (span : Span)
        → is_within span e ≡ true → fault_of e q.ask ≡ None
        → (fault : EventFault) → fault_of e r.ask ≡ Some fault
        → signs_found relation q r e span ≡ Err (Event fault) }
    ensures first_leaves { (relation : Relation) (q r : Query) (e : Ephemeris) (span : Span)
        → is_within span e ≡ true → fault_of e q.ask ≡ None → fault_of e r.ask ≡ None
        → (refusal : Refusal) → searched MAX_LEAVES (search q e) span ≡ Err refusal
        → signs_found relation q r e span ≡ Err refusal }
    ensures second_leaves { (relation : Relation) (q r : Query) (e : Ephemeris) (span : Span)
        → is_within span e ≡ true → fault_of e q.ask ≡ None → fault_of e r.ask ≡ None
        → searched MAX_LEAVES (search q e) span ≡ Ok (leaves_in (search q e) span)
        → (refusal : Refusal) → searched MAX_LEAVES (search r e) span ≡ Err refusal
        → signs_found relation q r e span ≡ Err refusal }
{}
