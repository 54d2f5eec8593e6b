// Laws of searches that count ticks. Each is the contract of a function that does nothing.
ghost use Rattle.std.specs.Prelude.{◌≡◌, ◌<◌, Err, List, Ok, Option, false, ℕ};
ghost use Rattle.spec_text.specs.declared.decimals.Decimal.{Decimal};
ghost use Rattle.spec_ephemeris.specs.Ephemeris.{Ephemeris, IsEphemeris};
ghost use Rattle.spec_ephemeris.specs.Ticks.{IsInSeconds, IsTick};
ghost use Rattle.spec_requests.specs.declared.request.FindAsk.{FindAsk};
ghost use Rattle.spec_requests.specs.declared.request.Relation.{Relation};
ghost use Rattle.spec_outcomes.specs.Asked.{TellsOfEvents, TellsOfSets, asked_in_ticks, files_in_ticks, lies_in};
ghost use Rattle.spec_outcomes.specs.Certificates.{certificate_by, certificate_of};
ghost use Rattle.spec_outcomes.specs.declared.refusal.Refusal.TheVariants.{Outside};
ghost use Rattle.spec_outcomes.specs.Outcomes.{report_by, report_of};
ghost use Rattle.spec_outcomes.specs.Queries.{IsQuery, query_of};
ghost use Rattle.spec_outcomes.specs.Sets.{IsSetQuery, set_of};

/// States that a search for windows, a certificate or a set is refused if the span that is asked for does not lie in
/// that of the files. The refusal names both spans in ticks.
pub fn spans_are_compared_in_ticks()
    ensures find { (find : FindAsk) (e : Ephemeris)
        → lies_in (asked_in_ticks find e) (files_in_ticks find e) ≡ false
        → report_of find e ≡ Err (Outside (asked_in_ticks find e) (files_in_ticks find e)) }
    ensures certificate { (find : FindAsk) (e : Ephemeris)
        → lies_in (asked_in_ticks find e) (files_in_ticks find e) ≡ false
        → certificate_of find e ≡ Err (Outside (asked_in_ticks find e) (files_in_ticks find e)) }
    ensures set { (find : FindAsk) (ref2 : Option Decimal) (relation : Relation) (e : Ephemeris)
        → lies_in (asked_in_ticks find e) (files_in_ticks find e) ≡ false
        → set_of find ref2 relation e ≡ Err (Outside (asked_in_ticks find e) (files_in_ticks find e)) }
{}

/// States that if windows, a certificate or a set are reported, they are right for the ticks of the span that was asked
/// for: they speak of positions at these very ticks, though the files count seconds.
pub fn searches_count_ticks()
    ensures find { (find : FindAsk) (e : Ephemeris) (text : List ℕ)
        → IsEphemeris e → IsInSeconds e → IsTick find.tick → 0 < e.blocks
        → IsQuery (query_of find) → report_of find e ≡ Ok text
        → TellsOfEvents find e (report_by find) text }
    ensures certificate { (find : FindAsk) (e : Ephemeris) (text : List ℕ)
        → IsEphemeris e → IsInSeconds e → IsTick find.tick → 0 < e.blocks
        → IsQuery (query_of find) → certificate_of find e ≡ Ok text
        → TellsOfEvents find e (certificate_by find) text }
    ensures set { (find : FindAsk) (ref2 : Option Decimal) (relation : Relation) (e : Ephemeris)
        (text : List ℕ)
        → IsEphemeris e → IsInSeconds e → IsTick find.tick → 0 < e.blocks
        → IsSetQuery (query_of find) → set_of find ref2 relation e ≡ Ok text
        → TellsOfSets find ref2 relation e text }
{}
