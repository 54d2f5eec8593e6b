// The call that the program makes.
ghost use Rattle.std.specs.Prelude.{◌≡◌, ◌≢◌, ◌⊎◌, List, ℕ, Option, Err, Ok};
ghost use Rattle.std.specs.Io.KnownBytes.{Appends, Keeps};
ghost use Rattle.spec_text.specs.declared.decimals.Decimal.{Decimal};
ghost use Rattle.spec_requests.specs.declared.request.FindAsk.{FindAsk};
ghost use Rattle.spec_requests.specs.declared.request.Relation.{Relation};
ghost use Rattle.spec_requests.specs.declared.request.ScalarAsk.{ScalarAsk};
ghost use Rattle.spec_requests.specs.declared.request.Request.TheVariants.{Find, Cert, Verify, Check, Gen, Set, Scalar};
ghost use Rattle.spec_requests.specs.Limits.{IsScalarWithinLimits};
ghost use Rattle.spec_requests.specs.Requests.{request_of};
ghost use Rattle.spec_output.specs.Messages.{memory_text, write_text};
ghost use Rattle.spec_output.specs.Writing.{AppendsPart, Receives};
ghost use Rattle.gf_edges.specs.Edges.{Rose};
ghost use Rattle.gf_find.specs.Outcomes.{Ask, HaveCause, HaveOutcome, HoldEphemeris, texts_of};
ghost use Rattle.spec_outcomes.specs.Queries.{IsQuery};
ghost use Rattle.spec_outcomes.specs.Refusals.{line_of, status_of};
ghost use Rattle.spec_outcomes.specs.Sets.{IsSetQuery};
ghost use Rattle.gf_find.specs.Finds.{ReportsEvents};
ghost use Rattle.gf_find.specs.Promises.{ReportsAllEvents};
ghost use Rattle.gf_find.specs.Certifies.{ReportsCertificate};
ghost use Rattle.gf_find.specs.Verifies.{ReportsVerified};
ghost use Rattle.gf_find.specs.Checks.{ReportsSummary};
ghost use Rattle.gf_find.specs.Generates.{ReportsGeneration};
ghost use Rattle.gf_find.specs.Sets.{ReportsSet};
ghost use Rattle.gf_find.specs.Scalars.{ReportsScalar};
ghost use Rattle.gf_find.specs.Reported.{KnowsFiles, OpensNone, ReportsPart, ReportsWhole};
ghost use Rattle.gf_find.specs.Searchers.{AreLeavesReturned, ArePassingsReturned, AreTimesReturned, IsSearchable};

use crate::answer::text_by;
use crate::messages::line_of_refusal;
use crate::writing::{write_line, write_whole_text};
use eph_model::Ephemeris;
use gf_edges::{Failed, Gate, Shelf, Sink};
use gf_search::{Crew, leaves, related, search_scalar};
use spec_outcomes::{NOT_WRITTEN, OUT_OF_MEMORY, Query, REPORTED, Refusal};
use spec_requests::ScalarAsk;
use std::alloc::{AllocError, Global};
use std::sync::Wait;
use std::thread::Threads;

/// Does what the words of the command line, without the program's name, ask for: writes a text to `out`, or the line of
/// an error to `err`, and returns the status. The words are `find`, `cert`, `verify` or `set` with options and files, `check`
/// with files, `gen` with a layout, a number of blocks and a seed, or `scalar` with options.
///
/// | Status | Meaning |
/// |---|---|
/// | 0 | the report, the certificate, the summary, the sets or the lines of the generated text were written whole |
/// | 2 | the command line is invalid |
/// | 3 | the files have a first fault, or there are too many; or the certificate's is too large |
/// | 4 | a file could not be read |
/// | 5 | the text could not be written whole |
/// | 6 | the span that is asked for is not one of the files, or that of a polynomial holds no time |
/// | 7 | the event cannot be searched for in the files: a body is absent, two are the same, a number is out of range |
/// | 8 | out of memory |
/// | 9 | the search, or one of two, has more than 33,554,432 leaves, or than 4,194,304 for a certificate |
/// | 10 | the certificate breaks a rule |
pub fn finder<R: Threads + Wait + Sync, S: Shelf, O: Sink, E: Sink, G: Gate>(
    rt: &R,
    alloc: Global,
    words: &[String],
    shelf: &mut S,
    out: &mut O,
    err: &mut E,
    gate: &G,
) -> u8
    // With status 0 `out` gained the text of the run's outcome, and nothing else.
    ensures reported { result ≡ REPORTED → ReportsWhole words.now
        (S.files shelf.old) (S.faults shelf.old) (S.faults shelf.new)
        (O.bytes out.old) (O.bytes out.new) }

    // For `find` that is the report of the windows of the events in the files over the span: windows that are disjoint, in
    // order and hold every event, each certain one exactly one, and each time of an undecided one lies in a leaf of the
    // search that was left so at the width or the depth, all of which lies in the window.
    ensures find { (find : FindAsk) → Ask words.now (Find find) → result ≡ REPORTED
        → HoldEphemeris (S.files shelf.old) find.files
        (ReportsEvents find (O.bytes out.old) (O.bytes out.new)) }

    // For `find` in terms of the events alone, the windows of the report are disjoint, in order and hold every event, each
    // certain one exactly one.
    ensures events { (find : FindAsk) → Ask words.now (Find find) → result ≡ REPORTED
        → HoldEphemeris (S.files shelf.old) find.files
        (ReportsAllEvents find (O.bytes out.old) (O.bytes out.new)) }

    // For `cert` it is the certificate of the leaves of that search, in their order.
    ensures certified { (find : FindAsk) → Ask words.now (Cert find) → result ≡ REPORTED
        → HoldEphemeris (S.files shelf.old) find.files
        (ReportsCertificate find (O.bytes out.old) (O.bytes out.new)) }

    // For `verify` it is the report of the windows of a certificate, and how many leaves it has: whoever made the certificate,
    // it breaks no rule, and of its windows is true all that is true of those of `find`, with its own leaves in place of the
    // search's.
    ensures verified { (find : FindAsk) (cert : List ℕ) → Ask words.now (Verify find cert)
        → result ≡ REPORTED → HoldEphemeris (S.files shelf.old) find.files
        (ReportsVerified (S.files shelf.old) find cert (O.bytes out.old) (O.bytes out.new)) }

    // For `check` it is the summary of the ephemeris that the files hold.
    ensures check { (names : List (List ℕ)) → Ask words.now (Check names) → result ≡ REPORTED
        → HoldEphemeris (S.files shelf.old) names
        (ReportsSummary (O.bytes out.old) (O.bytes out.new)) }
    // For `gen` it is the report of the text that was generated.
    ensures generated { (blocks seed workers : ℕ) → Ask words.now (Gen blocks seed workers)
        → result ≡ REPORTED → ReportsGeneration blocks seed (O.bytes out.old) (O.bytes out.new) }

    // For `set` it is the report of two sets of times of the span: each sure time has the relation to the references that are
    // asked for, and each time that has it is possible.
    ensures set { (find : FindAsk) (ref2 : Option Decimal) (relation : Relation)
        → Ask words.now (Set find ref2 relation) → result ≡ REPORTED
        → HoldEphemeris (S.files shelf.old) find.files
        (ReportsSet find ref2 relation (O.bytes out.old) (O.bytes out.new)) }

    // For `scalar` it is the report of the windows of the times at which a polynomial passes 0, of which is true all that is
    // true of those of `find`.
    ensures scalar { (ask : ScalarAsk) → Ask words.now (Scalar ask) → result ≡ REPORTED
        → ReportsScalar ask (O.bytes out.old) (O.bytes out.new) }

    // Each status but 0 and 5 is that of a cause, which the words, the files and the shelf have; its line goes to `err`.
    ensures refused { result ≢ REPORTED → result ≢ NOT_WRITTEN → (refusal : Refusal)
        × HaveCause words.now (S.files shelf.old) (S.faults shelf.old) (S.faults shelf.new) refusal
        × (result ≡ status_of refusal)
        × Receives E.bytes E.faults err.old err.new (line_of refusal) }

    // With status 5 a write failed, and `out` gained a prefix of the text that is not all of it.
    ensures write { result ≡ NOT_WRITTEN → ReportsPart words.now
        (S.files shelf.old) (S.faults shelf.old) (S.faults shelf.new)
        (O.bytes out.old) (O.bytes out.new) }
    ensures write_fault { result ≡ NOT_WRITTEN → Rose (O.faults out.old) (O.faults out.new) }
    ensures write_line { result ≡ NOT_WRITTEN
        → Receives E.bytes E.faults err.old err.new write_text }

    // A run whose outcome is a text writes it, and one whose outcome is a cause is refused for it, unless something failed
    // or memory is out. Which files there are has to be known only if one is opened.
    ensures complete { (text : List ℕ) → KnowsFiles words.now (S.files shelf.old)
        → HaveOutcome words.now (S.files shelf.old) (S.faults shelf.old) (S.faults shelf.new)
        (Ok text)
        → (result ≡ REPORTED) ⊎ ((result ≡ OUT_OF_MEMORY)
        ⊎ (Rose (S.faults shelf.old) (S.faults shelf.new)
        ⊎ Rose (O.faults out.old) (O.faults out.new))) }
    ensures exact { (refusal : Refusal) → KnowsFiles words.now (S.files shelf.old)
        → HaveOutcome words.now (S.files shelf.old) (S.faults shelf.old) (S.faults shelf.new)
        (Err refusal)
        → (result ≡ status_of refusal) ⊎ ((result ≡ OUT_OF_MEMORY)
        ⊎ Rose (S.faults shelf.old) (S.faults shelf.new)) }

    // No file is opened if the words are refused, ask for a generated text or a polynomial, or name too many files.
    ensures unopened { OpensNone (request_of (texts_of words.now)) → shelf.new ≡ shelf.old }

    // Nothing else is written.
    ensures out_unchanged { result ≢ REPORTED → result ≢ NOT_WRITTEN
        → Keeps (O.bytes out.old) (O.bytes out.new) }
    ensures err_unchanged { result ≡ REPORTED → Keeps (E.bytes err.old) (E.bytes err.new) }
{
    let find_leaves = |workers, max_leaves, wanted, ephemeris: &Ephemeris, query: &Query, span|
        requires query { IsQuery query.now }
        requires span { IsSearchable workers ephemeris.now span }
        ensures { AreLeavesReturned max_leaves wanted query.now ephemeris.now span result }
    {
        let crew = Crew {
            runtime: rt,
            alloc,
            workers,
            max_leaves,
            gate,
        };
        leaves(&crew, wanted, ephemeris, query, span)
    };
    let find_times = |workers, ephemeris: &Ephemeris, query: &Query, ref2, relation, span|
        requires query { IsSetQuery query.now }
        requires span { IsSearchable workers ephemeris.now span }
        ensures { AreTimesReturned relation ref2 query.now ephemeris.now span result }
    {
        related(
            rt, alloc, ephemeris, query, ref2, relation, span, workers, gate,
        )
    };
    let find_passings = |ask: &ScalarAsk|
        requires { IsScalarWithinLimits ask.now }
        ensures { ArePassingsReturned ask.now result }
    { search_scalar(rt, alloc, ask, gate) };
    match text_by(
        alloc,
        words,
        shelf,
        &find_leaves,
        &find_times,
        &find_passings,
    ) {
        Ok(text) => write_text(out, err, &text),
        Err(refusal) => write_refusal(alloc, err, &refusal),
    }
}

// Writes the text to `out` and returns the status: `REPORTED`, or `NOT_WRITTEN` if the sink failed, with a line to
// `err` that says so.
fn write_text<O: Sink, E: Sink>(out: &mut O, err: &mut E, text: &[u8]) -> u8
    ensures known { (result ≡ REPORTED) ⊎ (result ≡ NOT_WRITTEN) }
    ensures whole { result ≡ REPORTED → Appends (O.bytes out.old) (O.bytes out.new) text.now }
    ensures part { result ≡ NOT_WRITTEN → AppendsPart (O.bytes out.old) (O.bytes out.new) text.now }
    ensures cause { result ≡ NOT_WRITTEN → Rose (O.faults out.old) (O.faults out.new) }
    ensures err_unchanged { result ≡ REPORTED → Keeps (E.bytes err.old) (E.bytes err.new) }
    ensures line { result ≡ NOT_WRITTEN → Receives E.bytes E.faults err.old err.new write_text }
{
    match write_whole_text(out, text) {
        Ok(()) => REPORTED,
        Err(Failed) => {
            write_line(err, b"finder: write fault\n");
            NOT_WRITTEN
        }
    }
}

// Writes the line that reports a refusal to `err`, and returns the refusal's status. If there is no memory for the
// line, it reports out of memory in its place.
fn write_refusal<E: Sink>(alloc: Global, err: &mut E, refusal: &Refusal) -> u8
    ensures written { (cause : Refusal) × ((cause ≡ refusal.now) ⊎ (cause ≡ Refusal.Memory))
        × (result ≡ status_of cause)
        × Receives E.bytes E.faults err.old err.new (line_of cause) }
{
    match line_of_refusal(alloc, refusal) {
        Ok(line) => {
            write_line(err, &line);
            refusal.status()
        }
        Err(AllocError) => write_out_of_memory(err),
    }
}

// Writes the line that reports out of memory to `err`, and returns the status for it.
pub(crate) fn write_out_of_memory<E: Sink>(err: &mut E) -> u8
    ensures status { result ≡ OUT_OF_MEMORY }
    ensures line { Receives E.bytes E.faults err.old err.new memory_text }
{
    write_line(err, b"finder: out of memory\n");
    OUT_OF_MEMORY
}
