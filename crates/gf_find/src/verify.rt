// The command `verify`: the report of the windows of a certificate, if it breaks no rule.
ghost use Rattle.std.specs.Prelude.{◌≡◌, ◌⊎◌, ◌<◌, Err, IfErr, IfOk, None, true};
ghost use Rattle.spec_ephemeris.specs.Ephemeris.{end_of};
ghost use Rattle.spec_ephemeris.specs.Ticks.{IsTick, in_ticks};
ghost use Rattle.spec_trees.specs.Cuts.{CanCut, cut_of};
ghost use Rattle.spec_trees.specs.Tree.{IsValid};
ghost use Rattle.spec_searches.specs.Found.{root, rules};
ghost use Rattle.spec_kinds.specs.Faults.{fault_of};
ghost use Rattle.spec_kinds.specs.Kinds.{event_of};
ghost use Rattle.spec_requests.specs.Limits.{IsWithinLimits};
ghost use Rattle.spec_times.specs.Ticks.{IsTimeIn};
ghost use Rattle.spec_outcomes.specs.Certificates.{IsVerification, verification_of};
ghost use Rattle.spec_outcomes.specs.Queries.{is_within, query_of, span_of};
ghost use Rattle.gf_find.specs.Outcomes.{FilesHave, HoldEphemeris};
ghost use Rattle.gf_find.specs.CertificateFiles.{CertificateHasOutcome, HoldsText, VerifyHasOutcome};
ghost use Rattle.gf_find.specs.Verifies.{IsVerified};
ghost use Rattle.gf_find.specs.Reported.{AreNotOpened};

use crate::certificate_file::read_certificate;
use crate::files::ephemeris_of_files;
use eph_model::Ephemeris;
use event_kinds::Event;
use gf_check::verify_certificate;
use gf_edges::Shelf;
use gf_hooks::{Cutter, rule_cut};
use gf_query::{EventJudge, event_of, judge, span_asked};
use spec_outcomes::{Refusal, Span, query_of};
use spec_requests::{FindAsk, Text};
use std::alloc::Global;

// Reads the certificate in the file `cert` and checks it by the judge of its search over a span. Returns the report of
// its windows, or why there is none. Times are in the ticks of the search since J2000 in TDB.
fn verify_certificate_file<S: Shelf>(
    alloc: Global,
    shelf: &mut S,
    find: &FindAsk,
    cert: &Text,
    span: Span,
    judge: &EventJudge<'_>,
) -> Result<Vec<u8>, Refusal>
    requires tick { IsTick find.now.tick }
    requires from { IsTimeIn find.now.tick span.from }
    requires upto { IsTimeIn find.now.tick span.upto }
    requires valid { IsValid (rules judge.now.search) (root span.from span.upto) }
    ensures verified { IfOk result (λ bytes. HoldsText (S.files shelf.old) cert.now
        (λ text. IsVerification find.now judge.now.search span text bytes.items)) }
    ensures stopped { IfErr result (λ refusal. (refusal ≡ Refusal.Memory)
        ⊎ CertificateHasOutcome (S.files shelf.old) cert.now (S.faults shelf.old) (S.faults shelf.new)
        (verification_of find.now judge.now.search span) (Err refusal)) }
{
    match read_certificate(alloc, shelf, cert) {
        Ok(text) => verify_certificate(alloc, find, span, judge, &text),
        Err(refusal) => Err(refusal),
    }
}

// Makes the judge of an event without a fault over a span of an ephemeris, and checks the certificate in the file
// `cert` by it. The ephemeris counts the ticks of the search. Returns the report of the certificate's windows, or why
// there is none.
fn verify_by_event<S: Shelf>(
    alloc: Global,
    shelf: &mut S,
    ephemeris: &Ephemeris,
    find: &FindAsk,
    cert: &Text,
    span: Span,
    event: Event,
) -> Result<Vec<u8>, Refusal>
    requires block { 0 < ephemeris.now.blocks }
    requires start { IsTimeIn find.now.tick ephemeris.now.start }
    requires end { IsTimeIn find.now.tick (end_of ephemeris.now) }
    requires limits { IsWithinLimits find.now }
    requires span { span ≡ span_of find.now ephemeris.now }
    requires within { is_within span ephemeris.now ≡ true }
    requires sound { fault_of ephemeris.now find.now.ask ≡ None }
    requires event { event ≡ event_of find.now.ask }
    ensures verified { IfOk result (λ bytes.
        IsVerified (S.files shelf.old) find.now cert.now ephemeris.now bytes.items) }
    ensures stopped { IfErr result (λ refusal. (refusal ≡ Refusal.Memory)
        ⊎ VerifyHasOutcome (S.files shelf.old) find.now cert.now
        (S.faults shelf.old) (S.faults shelf.new) ephemeris.now (Err refusal)) }
{
    let query = query_of(find);
    let rule = query.cut;
    let Ok(cut) = Box::new(
        alloc,
        move |a: i64, b: i64| -> i64
            requires { CanCut a b }
            ensures { result ≡ cut_of rule a b }
        { rule_cut(rule, a, b) },
    ) else {
        return Err(Refusal::Memory);
    };
    let judge = judge(ephemeris, &query, event, Cutter::new(rule, cut));
    verify_certificate_file(alloc, shelf, find, cert, span, &judge)
}

// Makes the event of a search over a span of an ephemeris, and checks the certificate in the file `cert` for it. The
// ephemeris counts the ticks of the search. Returns the report of its windows, or why there is none. An event with a
// fault is refused.
fn verify_over_span<S: Shelf>(
    alloc: Global,
    shelf: &mut S,
    ephemeris: &Ephemeris,
    find: &FindAsk,
    cert: &Text,
    span: Span,
) -> Result<Vec<u8>, Refusal>
    requires block { 0 < ephemeris.now.blocks }
    requires start { IsTimeIn find.now.tick ephemeris.now.start }
    requires end { IsTimeIn find.now.tick (end_of ephemeris.now) }
    requires limits { IsWithinLimits find.now }
    requires span { span ≡ span_of find.now ephemeris.now }
    requires within { is_within span ephemeris.now ≡ true }
    ensures verified { IfOk result (λ bytes.
        IsVerified (S.files shelf.old) find.now cert.now ephemeris.now bytes.items) }
    ensures stopped { IfErr result (λ refusal. (refusal ≡ Refusal.Memory)
        ⊎ VerifyHasOutcome (S.files shelf.old) find.now cert.now
        (S.faults shelf.old) (S.faults shelf.new) ephemeris.now (Err refusal)) }
{
    let query = query_of(find);
    match event_of(alloc, ephemeris, &query) {
        Ok(event) => verify_by_event(alloc, shelf, ephemeris, find, cert, span, event),
        Err(refusal) => Err(refusal),
    }
}

// Checks the certificate in the file `cert` for a search of an ephemeris, which counts the ticks of the search, over
// the span that is asked for. Returns the report of its windows, or why there is none. A span that is not within the
// ephemeris is refused.
fn verify_over_ephemeris<S: Shelf>(
    alloc: Global,
    shelf: &mut S,
    ephemeris: &Ephemeris,
    find: &FindAsk,
    cert: &Text,
) -> Result<Vec<u8>, Refusal>
    requires block { 0 < ephemeris.now.blocks }
    requires start { IsTimeIn find.now.tick ephemeris.now.start }
    requires end { IsTimeIn find.now.tick (end_of ephemeris.now) }
    requires limits { IsWithinLimits find.now }
    ensures verified { IfOk result (λ bytes.
        IsVerified (S.files shelf.old) find.now cert.now ephemeris.now bytes.items) }
    ensures stopped { IfErr result (λ refusal. (refusal ≡ Refusal.Memory)
        ⊎ VerifyHasOutcome (S.files shelf.old) find.now cert.now
        (S.faults shelf.old) (S.faults shelf.new) ephemeris.now (Err refusal)) }
{
    match span_asked(find, ephemeris) {
        Ok(span) => verify_over_span(alloc, shelf, ephemeris, find, cert, span),
        Err(refusal) => Err(refusal),
    }
}

/// Checks the certificate in the file `cert` for a search of the files of a request. Returns the report of its windows,
/// or why there is none. The certificate is opened only if the search could be made.
pub(crate) fn verify_over_files<S: Shelf>(
    alloc: Global,
    shelf: &mut S,
    find: &FindAsk,
    cert: &Text,
) -> Result<Vec<u8>, Refusal>
    requires { IsWithinLimits find.now }
    ensures verified { IfOk result (λ bytes. HoldEphemeris (S.files shelf.old) find.now.files
        (λ e. IsVerified (S.files shelf.old) find.now cert.now (in_ticks find.now.tick e) bytes.items)) }
    ensures stopped { IfErr result (λ refusal. (refusal ≡ Refusal.Memory)
        ⊎ FilesHave (S.files shelf.old) find.now.files (S.faults shelf.old) (S.faults shelf.new)
        (λ e outcome. VerifyHasOutcome (S.files shelf.old) find.now cert.now (S.faults shelf.old)
        (S.faults shelf.new) (in_ticks find.now.tick e) outcome) (Err refusal)) }
    ensures unopened { AreNotOpened find.now.files → shelf.new ≡ shelf.old }
{
    let ephemeris = ephemeris_of_files(alloc, shelf, find.files.as_slice())?;
    let counted = ephemeris.in_ticks(find.tick);
    verify_over_ephemeris(alloc, shelf, &counted, find, cert)
}
