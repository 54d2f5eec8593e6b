// The command `cert`: the certificate of the leaves of the search that is asked for.
ghost use Rattle.std.specs.Prelude.{◌≡◌, ◌⊎◌, Err, IfErr, IfOk};
ghost use Rattle.spec_ephemeris.specs.Ticks.{IsTick};
ghost use Rattle.spec_requests.specs.Limits.{IsWithinLimits};
ghost use Rattle.spec_times.specs.Ticks.{IsTimeIn};
ghost use Rattle.spec_outcomes.specs.Certificates.{certificate_by, certificate_of};
ghost use Rattle.gf_find.specs.Outcomes.{FilesHaveOutcome, HoldEphemeris};
ghost use Rattle.gf_find.specs.Certifies.{IsCertificate};
ghost use Rattle.gf_find.specs.Searchers.{ReturnsLeaves, TakesSearches};
ghost use Rattle.gf_find.specs.Reported.{AreNotOpened};

use crate::searched::search_files;
use eph_model::Ephemeris;
use gf_cert::certificate;
use gf_check::request_line_over;
use gf_edges::Shelf;
use gf_search::Wanted;
use spec_certificates::MAX_CERT_LEAVES;
use spec_outcomes::{Query, Refusal, Span};
use spec_requests::FindAsk;
use spec_trees::Leaf;
use std::alloc::Global;

// Returns the certificate of leaves over a span: a line of its format, the line of the request, a line for each leaf,
// and their number. The only error is out of memory.
fn certificate_over_span(
    alloc: Global,
    find: &FindAsk,
    span: Span,
    leaves: &[Leaf],
) -> Result<Vec<u8>, Refusal>
    requires tick { IsTick find.now.tick }
    requires from { IsTimeIn find.now.tick span.from }
    requires upto { IsTimeIn find.now.tick span.upto }
    ensures text { IfOk result (λ text. text.items ≡ certificate_by find.now span leaves.now) }
    ensures memory { IfErr result (λ refusal. refusal ≡ Refusal.Memory) }
{
    let line = request_line_over(alloc, find, span)?;
    let text = certificate(alloc, &line, leaves)?;
    Ok(text)
}

/// Searches the ephemeris in the files of a request, and returns the certificate of the search's leaves, or why there
/// is none.
pub(crate) fn certificate_in_files<
    S: Shelf,
    L: Fn(u32, u32, Wanted, &Ephemeris, &Query, Span) -> Result<Vec<Leaf>, Refusal>,
>(alloc: Global, shelf: &mut S, find: &FindAsk, leaves: &L) -> Result<Vec<u8>, Refusal>
    requires limits { IsWithinLimits find.now }
    requires takes_searches { TakesSearches (L.pre leaves.now) }
    requires returns_leaves { ReturnsLeaves (L.post leaves.now) }
    ensures certificate { IfOk result (λ text. HoldEphemeris
        (S.files shelf.old) find.now.files (IsCertificate find.now text.items)) }
    ensures stopped { IfErr result (λ refusal. (refusal ≡ Refusal.Memory)
        ⊎ FilesHaveOutcome (S.files shelf.old) find.now.files (S.faults shelf.old) (S.faults shelf.new)
        (certificate_of find.now) (Err refusal)) }
    ensures unopened { AreNotOpened find.now.files → shelf.new ≡ shelf.old }
{
    match search_files(alloc, Wanted::Leaves, shelf, find, MAX_CERT_LEAVES, leaves) {
        Ok(found) => certificate_over_span(alloc, find, found.span, &found.leaves),
        Err(refusal) => Err(refusal),
    }
}
