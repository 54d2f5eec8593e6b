// The check of a certificate, and what is printed of one that holds.
ghost use Rattle.std.specs.Prelude.{All, ◌≡◌, ◌⊎◌, ◌≤◌, Err, IfErr, IfOk, length};
ghost use Rattle.spec_text.specs.declared.limits.TheConstants.{MAX_TEXT_BYTES};
ghost use Rattle.spec_ephemeris.specs.Ticks.{IsTick};
ghost use Rattle.spec_trees.specs.Tree.{Covers, IsValid};
ghost use Rattle.spec_trees.specs.Windows.{windows};
ghost use Rattle.spec_searches.specs.Found.{root, rules};
ghost use Rattle.spec_times.specs.Ticks.{IsTimeIn};
ghost use Rattle.spec_output.specs.Report.{HasTimes, verification};
ghost use Rattle.spec_outcomes.specs.Certificates.{IsVerification, line_over, verification_of};
ghost use Rattle.gf_check.specs.Errors.{of_cert};

use gf_cert::{CertError, check_cert};
use gf_query::{EventJudge, root_of};
use ordered_join::leaf_windows;
use spec_outcomes::{Refusal, Span};
use spec_requests::FindAsk;
use spec_trees::Leaf;
use std::alloc::Global;
use window_text::{request_line, verification};

// Returns the refusal of a run for the error of a certificate: the first line that breaks a rule with that rule's
// number, or out of memory.
fn refusal_of_error(error: CertError) -> Refusal
    ensures { result ≡ of_cert error }
{
    match error {
        CertError::Refused { line, number } => Refusal::Certificate { line, number },
        CertError::Memory => Refusal::Memory,
    }
}

/// Returns the line of a search's request over a span, without its line end. It is the second line of a certificate of
/// that search. The only error is out of memory.
pub fn request_line_over(alloc: Global, find: &FindAsk, span: Span) -> Result<Vec<u8>, Refusal>
    requires tick { IsTick find.now.tick }
    requires from { IsTimeIn find.now.tick span.from }
    requires upto { IsTimeIn find.now.tick span.upto }
    ensures line { IfOk result (λ line. line.items ≡ line_over find.now span) }
    ensures memory { IfErr result (λ refusal. refusal ≡ Refusal.Memory) }
{
    let line = request_line(alloc, find, span.from, span.upto)?;
    Ok(line)
}

// Returns the report on the leaves of a certificate, which cover a span: the windows that they make, and their number.
// Times are in the ticks of the search since J2000 in TDB. The only error is out of memory.
fn report_of_leaves(
    alloc: Global,
    find: &FindAsk,
    span: Span,
    leaves: &[Leaf],
) -> Result<Vec<u8>, Refusal>
    requires tick { IsTick find.now.tick }
    requires from { IsTimeIn find.now.tick span.from }
    requires upto { IsTimeIn find.now.tick span.upto }
    requires follow { Covers span.from leaves.now span.upto }
    requires windows { All (HasTimes find.now.tick) (windows leaves.now) }
    ensures text { IfOk result (λ text. text.items
        ≡ verification find.now span.from span.upto (windows leaves.now) (length leaves.now)) }
    ensures memory { IfErr result (λ refusal. refusal ≡ Refusal.Memory) }
{
    let windows = leaf_windows(alloc, leaves)?;
    let count = leaves.len() as u64;
    let text = verification(alloc, find, span.from, span.upto, &windows, count)?;
    Ok(text)
}

/// Checks the text of a certificate for a search over a span, and returns what `verify` prints: the report of its
/// windows, and its number of leaves. The windows are those of the events that are asked for, whoever made the text.
/// Each leaf is judged, and no other node. Times are in the ticks of the search since J2000 in TDB. The error is
/// `Certificate`, for the first line that breaks a rule, or `Memory`.
pub fn verify_certificate(
    alloc: Global,
    find: &FindAsk,
    span: Span,
    judge: &EventJudge<'_>,
    text: &[u8],
) -> Result<Vec<u8>, Refusal>
    requires tick { IsTick find.now.tick }
    requires from { IsTimeIn find.now.tick span.from }
    requires upto { IsTimeIn find.now.tick span.upto }
    requires valid { IsValid (rules judge.now.search) (root span.from span.upto) }
    requires small { length text.now ≤ MAX_TEXT_BYTES }
    ensures verified { IfOk result (λ bytes.
        IsVerification find.now judge.now.search span text.now bytes.items) }
    ensures stopped { IfErr result (λ refusal. (refusal ≡ Refusal.Memory)
        ⊎ (verification_of find.now judge.now.search span text.now ≡ Err refusal)) }
{
    let line = request_line_over(alloc, find, span)?;
    match check_cert(alloc, text, &line, judge, root_of(span)) {
        Ok(leaves) => report_of_leaves(alloc, find, span, &leaves),
        Err(error) => Err(refusal_of_error(error)),
    }
}
