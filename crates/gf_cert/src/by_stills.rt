// The leaves of a certificate that are judged by still spans of its search.
ghost use Rattle.std.specs.Prelude.{◌≡◌, All, IfErr, IfOk};
ghost use Rattle.spec_searches.specs.Found.{rules};
ghost use Rattle.spec_stills.specs.Still.{IsStill};
ghost use Rattle.gf_cert.specs.Answers.{Gives};
ghost use Rattle.gf_cert.specs.Steps.{AreValid, coming};

use crate::errors::CertError;
use crate::leaves::read_to_end;
use de_text::Tokens;
use event_judge::{EventJudge, EventSearch, Judge, Node};
use spec_trees::Leaf;
use std::alloc::Global;
use still_judge::{Manner, SignJudge, StillJudge, StillList};
use still_spans::still_spans;

// Returns still spans of a search from one time to another, in order of time. The only error is out of memory.
fn still_list(
    alloc: Global,
    search: &EventSearch,
    from: i64,
    upto: i64,
) -> Result<StillList, CertError>
    ensures still { IfOk result (λ stills. All (IsStill search.now) stills) }
    ensures memory { IfErr result (λ error. error ≡ CertError.Memory) }
{
    match still_spans(alloc, search, from, upto) {
        Ok(spans) => Ok(StillList::new(spans)),
        Err(_) => Err(CertError::Memory),
    }
}

// Reads lines of leaves up to the end of a certificate. Still spans of the search say what the mark of a leaf has to
// be, and `signs`, a judge of the same search, where they do not. The error is the first line that breaks a rule, or
// out of memory.
fn read_by_list<J: Judge>(
    judge: &EventJudge<'_>,
    signs: &J,
    stills: &StillList,
    waiting: &mut Vec<Node>,
    found: &mut Vec<Leaf>,
    lines: &mut Tokens<'_>,
) -> Result<(), CertError>
    requires rules { J.rules signs.now ≡ rules judge.now.search }
    requires still { All (IsStill judge.now.search) stills.now }
    requires waiting { AreValid (rules judge.now.search) waiting.old.items }
    ensures { Gives (λ _. found.new.items)
        (coming judge.now.search found.old.items waiting.old.items lines.old) result }
{
    let marking = StillJudge::new(signs, &judge.search, stills, Manner::Exact);
    read_to_end(judge, &marking, waiting, found, lines)
}

// Returns the first time of the node that comes next, the last of those that wait, or `upto` if none waits.
fn next_time(waiting: &[Node], upto: i64) -> i64 {
    match waiting.last() {
        Some(next) => next.a,
        None => upto,
    }
}

/// Reads lines of leaves up to the end of a certificate, as `read_to_end` does, by the still spans of the search from
/// the node that comes next up to a time. Where these do not say what a mark has to be, `plain` does, a judge of the
/// same search. The error is the first line that breaks a rule, or out of memory.
pub(crate) fn read_by_stills<P: Judge>(
    alloc: Global,
    judge: &EventJudge<'_>,
    plain: &P,
    upto: i64,
    waiting: &mut Vec<Node>,
    found: &mut Vec<Leaf>,
    lines: &mut Tokens<'_>,
) -> Result<(), CertError>
    requires rules { P.rules plain.now ≡ rules judge.now.search }
    requires waiting { AreValid (rules judge.now.search) waiting.old.items }
    ensures { Gives (λ _. found.new.items)
        (coming judge.now.search found.old.items waiting.old.items lines.old) result }
{
    let stills = still_list(alloc, &judge.search, next_time(waiting, upto), upto)?;
    let Ok(signs) = SignJudge::new(alloc, plain, &judge.search, &stills) else {
        return Err(CertError::Memory);
    };
    read_by_list(judge, &signs, &stills, waiting, found, lines)
}
