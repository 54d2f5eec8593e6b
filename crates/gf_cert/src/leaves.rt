// The lines of a certificate that name leaves, after its first two.
ghost use Rattle.std.specs.Prelude.{◌≡◌, ◌<◌, IfOk, IsFalse, length, reverse};
ghost use Rattle.spec_searches.specs.Found.{rules};
ghost use Rattle.spec_certificates.specs.Checks.{after_end, is_end};
ghost use Rattle.gf_cert.specs.Answers.{Gives, refusal_of};
ghost use Rattle.gf_cert.specs.Steps.{AreValid, Ends, Reads, coming};

use crate::errors::CertError;
use crate::lines::{fault_at, next_entry};
use crate::places::place_leaf;
use de_text::Tokens;
use event_judge::{EventJudge, Judge, Node};
use spec_certificates::{CertFault, Entry};
use spec_faults::CERT_END;
use spec_trees::Leaf;

// Checks that no line with a word follows the end of a certificate. The fault is the first line that does, by the rule
// of the end if it is a leaf or an end, else by that of lines of no known form.
fn check_no_line_follows(lines: &mut Tokens<'_>) -> Result<(), CertFault>
    ensures { Ends (after_end lines.old.left) result }
{
    match next_entry(lines)? {
        None => Ok(()),
        Some((number, _)) => Err(fault_at(number, CERT_END)),
    }
}

// Tells whether a certificate may end after `leaves` leaves were read. No node may still wait for its leaves, and the
// end has to state that number as its count.
fn is_end_allowed(waiting: &[Node], leaves: usize, count: u32) -> bool
    ensures { result ≡ is_end (reverse waiting.now) leaves count }
{
    waiting.is_empty() && leaves as u64 == u64::from(count)
}

/// Returns the error that refuses a text for a fault of one of its lines, which breaks a rule.
pub(crate) fn refusal_of_fault(fault: CertFault) -> CertError
    ensures { result ≡ refusal_of fault }
{
    CertError::Refused {
        line: fault.line,
        number: fault.number,
    }
}

/// Reads the next line of a certificate: a leaf, which is placed and put to those that were found, or the end, after
/// which no line follows. Returns whether it is the end. `marking` is a judge of the same search, and says what the mark
/// of a leaf has to be. The error is the first line that breaks a rule, or out of memory.
pub(crate) fn read_next_line<J: Judge>(
    judge: &EventJudge<'_>,
    marking: &J,
    waiting: &mut Vec<Node>,
    found: &mut Vec<Leaf>,
    lines: &mut Tokens<'_>,
) -> Result<bool, CertError>
    requires rules { J.rules marking.now ≡ rules judge.now.search }
    requires waiting { AreValid (rules judge.now.search) waiting.old.items }
    ensures read { Reads (coming judge.now.search found.old.items waiting.old.items lines.old)
        (coming judge.now.search found.new.items waiting.new.items lines.new)
        found.new.items result }
    ensures waiting { IfOk result (λ _. AreValid (rules judge.now.search) waiting.new.items) }
    ensures fewer { IfOk result (λ ended.
        IsFalse ended → length lines.new.left < length lines.old.left) }
{
    match next_entry(lines) {
        Err(fault) => Err(refusal_of_fault(fault)),
        Ok(None) => Err(refusal_of_fault(fault_at(lines.end_line(), CERT_END))),
        Ok(Some((line, Entry::Leaf(leaf)))) => {
            match place_leaf(judge, marking, waiting, leaf, line) {
                Ok(()) => {}
                Err(error) => return Err(error),
            }
            found.push(leaf)?;
            Ok(false)
        }
        Ok(Some((line, Entry::End(count)))) => {
            if !is_end_allowed(waiting, found.len(), count) {
                return Err(refusal_of_fault(fault_at(line, CERT_END)));
            }
            match check_no_line_follows(lines) {
                Ok(()) => Ok(true),
                Err(fault) => Err(refusal_of_fault(fault)),
            }
        }
    }
}

/// Reads lines of leaves up to the end of a certificate. `marking` is a judge of the same search, and says what the
/// mark of a leaf has to be. The error is the first line that breaks a rule, or out of memory.
pub(crate) fn read_to_end<J: Judge>(
    judge: &EventJudge<'_>,
    marking: &J,
    waiting: &mut Vec<Node>,
    found: &mut Vec<Leaf>,
    lines: &mut Tokens<'_>,
) -> Result<(), CertError>
    requires rules { J.rules marking.now ≡ rules judge.now.search }
    requires waiting { AreValid (rules judge.now.search) waiting.old.items }
    ensures { Gives (λ _. found.new.items)
        (coming judge.now.search found.old.items waiting.old.items lines.old) result }
{
    loop {
        let ended = read_next_line(judge, marking, waiting, found, lines)?;
        if ended {
            return Ok(());
        }
    }
}
