// The check of a text: whether it is a certificate of a search.
ghost use Rattle.std.specs.Prelude.{◌≤◌, ◌∷◌, [], length, IfOk};
ghost use Rattle.spec_text.specs.Lines.{tokens};
ghost use Rattle.spec_text.specs.declared.limits.TheConstants.{MAX_TEXT_BYTES};
ghost use Rattle.spec_trees.specs.Tree.{AreLeaves, Covers, IsValid};
ghost use Rattle.spec_trees.specs.Windows.{windows};
ghost use Rattle.spec_events.specs.Events.{AreWindows};
ghost use Rattle.spec_searches.specs.Search.{events};
ghost use Rattle.spec_searches.specs.Found.{IsLeftUndecided, rules};
ghost use Rattle.spec_certificates.specs.Checks.{checked, leaves_from, with_words};
ghost use Rattle.spec_faults.specs.declared.numbers.TheConstants.{CERT_REQUEST};
ghost use Rattle.gf_cert.specs.Answers.{Gives};
ghost use Rattle.gf_cert.specs.Search.{cutting};

use crate::errors::CertError;
use crate::leaves::refusal_of_fault;
use crate::lines::check_words;
use crate::stages::read_leaves;
use de_text::Tokens;
use event_judge::{EventJudge, Node};
use spec_faults::{CERT_LINE, CERT_REQUEST};
use spec_trees::Leaf;
use std::alloc::Global;

/// Checks that a text is a certificate of a judge's search, and returns the leaves that it names. `line` is the line of
/// the request that it has to be of, and `root` the root of the tree. The error is the first line that breaks a rule,
/// or out of memory. Each leaf is judged, and no other node; times are in the judge's ticks since J2000 in TDB.
pub fn check_cert(
    alloc: Global,
    text: &[u8],
    line: &[u8],
    judge: &EventJudge<'_>,
    root: Node,
) -> Result<Vec<Leaf>, CertError>
    requires small { length text.now ≤ MAX_TEXT_BYTES }
    requires valid { IsValid (rules judge.now.search) root }
    // The leaves that the rules give, or the first line that breaks one.
    ensures checked { Gives (λ found. found.items)
        (checked (cutting judge.now.search) root line.now text.now) result }
    // Whoever made the text, they follow one another over the root, each with the mark of its verdict.
    ensures cover { IfOk result (λ found. Covers root.a found.items root.b) }
    ensures are_leaves { IfOk result (λ found. AreLeaves (rules judge.now.search) found.items) }
    // So their windows are those of the search's events.
    ensures windows { IfOk result (λ found. AreWindows (events judge.now.search)
        (IsLeftUndecided judge.now.search found.items) root.a root.b (windows found.items)) }
{
    // A law, which does nothing at run time: the rules of the judge's search are sound, and they cut a valid node into
    // valid parts.
    judge.nodes_may_be_cut();
    let mut lines = Tokens::new(text);
    match check_words(&mut lines, b"CERT 1", CERT_LINE) {
        Ok(()) => read_leaves_of_request(alloc, judge, root, line, &mut lines),
        Err(fault) => Err(refusal_of_fault(fault)),
    }
}

// Checks that the next line is that of the request, then reads the leaves that the lines after it name, over the root.
// Returns these leaves. The error is the first line that breaks a rule, or out of memory.
fn read_leaves_of_request(
    alloc: Global,
    judge: &EventJudge<'_>,
    root: Node,
    line: &[u8],
    lines: &mut Tokens<'_>,
) -> Result<Vec<Leaf>, CertError>
    requires { IsValid (rules judge.now.search) root }
    ensures { Gives (λ found. found.items)
        (with_words (tokens line.now) CERT_REQUEST lines.old.end_line
        (leaves_from (cutting judge.now.search) lines.old.end_line (root ∷ []) 0) lines.old.left)
        result }
{
    match check_words(lines, line, CERT_REQUEST) {
        Ok(()) => read_leaves(alloc, judge, root, lines),
        Err(fault) => Err(refusal_of_fault(fault)),
    }
}
