// The leaves that a certificate names, after its first two lines: some by the judge alone, the others by still spans.
ghost use Rattle.std.specs.Prelude.{◌≡◌, ◌∷◌, [], IfOk};
ghost use Rattle.spec_trees.specs.Tree.{IsValid};
ghost use Rattle.spec_searches.specs.Found.{rules};
ghost use Rattle.spec_certificates.specs.Checks.{leaves_from};
ghost use Rattle.gf_cert.specs.Answers.{Gives};
ghost use Rattle.gf_cert.specs.Search.{cutting};
ghost use Rattle.gf_cert.specs.Steps.{AreValid, Reads, coming};

use crate::by_stills::read_by_stills;
use crate::errors::CertError;
use crate::leaves::read_next_line;
use crate::lent_judge::LentJudge;
use de_text::Tokens;
use event_judge::{EventJudge, Judge, Node};
use spec_trees::Leaf;
use std::alloc::Global;

/// The number of leaves that are judged before still spans are sought, so that a text of few leaves, or with a fault in
/// one of the first, costs no search for them.
const LEAVES_BEFORE_STILLS: u32 = 64;

// Reads the first lines of leaves, at most as many as are judged without still spans. Returns whether the end is among
// them. `plain` is a judge of the same search, and says what marks have to be. The error is the first line that breaks a rule, or out of memory.
fn read_first_lines<P: Judge>(
    judge: &EventJudge<'_>,
    plain: &P,
    waiting: &mut Vec<Node>,
    found: &mut Vec<Leaf>,
    lines: &mut Tokens<'_>,
) -> Result<bool, CertError>
    requires rules { P.rules plain.now ≡ rules judge.now.search }
    requires waiting { AreValid (rules judge.now.search) waiting.old.items }
    ensures read { Reads (coming judge.now.search found.old.items waiting.old.items lines.old)
        (coming judge.now.search found.new.items waiting.new.items lines.new)
        found.new.items result }
    ensures waiting { IfOk result (λ _. AreValid (rules judge.now.search) waiting.new.items) }
{
    for _ in 0..LEAVES_BEFORE_STILLS {
        let ended = read_next_line(judge, plain, waiting, found, lines)?;
        if ended {
            return Ok(true);
        }
    }
    Ok(false)
}

/// Reads leaves from the remaining lines of a certificate up to its end, and returns them. They have to follow one
/// another over the root. The error is the first line that breaks a rule, or out of memory.
pub(crate) fn read_leaves(
    alloc: Global,
    judge: &EventJudge<'_>,
    root: Node,
    lines: &mut Tokens<'_>,
) -> Result<Vec<Leaf>, CertError>
    requires { IsValid (rules judge.now.search) root }
    ensures { Gives (λ found. found.items)
        (leaves_from (cutting judge.now.search) lines.old.end_line (root ∷ []) 0 lines.old.left)
        result }
{
    let plain = LentJudge { judge };
    let mut waiting = Vec::new(alloc);
    waiting.push(root)?;
    let mut found = Vec::new(alloc);
    let ended = read_first_lines(judge, &plain, &mut waiting, &mut found, lines)?;
    if ended {
        return Ok(found);
    }
    match read_by_stills(
        alloc,
        judge,
        &plain,
        root.b,
        &mut waiting,
        &mut found,
        lines,
    ) {
        Ok(()) => Ok(found),
        Err(error) => Err(error),
    }
}
