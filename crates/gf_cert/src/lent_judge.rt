// The judge of a search, lent to calls that are given that judge beside it.
ghost use Rattle.spec_searches.specs.Found.{rules};

use event_judge::{EventJudge, Judge, Node, Verdict};

/// Stands for the judge of a search where a call takes that judge and another one of the same search.
#[derive(Drop)]
pub(crate) struct LentJudge<'j, 'e> {
    pub(crate) judge: &'j EventJudge<'e>,
}

impl<'j, 'e> Judge for LentJudge<'j, 'e> {
    ghost rules = { λ lent. rules lent.judge.now.search };

    // Returns the verdict of a node, as the other judge does.
    fn judge(&self, node: Node) -> Verdict {
        self.judge.judge(node)
    }

    // Returns the parts of a node, as the other judge does.
    fn cut(&self, node: Node) -> (Node, Node) {
        self.judge.cut(node)
    }

    ghost sound = { λ lent. lent.judge.now.sound };
}
