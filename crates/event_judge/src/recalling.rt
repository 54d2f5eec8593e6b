// The verdicts and the cuts of a judge that remembers.
ghost use Rattle.std.specs.Prelude.{◌≡◌, IfOk};
ghost use Rattle.spec_searches.specs.Found.{rules};

use crate::event_search::EventSearch;
use crate::memory::Memory;
use crate::named_judge::NamedJudge;
use crate::naming::Naming;
use crate::remembering_judge::RememberingJudge;
use crate::valid_node::ValidNode;
use gf_hooks::{Judge, Node, Verdict, rules_are_sound};
use std::alloc::{AllocError, Global};
use std::marker::PhantomData;

impl<'j, 'e, N: Naming, J: Judge> RememberingJudge<'j, 'e, N, J> {
    /// Makes a judge that says what `judge` does, and remembers nothing yet. The only error is out of memory.
    pub fn new(
        alloc: Global,
        judge: &'j J,
        search: &'j EventSearch<'e>,
    ) -> Result<RememberingJudge<'j, 'e, N, J>, AllocError>
        requires named { search.now ≡ N.search }
        requires rules { J.rules judge.now ≡ rules search.now }
        ensures { IfOk result (λ made. J.rules made.named.judge.now ≡ J.rules judge.now) }
    {
        let memory = Memory::new(alloc)?;
        rules_are_sound(judge);
        let named = NamedJudge {
            judge,
            search,
            of: PhantomData,
        };
        Ok(RememberingJudge { named, memory })
    }
}

impl<'j, 'e, N: Naming + Send + Sync, J: Judge> Judge for RememberingJudge<'j, 'e, N, J> {
    ghost rules = { λ judge. J.rules judge.named.judge.now };

    // Returns the verdict of a node, by what is remembered or anew.
    fn judge(&self, node: Node) -> Verdict {
        self.memory.judge(ValidNode {
            search: self.named.search,
            node,
        })
    }

    // Returns the parts of a node, as the judge does for which this one stands.
    fn cut(&self, node: Node) -> (Node, Node) {
        self.named.judge.cut(node)
    }

    ghost sound = { λ judge. J.sound judge.named.judge.now };
}
