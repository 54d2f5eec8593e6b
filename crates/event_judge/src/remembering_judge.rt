// A judge that remembers.
use crate::memory::Memory;
use crate::named_judge::NamedJudge;
use crate::naming::Naming;
use gf_hooks::Judge;

/// A judge of a search's nodes, and its memory of them: signs at times, and spans that show the verdicts of nodes.
#[derive(Drop)]
pub struct RememberingJudge<'j, 'e, N: Naming, J: Judge> {
    /// The judge for which this one stands, with its search.
    pub named: NamedJudge<'j, 'e, N, J>,
    pub(crate) memory: Memory<N>,
}
