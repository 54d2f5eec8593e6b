// The workers of a search, and what they work with.
ghost use Rattle.std.specs.Prelude.{◌≤◌};
ghost use Rattle.spec_requests.specs.declared.limits.TheConstants.{MAX_WORKERS};

use std::alloc::Global;

/// From 1 to 64 workers that search at once, with what they work with and the most leaves that they may find.
#[derive(Drop)]
pub struct Crew<'c, R, G> {
    /// The runtime that starts the workers' threads.
    pub runtime: &'c R,
    /// The allocator of the workers' memory.
    pub alloc: Global,
    /// The number of workers.
    pub workers: u32,
    /// The most leaves that a search may have.
    pub max_leaves: u32,
    /// The gate that each worker passes before it judges a node.
    pub gate: &'c G,
    ghost some: { 1 ≤ workers },
    ghost few: { workers ≤ MAX_WORKERS },
}
