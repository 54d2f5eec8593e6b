// The command `gen`: the two lines about a search in a generated text.
ghost use Rattle.std.specs.Prelude.{◌≡◌, ◌∷◌, [], ◌⊎◌, ◌<◌, ◌≤◌, Err, IfErr, IfOk, Ok, length, string_bytes};
ghost use Rattle.spec_ephemeris.specs.Ephemeris as e;
ghost use Rattle.spec_files.specs.Outcome.{outcome};
ghost use Rattle.spec_generated.specs.declared.limits.TheConstants.{MAX_GENERATED};
ghost use Rattle.spec_generated.specs.Generated.{generated_ephemeris, generated_text};
ghost use Rattle.spec_trees.specs.Tree.{Covers};
ghost use Rattle.spec_trees.specs.Windows.{windows};
ghost use Rattle.spec_requests.specs.declared.limits.TheConstants.{MAX_WORKERS};
ghost use Rattle.spec_output.specs.Report.{generation};
ghost use Rattle.spec_outcomes.specs.Outcomes.{generation_of};
ghost use Rattle.gf_find.specs.Generates.{IsGeneration};
ghost use Rattle.gf_find.specs.Searchers.{ReturnsLeaves, TakesSearches};

use crate::files::ephemeris_of_files;
use crate::text_shelf::TextShelf;
use eph_gen::generate;
use eph_model::Ephemeris;
use gf_query::whole_span;
use gf_search::Wanted;
use ordered_join::leaf_windows;
use spec_outcomes::{Query, Refusal, Span, conjunctions};
use spec_output::MAX_LEAVES;
use spec_trees::Leaf;
use std::alloc::Global;
use window_text::generation;

// Returns the empty name, which is that of the one file of a `TextShelf`.
fn empty_name(alloc: Global) -> String
    ensures { string_bytes result ≡ [] }
{
    String::new(alloc)
}

// Reads the ephemeris in a text in memory, as if it were a file. If the text holds one, the only error is out of
// memory.
fn ephemeris_of_text(alloc: Global, text: &[u8]) -> Result<Ephemeris, Refusal>
    ensures read { IfOk result (λ e. outcome (text.now ∷ []) ≡ Ok e) }
    ensures refused { (e : e.Ephemeris) → outcome (text.now ∷ []) ≡ Ok e
        → IfErr result (λ refusal. refusal ≡ Refusal.Memory) }
{
    let mut shelf = TextShelf::new(text);
    ephemeris_of_files(alloc, &mut shelf, &[empty_name(alloc)])
}

// Returns the two lines that `gen` prints: the blocks, the seed and the number of bytes of the generated text, and the
// counts of the windows that leaves make, which cover its span. The only error is out of memory.
fn lines_of_leaves(
    alloc: Global,
    blocks: u32,
    seed: u64,
    bytes: usize,
    span: Span,
    leaves: &[Leaf],
) -> Result<Vec<u8>, Refusal>
    requires { Covers span.from leaves.now span.upto }
    ensures text { IfOk result (λ text.
        text.items ≡ generation blocks seed bytes (windows leaves.now)) }
    ensures memory { IfErr result (λ refusal. refusal ≡ Refusal.Memory) }
{
    let windows = leaf_windows(alloc, leaves)?;
    let lines = generation(alloc, blocks, seed, bytes, &windows)?;
    Ok(lines)
}

// Searches the ephemeris of a generated text of `bytes` bytes for conjunctions, and returns the two lines that `gen`
// prints, or why there are none.
fn lines_of_ephemeris<
    L: Fn(u32, u32, Wanted, &Ephemeris, &Query, Span) -> Result<Vec<Leaf>, Refusal>,
>(
    alloc: Global,
    blocks: u32,
    seed: u64,
    workers: u32,
    bytes: usize,
    ephemeris: &Ephemeris,
    leaves: &L,
) -> Result<Vec<u8>, Refusal>
    requires some { 0 < blocks }
    requires some_workers { 1 ≤ workers }
    requires workers { workers ≤ MAX_WORKERS }
    requires bytes { bytes ≡ length (generated_text blocks seed) }
    requires same { ephemeris.now ≡ generated_ephemeris blocks seed }
    requires takes_searches { TakesSearches (L.pre leaves.now) }
    requires returns_leaves { ReturnsLeaves (L.post leaves.now) }
    ensures lines { IfOk result (λ text. IsGeneration blocks seed text.items) }
    ensures stopped { IfErr result (λ refusal. (refusal ≡ Refusal.Memory)
        ⊎ (generation_of blocks seed ≡ Err refusal)) }
{
    let span = whole_span(ephemeris);
    let query = conjunctions();
    match leaves(workers, MAX_LEAVES, Wanted::Leaves, ephemeris, &query, span) {
        Ok(found) => lines_of_leaves(alloc, blocks, seed, bytes, span, &found),
        Err(refusal) => Err(refusal),
    }
}

// Reads a generated text, searches its ephemeris for conjunctions, and returns the two lines that `gen` prints, or why
// there are none.
fn lines_of_text<L: Fn(u32, u32, Wanted, &Ephemeris, &Query, Span) -> Result<Vec<Leaf>, Refusal>>(
    alloc: Global,
    blocks: u32,
    seed: u64,
    workers: u32,
    text: &[u8],
    leaves: &L,
) -> Result<Vec<u8>, Refusal>
    requires some { 0 < blocks }
    requires some_workers { 1 ≤ workers }
    requires workers { workers ≤ MAX_WORKERS }
    requires text { text.now ≡ generated_text blocks seed }
    requires accepted { outcome (text.now ∷ []) ≡ Ok (generated_ephemeris blocks seed) }
    requires takes_searches { TakesSearches (L.pre leaves.now) }
    requires returns_leaves { ReturnsLeaves (L.post leaves.now) }
    ensures lines { IfOk result (λ text. IsGeneration blocks seed text.items) }
    ensures stopped { IfErr result (λ refusal. (refusal ≡ Refusal.Memory)
        ⊎ (generation_of blocks seed ≡ Err refusal)) }
{
    let ephemeris = ephemeris_of_text(alloc, text)?;
    lines_of_ephemeris(alloc, blocks, seed, workers, text.len(), &ephemeris, leaves)
}

/// Generates the text of `blocks` blocks from this seed, searches its ephemeris for conjunctions, and returns the two
/// lines that `gen` prints, or why there are none.
pub(crate) fn lines_of_generation<
    L: Fn(u32, u32, Wanted, &Ephemeris, &Query, Span) -> Result<Vec<Leaf>, Refusal>,
>(alloc: Global, blocks: u32, seed: u64, workers: u32, leaves: &L) -> Result<Vec<u8>, Refusal>
    requires some { 0 < blocks }
    requires some_workers { 1 ≤ workers }
    requires workers { workers ≤ MAX_WORKERS }
    requires few { blocks ≤ MAX_GENERATED }
    requires takes_searches { TakesSearches (L.pre leaves.now) }
    requires returns_leaves { ReturnsLeaves (L.post leaves.now) }
    ensures lines { IfOk result (λ text. IsGeneration blocks seed text.items) }
    ensures stopped { IfErr result (λ refusal. (refusal ≡ Refusal.Memory)
        ⊎ (generation_of blocks seed ≡ Err refusal)) }
{
    let text = generate(alloc, blocks, seed)?;
    lines_of_text(alloc, blocks, seed, workers, &text, leaves)
}
