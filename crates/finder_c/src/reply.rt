// The reply to a call, from its bytes: by one thread, over the files that came with it.
ghost use Rattle.std.specs.Prelude.{◌≡◌, ◌≢◌, [], IfErr, IfOk, Some};
ghost use Rattle.spec_requests.specs.Limits.{IsScalarWithinLimits};
ghost use Rattle.spec_outcomes.specs.Queries.{IsQuery};
ghost use Rattle.spec_outcomes.specs.Sets.{IsSetQuery};
ghost use Rattle.gf_find.specs.Outcomes.{HaveCause};
ghost use Rattle.gf_find.specs.Searchers.{AreLeavesReturned, ArePassingsReturned, AreTimesReturned, IsSearchable};
ghost use Rattle.gf_find.specs.Texts.{IsAnswered};
ghost use Rattle.finder_c.specs.Calls.{IsLine, IsReply};
ghost use Rattle.finder_c.specs.Layout.{entries};

use crate::layout::{NamedBytes, files_of_bytes, words_of_bytes};
use crate::shelf::CallShelf;
use eph_model::Ephemeris;
use gf_find::{line_of_refusal, text_by};
use gf_search::{Wanted, leaves_alone, related_alone, search_scalar_alone};
use gf_sets::Pair;
use spec_outcomes::{Query, REPORTED, Refusal, Span};
use spec_requests::{Relation, ScalarAsk};
use spec_text::Decimal;
use spec_trees::Leaf;
use std::alloc::{AllocError, Global};

/// The status of a call whose bytes are not laid out as `include/finder.h` says.
pub const MALFORMED: u8 = 64;

/// The reply to a call: a status, and a text or the line of a refusal.
#[derive(Drop)]
pub(crate) struct Reply {
    pub(crate) status: u8,
    pub(crate) text: Vec<u8>,
}

// Returns the text that words ask for over files, as the program does with one thread, or why there is none.
fn text_alone(
    alloc: Global,
    words: &[String],
    shelf: &mut CallShelf<'_>,
) -> Result<Vec<u8>, Refusal>
    ensures answered { IfOk result (λ text.
        IsAnswered words.now (Some shelf.old.files) text.items) }
    ensures refused { IfErr result (λ refusal.
        HaveCause words.now (Some shelf.old.files) 0 0 refusal) }
{
    let leaves = |workers: u32, max_leaves: u32, wanted: Wanted, ephemeris: &Ephemeris, query: &Query, span: Span| -> Result<
        Vec<Leaf>,
        Refusal,
    >
        requires query { IsQuery query.now }
        requires span { IsSearchable workers ephemeris.now span }
        ensures { AreLeavesReturned max_leaves wanted query.now ephemeris.now span result }
    { leaves_alone(alloc, max_leaves, wanted, ephemeris, query, span) };
    let related = |workers: u32, ephemeris: &Ephemeris, query: &Query, ref2: Option<
        Decimal,
    >, relation: Relation, span: Span| -> Result<Pair, Refusal>
        requires query { IsSetQuery query.now }
        requires span { IsSearchable workers ephemeris.now span }
        ensures { AreTimesReturned relation ref2 query.now ephemeris.now span result }
    { related_alone(alloc, ephemeris, query, ref2, relation, span) };
    let scalar = |ask: &ScalarAsk| -> Result<Vec<Leaf>, Refusal>
        requires { IsScalarWithinLimits ask.now }
        ensures { ArePassingsReturned ask.now result }
    { search_scalar_alone(alloc, ask) };
    text_by(alloc, words, shelf, &leaves, &related, &scalar)
}

// Returns the reply to words over files. The only error is out of memory.
fn reply_of_files(
    alloc: Global,
    words: &[String],
    files: Vec<NamedBytes<'_>>,
) -> Result<Reply, AllocError>
    ensures reported { IfOk result (λ reply. reply.status ≡ REPORTED
        → IsAnswered words.now (Some (entries files.entry.items)) reply.text.items) }
    ensures refused { IfOk result (λ reply. reply.status ≢ REPORTED
        → IsLine reply.status reply.text.items words.now (entries files.entry.items)) }
    ensures well_formed { IfOk result (λ reply. reply.status ≢ MALFORMED) }
{
    let mut shelf = CallShelf::new(files);
    match text_alone(alloc, words, &mut shelf) {
        Ok(text) => Ok(Reply {
            status: REPORTED,
            text,
        }),
        Err(refusal) => match line_of_refusal(alloc, &refusal) {
            Ok(text) => Ok(Reply {
                status: refusal.status(),
                text,
            }),
            Err(AllocError) => Err(AllocError),
        },
    }
}

// Returns the reply to a call that is malformed.
fn reply_to_malformed(alloc: Global) -> Reply
    ensures status { result.status ≡ MALFORMED }
    ensures text { result.text.items ≡ [] }
{
    Reply {
        status: MALFORMED,
        text: Vec::new(alloc),
    }
}

/// Returns the reply to a call, by the bytes of its words and of its files. The only error is out of memory.
pub(crate) fn reply_to_call(alloc: Global, words: &[u8], files: &[u8]) -> Result<Reply, AllocError>
    ensures { IfOk result (λ reply. IsReply words.now files.now reply.status reply.text.items) }
{
    match words_of_bytes(alloc, words)? {
        Some(given) => match files_of_bytes(alloc, files)? {
            Some(shelf) => reply_of_files(alloc, &given, shelf),
            None => Ok(reply_to_malformed(alloc)),
        },
        None => Ok(reply_to_malformed(alloc)),
    }
}
