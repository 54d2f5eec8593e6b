// From the words of a command line to the text that they ask for: one command, one module.
ghost use Rattle.std.specs.Prelude.{◌≡◌, IfErr, IfOk};
ghost use Rattle.spec_requests.specs.Requests.{request_of};
ghost use Rattle.gf_find.specs.Outcomes.{HaveCause, texts_of};
ghost use Rattle.gf_find.specs.Reported.{OpensNone};
ghost use Rattle.gf_find.specs.Searchers.{ReturnsLeaves, ReturnsPassings, ReturnsTimes, TakesPolynomials, TakesRelations, TakesSearches};
ghost use Rattle.gf_find.specs.Texts.{IsAnswered};

use crate::cert::certificate_in_files;
use crate::check::summary_of_files;
use crate::find::search_report_of_files;
use crate::generated::lines_of_generation;
use crate::scalar::report_of_scalar;
use crate::set::set_report_of_files;
use crate::verify::verify_over_files;
use eph_model::Ephemeris;
use gf_edges::Shelf;
use gf_search::Wanted;
use gf_sets::Pair;
use gf_words::request;
use spec_outcomes::{Query, Refusal, Span};
use spec_requests::{Relation, Request, ScalarAsk};
use spec_text::Decimal;
use spec_trees::Leaf;
use std::alloc::Global;

/// Returns the text that the words of a command line ask for, without the program's name, or why there is none. The
/// shelf stays as it was if the request opens no file.
///
/// What searches comes in as three calls, which take what is within the limits and return what is wanted, or why there is
/// none. `leaves` is given the number of workers and the most leaves of a search, and searches a span of an ephemeris
/// for the events of a query. `related` finds the times at which the function of a query has a relation to its
/// references, the second of which may be given beside it. `scalar` finds the times at which a polynomial passes 0.
/// Times are in the ticks of the ephemeris since J2000 in TDB.
pub fn text_by<
    S: Shelf,
    L: Fn(u32, u32, Wanted, &Ephemeris, &Query, Span) -> Result<Vec<Leaf>, Refusal>,
    T: Fn(u32, &Ephemeris, &Query, Option<Decimal>, Relation, Span) -> Result<Pair, Refusal>,
    C: Fn(&ScalarAsk) -> Result<Vec<Leaf>, Refusal>,
>(
    alloc: Global,
    words: &[String],
    shelf: &mut S,
    leaves: &L,
    related: &T,
    scalar: &C,
) -> Result<Vec<u8>, Refusal>
    requires takes_searches { TakesSearches (L.pre leaves.now) }
    requires returns_leaves { ReturnsLeaves (L.post leaves.now) }
    requires takes_relations { TakesRelations (T.pre related.now) }
    requires returns_times { ReturnsTimes (T.post related.now) }
    requires takes_polynomials { TakesPolynomials (C.pre scalar.now) }
    requires returns_passings { ReturnsPassings (C.post scalar.now) }
    ensures answered { IfOk result (λ text.
        IsAnswered words.now (S.files shelf.old) text.items) }
    ensures refused { IfErr result (λ refusal. HaveCause words.now
        (S.files shelf.old) (S.faults shelf.old) (S.faults shelf.new) refusal) }
    ensures unopened { OpensNone (request_of (texts_of words.now)) → shelf.new ≡ shelf.old }
{
    match request(alloc, words)? {
        Request::Find(find) => search_report_of_files(alloc, shelf, &find, leaves),
        Request::Cert(find) => certificate_in_files(alloc, shelf, &find, leaves),
        Request::Verify { find, cert } => verify_over_files(alloc, shelf, &find, &cert),
        Request::Check { files } => summary_of_files(alloc, shelf, files.as_slice()),
        Request::Gen {
            blocks,
            seed,
            workers,
        } => lines_of_generation(alloc, blocks, seed, workers, leaves),
        Request::Set {
            find,
            ref2,
            relation,
        } => set_report_of_files(alloc, shelf, &find, ref2, relation, related),
        Request::Scalar(ask) => report_of_scalar(alloc, &ask, scalar),
    }
}
