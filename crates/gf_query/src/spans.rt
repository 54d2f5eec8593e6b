// The times over which a search goes.
ghost use Rattle.std.specs.Prelude.{◌≡◌, ◌&&◌, IfErr, IfOk, false, true};
ghost use Rattle.spec_ephemeris.specs.Ephemeris.{IsEphemeris};
ghost use Rattle.spec_searches.specs.Found.{root};
ghost use Rattle.spec_outcomes.specs.Queries.{is_within, span_of, whole_span};

use eph_model::Ephemeris;
use spec_outcomes::{Refusal, Span};
use spec_requests::FindAsk;
use spec_trees::Node;

/// Returns the whole span of an ephemeris, in its ticks since J2000 in TDB. The contract also says that the ephemeris
/// is a checked one.
pub fn whole_span(ephemeris: &Ephemeris) -> Span
    ensures span { result ≡ whole_span ephemeris.now }
    ensures checked { IsEphemeris ephemeris.now }
{
    // Only the contract of this call is wanted: it says that the ephemeris is a checked one.
    let _header = ephemeris.header();
    Span {
        from: ephemeris.start(),
        upto: ephemeris.end(),
    }
}

// Returns the span that the words of a search ask for, in ticks since J2000 in TDB. If they leave out its start or its
// end, it has that of the ephemeris.
fn span_of_words(find: &FindAsk, ephemeris: &Ephemeris) -> Span
    ensures { result ≡ span_of find.now ephemeris.now }
{
    Span {
        from: find.from.unwrap_or(ephemeris.start()),
        upto: find.to.unwrap_or(ephemeris.end()),
    }
}

// Tells whether a span ends after it begins, and lies within the times of an ephemeris.
fn is_span_within(span: Span, ephemeris: &Ephemeris) -> bool
    ensures { result ≡ is_within span ephemeris.now }
{
    ephemeris.start() <= span.from && span.from < span.upto && span.upto <= ephemeris.end()
}

/// Returns the span that a search asks of an ephemeris, which counts the ticks of the search. If the words leave out
/// its start or its end, it has that of the ephemeris. The error is `Outside`, if the span holds no time or does not
/// lie within the ephemeris.
pub fn span_asked(find: &FindAsk, ephemeris: &Ephemeris) -> Result<Span, Refusal>
    ensures span { IfOk result (λ span. span ≡ span_of find.now ephemeris.now) }
    ensures within { IfOk result (λ span. is_within span ephemeris.now ≡ true) }
    ensures refused { IfErr result (λ refusal. refusal
        ≡ Refusal.Outside (span_of find.now ephemeris.now) (whole_span ephemeris.now)) }
    ensures outside { IfErr result (λ _.
        is_within (span_of find.now ephemeris.now) ephemeris.now ≡ false) }
{
    let span = span_of_words(find, ephemeris);
    if is_span_within(span, ephemeris) {
        Ok(span)
    } else {
        Err(Refusal::Outside {
            span,
            whole: whole_span(ephemeris),
        })
    }
}

/// Returns the root of the tree of a search over a span: a node of all its times, at depth 0.
pub fn root_of(span: Span) -> Node
    ensures { result ≡ root span.from span.upto }
{
    Node {
        a: span.from,
        b: span.upto,
        depth: 0,
    }
}
