// What is searched for, and over which times.
ghost use Rattle.std.specs.Prelude.{◌≡◌};
ghost use Rattle.spec_outcomes.specs.Queries.{conjunctions, query_of};

use spec_bodies::Frame;
use spec_ephemeris::Body;
use spec_events::Dir;
use spec_kinds::{Ask, Kind};
use spec_requests::FindAsk;
use spec_text::Decimal;
use spec_trees::CutRule;

/// A search: the events that are asked for, the greatest width of an event's window in ticks, the depth to which
/// nodes are cut, and the rule by which they are cut.
#[derive(Clone, Copy)]
pub struct Query {
    pub ask: Ask,
    pub width: i64,
    pub depth: u32,
    pub cut: CutRule,
}

/// The times after `from` and up to `upto`, in ticks since J2000 in TDB.
#[derive(Clone, Copy)]
pub struct Span {
    pub from: i64,
    pub upto: i64,
}

/// Returns the search that `gen` makes in its text: conjunctions of Mercury and Venus, seen from the Earth along
/// equatorial axes, in any direction, with windows of one tick, depth 40 and cuts in the middle.
pub fn conjunctions() -> Query
    ensures { result ≡ conjunctions }
{
    let nought = Decimal { mant: 0, exp: 0 };
    Query {
        ask: Ask {
            kind: Kind::Conj,
            target: Body::Mercury,
            second: Some(Body::Venus),
            observer: Body::Earth,
            frame: Frame::Eq,
            axis: 0,
            value1: nought,
            value2: nought,
            dir: Dir::Any,
        },
        width: 1,
        depth: 40,
        cut: CutRule::Half,
    }
}

/// Returns the query that the words of a search ask for: its event, width, depth and cut rule, without its span, its
/// files and its workers.
pub fn query_of(find: &FindAsk) -> Query
    ensures { result ≡ query_of find.now }
{
    Query {
        ask: find.ask,
        width: find.width,
        depth: find.depth,
        cut: find.cut,
    }
}
