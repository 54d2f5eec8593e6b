// The asks of which an event can be made.
ghost use Rattle.std.specs.Prelude.{◌≢◌, ◌↔◌, IsTrue, IfSome};
ghost use Rattle.spec_ephemeris.specs.declared.body.Body.TheVariants.{Ssb};
ghost use Rattle.spec_kinds.specs.Asks.{IsAsk};

use eph_model::Body;
use spec_kinds::Ask;

/// Tells whether an event can be made of an ask: it names a second body exactly if its kind takes one, no target is the
/// barycentre of the solar system, and its axis is 0, 1 or 2.
pub fn is_ask(ask: &Ask) -> bool
    ensures { IsTrue result ↔ IsAsk ask.now }
{
    ask.second.is_some() == ask.kind.takes_second()
        && can_be_target(ask.target)
        && can_be_second_target(ask.second)
        && ask.axis < 3
}

// Tells whether a body can be a target, which is any but the barycentre of the solar system.
fn can_be_target(body: Body) -> bool
    ensures { IsTrue result ↔ (body ≢ Ssb) }
{
    body != Body::Ssb
}

// Tells whether the second body of an ask can be a target: any but the barycentre of the solar system, or none at all.
fn can_be_second_target(second: Option<Body>) -> bool
    ensures { IsTrue result ↔ IfSome second (λ body. body ≢ Ssb) }
{
    match second {
        None => true,
        Some(body) => can_be_target(body),
    }
}
