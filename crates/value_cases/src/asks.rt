// The asks of rows: what is asked of an ephemeris.
ghost use Rattle.std.specs.Prelude.{IfOk};
ghost use Rattle.spec_kinds.specs.Asks.{IsAsk};

use crate::fields::{Fields, RowError};
use crate::names::{next_body, next_direction, next_frame, next_kind, next_second_body};
use crate::parts::next_decimal;
use crate::scenes::Scene;
use event_kinds::is_ask;
use spec_kinds::Ask;

/// Reads what is asked of an ephemeris: a kind, target, second body and observer, frame and axis, two values and a
/// direction. An ask that the kind does not allow is malformed.
pub(crate) fn next_ask(fields: &mut Fields<'_>) -> Result<Ask, RowError>
    ensures { IfOk result IsAsk }
{
    let ask = Ask {
        kind: next_kind(fields),
        target: next_body(fields),
        second: next_second_body(fields),
        observer: next_body(fields),
        frame: next_frame(fields),
        axis: fields.next_number::<u8>(),
        value1: next_decimal(fields),
        value2: next_decimal(fields),
        dir: next_direction(fields),
    };
    if is_ask(&ask) {
        Ok(ask)
    } else {
        Err(RowError::Malformed)
    }
}

/// Returns who is seen from where in an ask: its targets, its observer and its frame. If the ask has no second body,
/// its target is both targets.
pub(crate) fn scene_of_ask(ask: &Ask) -> Scene {
    Scene {
        targets: [ask.target, ask.second.unwrap_or(ask.target)],
        observer: ask.observer,
        frame: ask.frame,
    }
}
