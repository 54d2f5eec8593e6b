// The line of a request: the event, what is wanted of it, how it is searched for, and the span. Calls fail only if
// memory runs out.
ghost use Rattle.std.specs.Prelude.{◌≡◌, ◌++◌, OnOk, string_bytes};
ghost use Rattle.spec_ephemeris.specs.Ticks.{IsTick};
ghost use Rattle.spec_output.specs.Report.{axes_text, axis_of_kind, bodies_text, event_text, limits_text, query_line, query_text, second_name, ticks_text};
ghost use Rattle.spec_times.specs.Ticks.{IsTimeIn};

use crate::pieces::{add_name_and_value, add_number};
use crate::window_lines::add_span;
use spec_ephemeris::Body;
use spec_kinds::{Ask, Kind};
use spec_requests::{FindAsk, axis_name, body_name, cut_name, frame_name};
use spec_trees::CutRule;
use std::alloc::AllocError;

/// Appends the line of a request without its line feed. It has the first word `word`, the event, what is wanted of it
/// (`name` and then `wanted`, as its direction), the limits of the search, and the span as calendar texts. Times are in
/// ticks since J2000 in TDB. The only error is out of memory.
pub(crate) fn add_query_line(
    text: &mut String,
    word: &str,
    name: &str,
    wanted: &str,
    find: &FindAsk,
    from: i64,
    to: i64,
) -> Result<(), AllocError>
    requires tick { IsTick find.now.tick }
    requires from { IsTimeIn find.now.tick from }
    requires to { IsTimeIn find.now.tick to }
    ensures { OnOk result (string_bytes text.new
        ≡ string_bytes text.old
        ++ query_line word.now (name.now ++ wanted.now) find.now from to) }
{
    add_query_up_to_span(text, word, name, wanted, find)?;
    add_span(text, " span ", find.tick, from, to)
}

// Appends the line of a request as far as its span: the first word `word`, the event, what is wanted of it (`name` and
// then `wanted`), and the limits of the search. The only error is out of memory.
fn add_query_up_to_span(
    text: &mut String,
    word: &str,
    name: &str,
    wanted: &str,
    find: &FindAsk,
) -> Result<(), AllocError>
    ensures { OnOk result (string_bytes text.new
        ≡ string_bytes text.old ++ query_text word.now (name.now ++ wanted.now) find.now) }
{
    add_event(text, word, find)?;
    add_name_and_value(text, name, wanted)?;
    add_limits(text, i128::from(find.width), find.depth, find.cut)?;
    add_tick_rate(text, find.tick)
}

// Appends a first word and then an event: its kind, bodies, frame and axis, and its numbers as they were given. The
// only error is out of memory.
fn add_event(text: &mut String, word: &str, find: &FindAsk) -> Result<(), AllocError>
    ensures { OnOk result (string_bytes text.new
        ≡ string_bytes text.old ++ event_text word.now find.now) }
{
    add_name_and_value(text, word, find.ask.kind.name())?;
    add_bodies(text, find.ask)?;
    add_frame_and_axis(text, find.ask)?;
    add_name_and_value(text, " values ", find.values.as_str())
}

// Appends the names of the target, the second body and the observer of an event to a line. The only error is out of
// memory.
fn add_bodies(text: &mut String, ask: Ask) -> Result<(), AllocError>
    ensures { OnOk result (string_bytes text.new ≡ string_bytes text.old ++ bodies_text ask) }
{
    add_name_and_value(text, " target ", body_name(ask.target))?;
    add_name_and_value(text, " second ", second_body_name(ask.second))?;
    add_name_and_value(text, " observer ", body_name(ask.observer))
}

// Returns the name of the second body of an event, or `-` if there is none.
fn second_body_name(second: Option<Body>) -> &'static str
    ensures { result.now ≡ second_name second }
{
    match second {
        Some(body) => body_name(body),
        None => "-",
    }
}

// Appends the names of the frame and the axis of an event to a line. The only error is out of memory.
fn add_frame_and_axis(text: &mut String, ask: Ask) -> Result<(), AllocError>
    ensures { OnOk result (string_bytes text.new ≡ string_bytes text.old ++ axes_text ask) }
{
    add_name_and_value(text, " frame ", frame_name(ask.frame))?;
    add_name_and_value(text, " axis ", axis_name_of_kind(ask.kind, ask.axis))
}

// Returns the name of an axis, 0 to 2, or `-` for a kind of event that has no axis.
fn axis_name_of_kind(kind: Kind, axis: u8) -> &'static str
    ensures { result.now ≡ axis_of_kind kind axis }
{
    if kind.axis().is_unused() {
        "-"
    } else {
        axis_name(axis)
    }
}

/// Appends the limits of a search to a line: the greatest width of a window in ticks, the depth, and the rule by which
/// nodes are cut. The only error is out of memory.
pub(crate) fn add_limits(
    text: &mut String,
    width: i128,
    depth: u32,
    cut: CutRule,
) -> Result<(), AllocError>
    ensures { OnOk result
        (string_bytes text.new ≡ string_bytes text.old ++ limits_text width depth cut) }
{
    let mut buffer = itoa::Buffer::new();
    add_name_and_value(text, " width ", buffer.format(width))?;
    add_number(text, " depth ", depth as u64)?;
    add_name_and_value(text, " cut ", cut_name(cut))
}

// Appends the number of ticks in a second to a line, or nothing if a tick is a second. The only error is out of memory.
fn add_tick_rate(text: &mut String, tick: u32) -> Result<(), AllocError>
    ensures { OnOk result (string_bytes text.new ≡ string_bytes text.old ++ ticks_text tick) }
{
    if tick == 1 {
        return Ok(());
    }
    add_number(text, " tick ", tick as u64)
}
