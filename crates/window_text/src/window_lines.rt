// The lines of windows, and of spans of calendar times. Calls that append fail only if memory runs out.
ghost use Rattle.std.specs.Prelude.{◌≡◌, ◌++◌, All, OnOk, string_bytes};
ghost use Rattle.spec_ephemeris.specs.Ticks.{IsTick};
ghost use Rattle.spec_output.specs.Report.{HasTimes, end_line, line_end, line_of, line_word, span_text, window_lines};
ghost use Rattle.spec_times.specs.Ticks.{IsTimeIn};

use crate::counting::{certain_count, undecided_count};
use crate::pieces::{add_last_number, add_number};
use crate::printing::add_time_in_ticks;
use spec_trees::{Holds, Turn, Window};
use std::alloc::AllocError;

/// Appends a line for each window, in their order. Times come in ticks since J2000 in TDB, and are printed as calendar
/// texts. The only error is out of memory.
pub(crate) fn add_windows(
    text: &mut String,
    tick: u32,
    windows: &[Window],
) -> Result<(), AllocError>
    requires tick { IsTick tick }
    requires windows { All (HasTimes tick) windows.now }
    ensures { OnOk result (string_bytes text.new
        ≡ string_bytes text.old ++ window_lines tick windows.now) }
{
    for window in windows {
        add_window(text, tick, *window)?;
    }
    Ok(())
}

// Appends the line of a window: its sort, its first and last time as calendar texts, and the direction of a certain
// event. Times come in ticks since J2000 in TDB. The only error is out of memory.
fn add_window(text: &mut String, tick: u32, window: Window) -> Result<(), AllocError>
    requires tick { IsTick tick }
    requires times { HasTimes tick window }
    ensures { OnOk result (string_bytes text.new
        ≡ string_bytes text.old ++ line_of tick window.first window.last window.holds) }
{
    let holds = window.holds;
    add_span_line(
        text,
        tick,
        line_word(holds),
        window.first,
        window.last,
        line_end(holds),
    )
}

/// Returns the word that starts a window's line: `C ` if the window holds exactly one event, `U ` if it is undecided.
pub(crate) fn line_word(holds: Holds) -> &'static str
    ensures { result.now ≡ line_word holds }
{
    match holds {
        Holds::Certain(_) => "C ",
        Holds::Undecided => "U ",
    }
}

/// Returns the text that ends a window's line: the direction of a certain event, if it holds one, and the line feed.
pub(crate) fn line_end(holds: Holds) -> &'static str
    ensures { result.now ≡ line_end holds }
{
    match holds {
        Holds::Certain(Turn::Rise) => " rise\n",
        Holds::Certain(Turn::Fall) => " fall\n",
        Holds::Undecided => "\n",
    }
}

/// Appends a line: a word, the calendar texts of two times in ticks since J2000 in TDB, and the text `end`, which ends
/// the line. The only error is out of memory.
pub(crate) fn add_span_line(
    text: &mut String,
    tick: u32,
    word: &str,
    first: i64,
    last: i64,
    end: &str,
) -> Result<(), AllocError>
    requires tick { IsTick tick }
    requires first { IsTimeIn tick first }
    requires last { IsTimeIn tick last }
    ensures { OnOk result (string_bytes text.new
        ≡ string_bytes text.old ++ (word.now ++ span_text tick first last ++ end.now)) }
{
    add_span(text, word, tick, first, last)?;
    text.push_str(end)
}

/// Appends a word and then the calendar texts of two times in ticks since J2000 in TDB, with a blank between them. The
/// only error is out of memory.
pub(crate) fn add_span(
    text: &mut String,
    word: &str,
    tick: u32,
    first: i64,
    last: i64,
) -> Result<(), AllocError>
    requires tick { IsTick tick }
    requires first { IsTimeIn tick first }
    requires last { IsTimeIn tick last }
    ensures { OnOk result (string_bytes text.new
        ≡ string_bytes text.old ++ (word.now ++ span_text tick first last)) }
{
    text.push_str(word)?;
    add_time_in_ticks(text, tick, first)?;
    text.push_str(" ")?;
    add_time_in_ticks(text, tick, last)
}

/// Appends the last line of a report: the numbers of certain and of undecided windows. The only error is out of memory.
pub(crate) fn add_end_line(text: &mut String, windows: &[Window]) -> Result<(), AllocError>
    ensures { OnOk result (string_bytes text.new ≡ string_bytes text.old ++ end_line windows.now) }
{
    add_number(text, "END certain ", certain_count(windows) as u64)?;
    add_last_number(text, " undecided ", undecided_count(windows) as u64, "\n")
}
