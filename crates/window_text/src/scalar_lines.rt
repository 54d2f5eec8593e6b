// The text about a search of a scalar, whose times are whole numbers. Calls that append fail only if memory runs
// out.
ghost use Rattle.std.specs.Prelude.{◌≡◌, ◌++◌, IfOk, OnOk, string_bytes};
ghost use Rattle.spec_output.specs.Messages.{times};
ghost use Rattle.spec_output.specs.Report.{line_by, scalar_line, scalar_report, scalar_window_lines};

use crate::Memory;
use crate::pieces::{add_line_feed, add_name_and_value, add_number};
use crate::query_lines::add_limits;
use crate::window_lines::{add_end_line, line_end, line_word};
use spec_requests::{ScalarAsk, dir_name};
use spec_trees::Window;
use std::alloc::{AllocError, Global};

/// Returns the report of the search of a polynomial: the request, a line for each window, and the counts of windows.
/// Times are printed as whole numbers. The only error is out of memory.
pub fn scalar_report(alloc: Global, ask: &ScalarAsk, windows: &[Window]) -> Result<Vec<u8>, Memory>
    ensures { IfOk result (λ text. text.items ≡ scalar_report ask.now windows.now) }
{
    let mut text = String::new(alloc);
    add_scalar_line(&mut text, ask)?;
    add_line_feed(&mut text)?;
    add_windows(&mut text, windows)?;
    add_end_line(&mut text, windows)?;
    Ok(text.into_bytes())
}

// Appends the line of the request of a scalar, without its line feed: the polynomial as it was given, the direction,
// the limits and the span. The only error is out of memory.
fn add_scalar_line(text: &mut String, ask: &ScalarAsk) -> Result<(), AllocError>
    ensures { OnOk result
        (string_bytes text.new ≡ string_bytes text.old ++ scalar_line ask.now) }
{
    add_name_and_value(text, "SCALAR quad ", ask.text.as_str())?;
    add_name_and_value(text, " dir ", dir_name(ask.plan.dir))?;
    add_limits(
        text,
        i128::from(ask.plan.width),
        ask.plan.depth,
        ask.plan.cut,
    )?;
    add_time_pair(text, " span ", ask.from, ask.to)
}

// Appends a line for each window of a scalar, in their order, with its times as whole numbers. The only error is out of
// memory.
fn add_windows(text: &mut String, windows: &[Window]) -> Result<(), AllocError>
    ensures { OnOk result (string_bytes text.new
        ≡ string_bytes text.old ++ scalar_window_lines windows.now) }
{
    for window in windows {
        add_window(text, *window)?;
    }
    Ok(())
}

// Appends the line of a window of a scalar: its sort, its times as whole numbers, and the direction of a certain event.
// The only error is out of memory.
fn add_window(text: &mut String, window: Window) -> Result<(), AllocError>
    ensures { OnOk result (string_bytes text.new
        ≡ string_bytes text.old ++ line_by (times window.first window.last) window.holds) }
{
    add_time_pair(text, line_word(window.holds), window.first, window.last)?;
    text.push_str(line_end(window.holds))
}

// Appends a word and then two times as whole numbers, with a blank between them. The only error is out of memory.
fn add_time_pair(text: &mut String, word: &str, first: i64, last: i64) -> Result<(), AllocError>
    ensures { OnOk result (string_bytes text.new
        ≡ string_bytes text.old ++ (word.now ++ times first last)) }
{
    add_number(text, word, first)?;
    add_number(text, " ", last)
}
