// The texts about a search of an ephemeris: reports, and the two lines of a generated text.
ghost use Rattle.std.specs.Prelude.{◌≡◌, ◌++◌, All, IfOk, OnOk, string_bytes};
ghost use Rattle.spec_ephemeris.specs.Ticks.{IsTick};
ghost use Rattle.spec_output.specs.Report.{HasTimes, generation, report, request_line, verification};
ghost use Rattle.spec_times.specs.Ticks.{IsTimeIn};

use crate::Memory;
use crate::pieces::{add_last_number, add_line_feed, add_number};
use crate::query_lines::add_query_line;
use crate::window_lines::{add_end_line, add_windows};
use spec_requests::{FindAsk, dir_name};
use spec_trees::Window;
use std::alloc::{AllocError, Global};

/// Returns the report of the windows that a search found over a span: the request, a line for each window, and the
/// counts of windows. Times come in ticks since J2000 in TDB, and are printed as calendar texts. The only error is out
/// of memory.
pub fn report(
    alloc: Global,
    find: &FindAsk,
    from: i64,
    to: i64,
    windows: &[Window],
) -> Result<Vec<u8>, Memory>
    requires tick { IsTick find.now.tick }
    requires from { IsTimeIn find.now.tick from }
    requires to { IsTimeIn find.now.tick to }
    requires windows { All (HasTimes find.now.tick) windows.now }
    ensures { IfOk result (λ text. text.items ≡ report find.now from to windows.now) }
{
    let mut text = String::new(alloc);
    add_report(&mut text, find, from, to, windows)?;
    Ok(text.into_bytes())
}

// Appends the report of the windows that a search found over a span: the request, a line for each window, and the
// counts of windows. The only error is out of memory.
fn add_report(
    text: &mut String,
    find: &FindAsk,
    from: i64,
    to: i64,
    windows: &[Window],
) -> Result<(), AllocError>
    requires tick { IsTick find.now.tick }
    requires from { IsTimeIn find.now.tick from }
    requires to { IsTimeIn find.now.tick to }
    requires windows { All (HasTimes find.now.tick) windows.now }
    ensures { OnOk result (string_bytes text.new
        ≡ string_bytes text.old ++ report find.now from to windows.now) }
{
    add_request_line(text, find, from, to)?;
    add_line_feed(text)?;
    add_windows(text, find.tick, windows)?;
    add_end_line(text, windows)
}

/// Returns the two lines that `gen` prints: the layout, the blocks, the seed and the bytes of the generated text, and the
/// counts of the windows that a search found in it. The only error is out of memory.
pub fn generation(
    alloc: Global,
    blocks: u32,
    seed: u64,
    bytes: usize,
    windows: &[Window],
) -> Result<Vec<u8>, Memory>
    ensures { IfOk result (λ text. text.items ≡ generation blocks seed bytes windows.now) }
{
    let mut text = String::new(alloc);
    add_number(&mut text, "GEN 405 blocks ", blocks as u64)?;
    add_number(&mut text, " seed ", seed)?;
    add_last_number(&mut text, " bytes ", bytes as u64, "\n")?;
    add_end_line(&mut text, windows)?;
    Ok(text.into_bytes())
}

/// Returns the report of a certificate that was accepted: that of its windows over a span, and a line with the number
/// of its leaves. Times come in ticks since J2000 in TDB. The only error is out of memory.
pub fn verification(
    alloc: Global,
    find: &FindAsk,
    from: i64,
    to: i64,
    windows: &[Window],
    leaves: u64,
) -> Result<Vec<u8>, Memory>
    requires tick { IsTick find.now.tick }
    requires from { IsTimeIn find.now.tick from }
    requires to { IsTimeIn find.now.tick to }
    requires windows { All (HasTimes find.now.tick) windows.now }
    ensures { IfOk result (λ text.
        text.items ≡ verification find.now from to windows.now leaves) }
{
    let mut text = String::new(alloc);
    add_report(&mut text, find, from, to, windows)?;
    add_last_number(&mut text, "VERIFIED leaves ", leaves, "\n")?;
    Ok(text.into_bytes())
}

/// Returns the line of a request without its line feed. It ends with the span, the calendar texts of `from` and `to`,
/// which come in ticks since J2000 in TDB. The only error is out of memory.
pub fn request_line(alloc: Global, find: &FindAsk, from: i64, to: i64) -> Result<Vec<u8>, Memory>
    requires tick { IsTick find.now.tick }
    requires from { IsTimeIn find.now.tick from }
    requires to { IsTimeIn find.now.tick to }
    ensures { IfOk result (λ text. text.items ≡ request_line find.now from to) }
{
    let mut text = String::new(alloc);
    add_request_line(&mut text, find, from, to)?;
    Ok(text.into_bytes())
}

// Appends the line of a request without its line feed, with its span as calendar texts. Times come in ticks since J2000
// in TDB. The only error is out of memory.
fn add_request_line(text: &mut String, find: &FindAsk, from: i64, to: i64) -> Result<(), AllocError>
    requires tick { IsTick find.now.tick }
    requires from { IsTimeIn find.now.tick from }
    requires to { IsTimeIn find.now.tick to }
    ensures { OnOk result (string_bytes text.new
        ≡ string_bytes text.old ++ request_line find.now from to) }
{
    add_query_line(
        text,
        "FIND ",
        " dir ",
        dir_name(find.ask.dir),
        find,
        from,
        to,
    )
}
