// The text of the times at which a function has a relation to its references. Calls that append fail only if
// memory runs out.
ghost use Rattle.std.specs.Prelude.{◌≡◌, ◌++◌, All, IfOk, OnOk, string_bytes};
ghost use Rattle.spec_ephemeris.specs.Ticks.{IsTick};
ghost use Rattle.spec_output.specs.Report.{AreTimesIn, set_lines, set_report, span_lines};
ghost use Rattle.spec_times.specs.Ticks.{IsTimeIn};

use crate::Memory;
use crate::pieces::{add_last_number, add_line_feed, add_number};
use crate::query_lines::add_query_line;
use crate::window_lines::add_span_line;
use spec_requests::{FindAsk, Relation, relation_name};
use std::alloc::{AllocError, Global};

/// Returns the report of the times from `from` to `to` at which a relation holds: the request, a line for each span in
/// which it surely holds, one for each in which it perhaps holds, and the counts of both. Times come in ticks since
/// J2000 in TDB, and are printed as calendar texts. The only error is out of memory.
pub fn set_report(
    alloc: Global,
    find: &FindAsk,
    relation: Relation,
    from: i64,
    to: i64,
    surely: &[(i64, i64)],
    perhaps: &[(i64, i64)],
) -> Result<Vec<u8>, Memory>
    requires tick { IsTick find.now.tick }
    requires from { IsTimeIn find.now.tick from }
    requires to { IsTimeIn find.now.tick to }
    requires sure { All (AreTimesIn find.now.tick) surely.now }
    requires possible { All (AreTimesIn find.now.tick) perhaps.now }
    ensures { IfOk result (λ text.
        text.items ≡ set_report find.now relation from to surely.now perhaps.now) }
{
    let mut text = String::new(alloc);
    add_query_line(
        &mut text,
        "SET ",
        " relation ",
        relation_name(relation),
        find,
        from,
        to,
    )?;
    add_line_feed(&mut text)?;
    add_set_lines(&mut text, find.tick, surely, perhaps)?;
    Ok(text.into_bytes())
}

// Appends a line for each span in which a relation surely holds, one for each in which it perhaps holds, and a line
// with the counts of both. The only error is out of memory.
fn add_set_lines(
    text: &mut String,
    tick: u32,
    surely: &[(i64, i64)],
    perhaps: &[(i64, i64)],
) -> Result<(), AllocError>
    requires tick { IsTick tick }
    requires sure { All (AreTimesIn tick) surely.now }
    requires possible { All (AreTimesIn tick) perhaps.now }
    ensures { OnOk result (string_bytes text.new
        ≡ string_bytes text.old ++ set_lines tick surely.now perhaps.now) }
{
    add_span_lines(text, "S ", tick, surely)?;
    add_span_lines(text, "P ", tick, perhaps)?;
    add_number(text, "END sure ", surely.len() as u64)?;
    add_last_number(text, " possible ", perhaps.len() as u64, "\n")
}

// Appends a line for each span, in their order: a word, and the first and the last time of the span as calendar texts.
// Times come in ticks since J2000 in TDB. The only error is out of memory.
fn add_span_lines(
    text: &mut String,
    word: &str,
    tick: u32,
    spans: &[(i64, i64)],
) -> Result<(), AllocError>
    requires tick { IsTick tick }
    requires spans { All (AreTimesIn tick) spans.now }
    ensures { OnOk result (string_bytes text.new
        ≡ string_bytes text.old ++ span_lines word.now tick spans.now) }
{
    for span in spans {
        add_span_line(text, tick, word, span.0, span.1, "\n")?;
    }
    Ok(())
}
