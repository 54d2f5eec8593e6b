// Tests of the program over files that an opener gives by their names. The call here has clauses of `finder` in terms of
// the opener's files, for every opener.
ghost use Rattle.std.specs.Prelude.{◌≡◌, List, ℕ};
ghost use Rattle.spec_requests.specs.declared.request.FindAsk.{FindAsk};
ghost use Rattle.spec_requests.specs.declared.request.Request.TheVariants.{Check, Find};
ghost use Rattle.gf_find.specs.Checks.{ReportsSummary};
ghost use Rattle.gf_find.specs.Outcomes.{Ask, HoldEphemeris};
ghost use Rattle.gf_find.specs.Promises.{ReportsAllEvents};

use crate::calls::{Answer, memory_output};
use crate::inputs::{BLOCK, HEADER, three_files, words_of_line};
use gf_edges::{FileShelf, MemoryFiles, OpenGate, OpenNamed, Sink};
use gf_find::{FILES_REFUSED, NOT_READ, REPORTED, finder};
use std::alloc::{AllocError, Global};
use std::sync::Wait;
use std::test::Fail;
use std::thread::Threads;

// Calls the program with these words over the files that an opener gives, as `main` does over those of the system, and
// returns the status.
fn status_over_opener<R: Threads + Wait + Sync, N: OpenNamed + Drop, O: Sink, E: Sink>(
    rt: &R,
    alloc: Global,
    words: &[String],
    opener: N,
    out: &mut O,
    err: &mut E,
) -> u8
    ensures events { (find : FindAsk) → Ask words.now (Find find) → result ≡ REPORTED
        → HoldEphemeris (N.texts opener) find.files
        (ReportsAllEvents find (O.bytes out.old) (O.bytes out.new)) }
    ensures check { (names : List (List ℕ)) → Ask words.now (Check names) → result ≡ REPORTED
        → HoldEphemeris (N.texts opener) names
        (ReportsSummary (O.bytes out.old) (O.bytes out.new)) }
{
    let mut shelf = FileShelf::new(opener);
    finder(rt, alloc, words, &mut shelf, out, err, &OpenGate)
}

// Words over three files in memory, of which `a` is a header, `b` a block, and `c` is empty; the status, and how the
// output ends. In the block Mercury's x rises once through 0.
const ROWS: [(&str, u8, &str); 5] = [
    (
        "find --kind coord --target mercury --axis x a b",
        REPORTED,
        "END certain 1 undecided 0\n",
    ),
    ("check a b c", REPORTED, "\n"),
    ("check a c", FILES_REFUSED, ""),
    ("check b a", FILES_REFUSED, ""),
    ("check a d", NOT_READ, ""),
];

// Calls the program with the words of a line over the three files. Returns the status and what was written. The only
// error is out of memory.
fn answer_over_opener<R: Threads + Wait + Sync>(
    rt: &R,
    alloc: Global,
    line: &str,
) -> Result<Answer, AllocError> {
    let words = words_of_line(alloc, line)?;
    let files = three_files(alloc, [HEADER, BLOCK, ""])?;
    let mut out = memory_output(alloc, 4096)?;
    let mut err = memory_output(alloc, 4096)?;
    let opener = MemoryFiles::new(&files);
    let status = status_over_opener(rt, alloc, &words, opener, &mut out, &mut err);
    Ok(Answer { status, out, err })
}

// Shows that the program reads the files that its words name, by an opener of files in memory, as the rows of `ROWS`
// say.
#[test]
fn an_opener_gives_the_named_files(rt: HostRuntime) -> Result<(), Fail> {
    for (line, status, end) in &ROWS {
        let answer = answer_over_opener(&rt, rt.alloc(), line)?;
        assert!(rt; answer.status == *status, "{line}");
        assert!(rt; answer.out.bytes().ends_with(end.as_bytes()), "{line}");
    }
    Ok(())
}
