// Tests of the system's files and streams: that calls succeed, and which bytes reach a file and come back. No clause
// can say this; shelves and sinks in memory have exact clauses.
use gf_edges::{Failed, FileShelf, Gate, OpenGate, Shelf, Sink, StdSink, SystemFiles};
use std::alloc::{AllocError, Global};
use std::fs;
use std::test::Fail;

// The name of a file in the folder that the test runs in.
const NAME: &str = "finder_tests_bytes.tmp";

// Returns 10,000 bytes: those of the whole numbers from 0 to 2,499, four each, with the lowest byte first. The only
// error is out of memory.
fn bytes_of_numbers(alloc: Global) -> Result<Vec<u8>, AllocError> {
    let mut text = Vec::new(alloc);
    for number in 0..2_500u32 {
        text.extend_from_slice(&number.to_le_bytes())?;
    }
    Ok(text)
}

// Tells whether a sink takes each piece of 1,000 bytes of a text whole, and then nothing of an empty piece. The error
// is that the sink fails.
fn takes_whole_text<S: Sink>(sink: &mut S, text: &[u8]) -> Result<bool, Failed> {
    let mut is_taken = true;
    for piece in text.chunks(1_000) {
        is_taken = sink.write(piece)? == piece.len() && is_taken;
    }
    Ok(sink.write(b"")? == 0 && is_taken)
}

// Tells whether two reads of the open file of a shelf give a text, the first at most 1,000 bytes of it, and a third one
// gives nothing. The error is that the shelf fails.
fn gives_whole_text<S: Shelf>(shelf: &mut S, text: &[u8]) -> Result<bool, Failed>
    requires { S.ready shelf.old }
{
    let mut front = [0u8; 1_000];
    let mut rest = [0u8; 16_384];
    let first = shelf.read(&mut front)?;
    let second = shelf.read(&mut rest)?;
    let (start, end) = text.split_at(first.min(text.len()));
    let is_given = start == &front[..first] && end == &rest[..second];
    Ok(shelf.read(&mut front)? == 0 && is_given)
}

// Shows that every byte that a stream of the system takes is read back from its file.
#[test]
fn every_byte_that_a_stream_takes_is_read_of_its_file(rt: HostRuntime) -> Result<(), Fail> {
    let text = bytes_of_numbers(rt.alloc())?;
    let mut sink = StdSink::new(fs::create(&rt, NAME)?);
    assert!(rt; takes_whole_text(&mut sink, &text)?);
    let mut shelf = FileShelf::new(SystemFiles::new(&rt));
    shelf.open(NAME)?;
    assert!(rt; gives_whole_text(&mut shelf, &text)?);
    fs::remove_file(&rt, NAME)?;
    assert!(rt; shelf.open(NAME).is_err());
    Ok(())
}

// Shows that the standard streams take an empty piece, and that the open gate lets a worker pass.
#[test]
fn outer_streams_and_gates_answer(rt: HostRuntime) -> Result<(), Fail> {
    assert!(rt; StdSink::out(&rt).write(b"")? == 0);
    assert!(rt; StdSink::err(&rt).write(b"")? == 0);
    OpenGate.pass(0);
    Ok(())
}
