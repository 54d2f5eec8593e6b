// Whole texts, written to a sink.
ghost use Rattle.std.specs.Prelude.{OnErr, OnOk};
ghost use Rattle.std.specs.Io.KnownBytes.{Appends};
ghost use Rattle.gf_edges.specs.Edges.{HasCause};
ghost use Rattle.spec_output.specs.Writing.{AppendsPart, Receives};

use gf_edges::{Failed, Sink};

/// Writes a whole text to a sink, and offers the rest of it until none is left. If the sink fails or takes nothing, it
/// got a prefix of the text that is not all of it.
pub(crate) fn write_whole_text<K: Sink>(sink: &mut K, text: &[u8]) -> Result<(), Failed>
    ensures whole { OnOk result (Appends (K.bytes sink.old) (K.bytes sink.new) text.now) }
    ensures part { OnErr result (AppendsPart (K.bytes sink.old) (K.bytes sink.new) text.now) }
    ensures cause { HasCause (K.faults sink.old) (K.faults sink.new) result }
{
    let mut done = 0;
    while done < text.len() {
        let count = sink.write(&text[done..])?;
        if count == 0 {
            return Err(Failed);
        }
        done += count;
    }
    Ok(())
}

/// Writes a text to `err` as far as the sink takes it. A failure is not reported, since there is no other place to
/// report it.
pub(crate) fn write_line<E: Sink>(err: &mut E, text: &[u8])
    ensures received { Receives E.bytes E.faults err.old err.new text.now }
{
    let _ = write_whole_text(err, text);
}
