// The lines of errors, each ended by a line feed. Calls that append fail only if memory runs out.
ghost use Rattle.std.specs.Prelude.{◌≡◌, ◌++◌, IfOk, OnOk, option_map};
ghost use Rattle.std.specs.Fmt.{decimal, signed_decimal};
ghost use Rattle.spec_faults.specs.Shown.{kind_of};
ghost use Rattle.spec_output.specs.Messages.{after_blank, certificate_text, detail_text, event_text, fault_text, file_text, kind_text, leaves_text, memory_text, outside_text, read_text, times, title, words_text};
ghost use Rattle.spec_requests.specs.Names.{option_name};
ghost use Rattle.spec_outcomes.specs.Refusals.{line_of};

use spec_faults::{FaultKind, fault_kind};
use spec_outcomes::{Refusal, Span};
use spec_requests::{Named, option_name};
use spec_text::Fault;
use std::alloc::{AllocError, Global};

// Appends a number in decimal digits to a line, and then the text `after`. The only error is out of memory.
fn add_number(text: &mut Vec<u8>, number: u32, after: &[u8]) -> Result<(), AllocError>
    ensures { OnOk result (text.new.items ≡ text.old.items ++ (decimal number ++ after.now)) }
{
    let mut buffer = itoa::Buffer::new();
    text.extend_from_slice(buffer.format(number).as_bytes())?;
    text.extend_from_slice(after)
}

// Appends a name to a line, with the text `before` before it and `after` after it. The only error is out of memory.
fn add_name_between(
    text: &mut Vec<u8>,
    before: &[u8],
    name: &str,
    after: &[u8],
) -> Result<(), AllocError>
    ensures { OnOk result (text.new.items
        ≡ text.old.items ++ (before.now ++ name.now ++ after.now)) }
{
    text.extend_from_slice(before)?;
    text.extend_from_slice(name.as_bytes())?;
    text.extend_from_slice(after)
}

// Appends to a line a blank and the number that is the detail of a fault, or nothing if the fault has no detail. The
// only error is out of memory.
fn add_detail(text: &mut Vec<u8>, has_detail: bool, detail: u16) -> Result<(), AllocError>
    ensures { OnOk result (text.new.items ≡ text.old.items ++ detail_text has_detail detail) }
{
    if has_detail {
        text.extend_from_slice(b" ")?;
        add_number(text, u32::from(detail), b"")
    } else {
        Ok(())
    }
}

// Appends to a line the name of a kind of fault, and the fault's detail if the kind has one. The only error is out of
// memory.
fn add_fault_kind(text: &mut Vec<u8>, kind: FaultKind, detail: u16) -> Result<(), AllocError>
    ensures { OnOk result (text.new.items ≡ text.old.items ++ kind_text (kind_of kind) detail) }
{
    text.extend_from_slice(kind.name.as_bytes())?;
    add_detail(text, kind.has_detail, detail)
}

// Appends to a line the name of the fault with this number, and its detail if it has one. For a number of no fault it
// appends nothing. The only error is out of memory.
fn add_fault_name(text: &mut Vec<u8>, number: u8, detail: u16) -> Result<(), AllocError>
    ensures { OnOk result (text.new.items ≡ text.old.items ++ title number detail) }
{
    match fault_kind(number) {
        Some(kind) => add_fault_kind(text, kind, detail),
        None => Ok(()),
    }
}

// Appends to a line the number of a fault, its name, and its detail if it has one. The only error is out of memory.
fn add_fault(text: &mut Vec<u8>, number: u8, detail: u16) -> Result<(), AllocError>
    ensures { OnOk result (text.new.items ≡ text.old.items ++ fault_text number detail) }
{
    add_number(text, u32::from(number), b" ")?;
    add_fault_name(text, number, detail)
}

// Returns the line that reports a fault in a file: the file's name, the number of the line, and the fault. The only
// error is out of memory.
fn file_line(alloc: Global, name: &str, fault: Fault) -> Result<Vec<u8>, AllocError>
    ensures { IfOk result (λ text. text.items ≡ file_text name.now fault) }
{
    let mut text = Vec::new(alloc);
    add_name_between(&mut text, b"finder: file ", name, b" line ")?;
    add_number(&mut text, fault.line, b": ")?;
    add_fault(&mut text, fault.number, fault.detail)?;
    text.extend_from_slice(b"\n")?;
    Ok(text)
}

// Returns the line that reports a file that could not be read, by the file's name. The only error is out of memory.
fn unread_file_line(alloc: Global, name: &str) -> Result<Vec<u8>, AllocError>
    ensures { IfOk result (λ text. text.items ≡ read_text name.now) }
{
    let mut text = Vec::new(alloc);
    add_name_between(&mut text, b"finder: read fault ", name, b"\n")?;
    Ok(text)
}

// Returns the line that reports an event that cannot be searched for, by the number and the name of its fault. The only
// error is out of memory.
fn event_line(alloc: Global, number: u8) -> Result<Vec<u8>, AllocError>
    ensures { IfOk result (λ text. text.items ≡ event_text number) }
{
    let mut text = Vec::new(alloc);
    text.extend_from_slice(b"finder: event: ")?;
    add_fault(&mut text, number, 0)?;
    text.extend_from_slice(b"\n")?;
    Ok(text)
}

// Returns the line that reports a search of more leaves than the limit `most`. The only error is out of memory.
fn too_many_leaves_line(alloc: Global, most: u32) -> Result<Vec<u8>, AllocError>
    ensures { IfOk result (λ text. text.items ≡ leaves_text most) }
{
    let mut text = Vec::new(alloc);
    text.extend_from_slice(b"finder: more than ")?;
    add_number(&mut text, most, b" leaves\n")?;
    Ok(text)
}

// Returns the line that reports a certificate whose line `line`, counted from 1, breaks the rule of this number. The
// only error is out of memory.
fn certificate_line(alloc: Global, line: u32, number: u8) -> Result<Vec<u8>, AllocError>
    ensures { IfOk result (λ text. text.items ≡ certificate_text line number) }
{
    let mut text = Vec::new(alloc);
    text.extend_from_slice(b"finder: certificate line ")?;
    add_number(&mut text, line, b": ")?;
    add_fault(&mut text, number, 0)?;
    text.extend_from_slice(b"\n")?;
    Ok(text)
}

// Appends to a line a blank and the name of an option, or nothing if there is none. The only error is out of memory.
fn add_option_name(text: &mut Vec<u8>, option: Option<Named>) -> Result<(), AllocError>
    ensures { OnOk result (text.new.items
        ≡ text.old.items ++ after_blank (option_map option_name option)) }
{
    match option {
        Some(option) => {
            text.extend_from_slice(b" ")?;
            text.extend_from_slice(option_name(option).as_bytes())
        }
        None => Ok(()),
    }
}

// Returns the line that reports an invalid command line: the fault of this number, and the option that it is about, if
// there is one. The only error is out of memory.
fn invalid_words_line(
    alloc: Global,
    number: u8,
    option: Option<Named>,
) -> Result<Vec<u8>, AllocError>
    ensures { IfOk result (λ text.
        text.items ≡ words_text number (option_map option_name option)) }
{
    let mut text = Vec::new(alloc);
    text.extend_from_slice(b"finder: words: ")?;
    add_fault(&mut text, number, 0)?;
    add_option_name(&mut text, option)?;
    text.extend_from_slice(b"\n")?;
    Ok(text)
}

// Appends to a line a time as a whole number, with a minus sign before a number below 0. The only error is out of
// memory.
fn add_time(text: &mut Vec<u8>, time: i64) -> Result<(), AllocError>
    ensures { OnOk result (text.new.items ≡ text.old.items ++ signed_decimal time) }
{
    let mut buffer = itoa::Buffer::new();
    text.extend_from_slice(buffer.format(time).as_bytes())
}

// Appends to a line the first and the last time of a span as whole numbers, and then the text `after`. The only error
// is out of memory.
fn add_span(text: &mut Vec<u8>, span: Span, after: &[u8]) -> Result<(), AllocError>
    ensures { OnOk result (text.new.items
        ≡ text.old.items ++ (times span.from span.upto ++ after.now)) }
{
    add_time(text, span.from)?;
    text.extend_from_slice(b" ")?;
    add_time(text, span.upto)?;
    text.extend_from_slice(after)
}

// Returns the line that reports a span that is not within `whole`, the whole span of the files. The only error is out
// of memory.
fn outside_span_line(alloc: Global, span: Span, whole: Span) -> Result<Vec<u8>, AllocError>
    ensures { IfOk result (λ text.
        text.items ≡ outside_text span.from span.upto whole.from whole.upto) }
{
    let mut text = Vec::new(alloc);
    text.extend_from_slice(b"finder: span: ")?;
    add_span(&mut text, span, b" not within ")?;
    add_span(&mut text, whole, b"\n")?;
    Ok(text)
}

// Returns the line that reports out of memory. It is a constant, so that it can be written without memory for it.
fn memory_line() -> &'static [u8]
    ensures { result.now ≡ memory_text }
{
    b"finder: out of memory\n"
}

/// Returns the line that reports why a run is refused, ended by a line feed. The only error is out of memory.
pub fn line_of_refusal(alloc: Global, refusal: &Refusal) -> Result<Vec<u8>, AllocError>
    ensures { IfOk result (λ text. text.items ≡ line_of refusal.now) }
{
    match refusal {
        Refusal::Words { number, option } => invalid_words_line(alloc, *number, *option),
        Refusal::File { name, fault } => file_line(alloc, name.as_str(), *fault),
        Refusal::NotRead { name } => unread_file_line(alloc, name.as_str()),
        Refusal::Outside { span, whole } => outside_span_line(alloc, *span, *whole),
        Refusal::Event(fault) => event_line(alloc, fault.number()),
        Refusal::TooManyLeaves { most } => too_many_leaves_line(alloc, *most),
        Refusal::Certificate { line, number } => certificate_line(alloc, *line, *number),
        Refusal::Memory => memory_line().to_vec(alloc),
    }
}
