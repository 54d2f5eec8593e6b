// Pieces of a line: a name and a value after it. Calls fail only if memory runs out.
ghost use Rattle.std.specs.Prelude.{◌≡◌, ◌++◌, OnOk, codes, string_bytes};
ghost use Rattle.std.specs.Fmt.{decimal};

use itoa::Integer;
use std::alloc::AllocError;

/// Appends a name and then a value to a line. A blank between them has to be part of the name. The only error is out of
/// memory.
pub(crate) fn add_name_and_value(
    text: &mut String,
    name: &str,
    value: &str,
) -> Result<(), AllocError>
    ensures { OnOk result (string_bytes text.new
        ≡ string_bytes text.old ++ (name.now ++ value.now)) }
{
    text.push_str(name)?;
    text.push_str(value)
}

/// Appends a name and then a number in decimal digits to a line, with a minus sign before a number below 0. The only
/// error is out of memory.
pub(crate) fn add_number<I: Integer>(
    text: &mut String,
    name: &str,
    number: I,
) -> Result<(), AllocError>
    ensures { OnOk result (string_bytes text.new
        ≡ string_bytes text.old ++ (name.now ++ I.text number)) }
{
    let mut buffer = itoa::Buffer::new();
    add_name_and_value(text, name, buffer.format(number))
}

/// Appends a name, a number in decimal digits, and the text `end`, which ends the line. The only error is out of
/// memory.
pub(crate) fn add_last_number(
    text: &mut String,
    name: &str,
    number: u64,
    end: &str,
) -> Result<(), AllocError>
    ensures { OnOk result (string_bytes text.new
        ≡ string_bytes text.old ++ (name.now ++ decimal number ++ end.now)) }
{
    add_number(text, name, number)?;
    text.push_str(end)
}

/// Appends a line feed to a text. The only error is out of memory.
pub(crate) fn add_line_feed(text: &mut String) -> Result<(), AllocError>
    ensures { OnOk result (string_bytes text.new ≡ string_bytes text.old ++ codes "\n") }
{
    text.push_str("\n")
}
