// The rules of lines, by the numbers under which they are reported.
ghost use Rattle.std.specs.Prelude.{◌≡◌};
ghost use Rattle.spec_files.specs.Sections.{broken, line_fault, ruled_at};

use spec_text::Fault;

/// A rule that a line breaks.
#[derive(Clone, Copy, PartialEq, Eq)]
pub struct BrokenRule {
    /// The number of the fault, under which it is reported.
    pub number: u8,
    /// What the number leaves open, as the number of a `GROUP` or of a `NumberFault`, else 0.
    pub detail: u16,
}

impl BrokenRule {
    /// Makes the record of a broken rule: the number under which the fault is reported, and the detail that the number
    /// leaves open, or 0.
    pub fn new(number: u8, detail: u16) -> Self
        ensures { result ≡ broken number detail }
    {
        BrokenRule { number, detail }
    }

    /// Returns the fault of breaking this rule in the line with this number, counted from 1 in its file.
    pub fn at_line(self, line: u32) -> Fault
        ensures { result ≡ line_fault line self }
    {
        Fault {
            line,
            number: self.number,
            detail: self.detail,
        }
    }
}

/// Passes on the value that a rule gives; if the rule is broken instead, returns its fault in the line with this
/// number.
pub fn ruled_at<T>(line: u32, ruled: Result<T, BrokenRule>) -> Result<T, Fault>
    ensures { result ≡ ruled_at line ruled }
{
    match ruled {
        Ok(value) => Ok(value),
        Err(broken) => Err(broken.at_line(line)),
    }
}
