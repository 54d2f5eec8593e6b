// The numbers of a text, and its faults.
ghost use Rattle.std.specs.Prelude.{◌≡◌};

/// The number `mant * 10^exp`, exactly as it was written: `32.50` is 3250 and -2. Zero is 0 and 0.
#[derive(Clone, Copy, PartialEq, Eq)]
pub struct Decimal {
    /// The digits without the point, as one number with the sign.
    pub mant: i64,
    /// The written exponent less the number of digits after the point.
    pub exp: i16,
}

/// Why a word is no decimal. Of several faults a word has the first in this order.
#[derive(Clone, Copy, PartialEq, Eq)]
pub enum NumberFault {
    /// Fault 1: the word has not the form of a decimal, or more than 40 bytes.
    NotNumber,
    /// Fault 2: there are more than 18 digits from the first that is not 0.
    TooManyDigits,
    /// Fault 3: the written exponent is past 99 in size.
    ExponentRange,
}

impl NumberFault {
    ghost use Rattle.spec_text.specs.Reading.{fault_number};

    /// Returns the number under which this fault of a word is reported, as the detail of a `Fault`: 1, 2 or 3.
    pub fn number(self) -> u16
        ensures { result ≡ fault_number self }
    {
        match self {
            NumberFault::NotNumber => 1,
            NumberFault::TooManyDigits => 2,
            NumberFault::ExponentRange => 3,
        }
    }
}

/// Why a file is refused, and where.
#[derive(Clone, Copy, Debug, PartialEq, Eq)]
pub struct Fault {
    /// The line of the file, counted from 1, or 0 if the fault is of the whole file.
    pub line: u32,
    /// The fault's number, under which it is reported.
    pub number: u8,
    /// What the number leaves open, as the number of a `GROUP` or of a `NumberFault`, or 0.
    pub detail: u16,
}
