// The fields of a row, taken one by one.
use crate::escapes::unescaped_bytes;
use std::alloc::{AllocError, AllocFailed, Global};
use std::str::FromStr;

/// Why a row cannot be compared.
#[derive(Clone, Copy)]
pub enum RowError {
    /// The row does not have the form of its kind, or a number in it is outside of what may be asked.
    Malformed,
    /// Out of memory.
    Memory,
}

impl<T: Drop> From<AllocFailed<T>> for RowError {
    // Returns the error of a row for which memory ran out, and drops the value that found no room.
    fn from(_: AllocFailed<T>) -> Self {
        RowError::Memory
    }
}

impl From<AllocError> for RowError {
    // Returns the error of a row for which memory ran out.
    fn from(_: AllocError) -> Self {
        RowError::Memory
    }
}

/// The fields of a row that are not yet taken, and whether one that was taken is malformed. What reads a malformed field
/// goes on with a value that stands for it, so it need not stop: who compares the row asks once, at its end.
#[derive(Clone, Copy)]
pub struct Fields<'a> {
    rest: Option<&'a str>,
    is_malformed: bool,
}

impl<'a> Fields<'a> {
    /// Returns the fields of a row, none of which is taken. Fields are separated by one blank.
    pub fn new(row: &'a str) -> Self {
        Fields {
            rest: Some(row),
            is_malformed: false,
        }
    }

    /// Tells whether all fields of the row are taken, and none of them is malformed.
    pub fn are_taken(&self) -> bool {
        self.rest.is_none() && !self.is_malformed
    }

    /// Notes that a field that was taken is malformed.
    pub fn refuse(&mut self) {
        self.is_malformed = true;
    }

    /// Tells whether a field that was taken is malformed. What reads as many fields as the row itself says stops then.
    pub fn is_malformed(&self) -> bool {
        self.is_malformed
    }

    /// Takes the next field, and returns it as it stands in the row. If no field is left, the row is malformed, and the
    /// word is empty.
    pub fn next_word(&mut self) -> &'a str {
        let Some(rest) = self.rest else {
            self.is_malformed = true;
            return "";
        };
        match rest.split_once(' ') {
            Some((word, others)) => {
                self.rest = Some(others);
                word
            }
            None => {
                self.rest = None;
                rest
            }
        }
    }

    /// Takes the next field, and returns the number that it is. A field that is no number of the wanted type is
    /// malformed, and 0 stands for it.
    pub fn next_number<N: FromStr + Default>(&mut self) -> N
    where
        <N as FromStr>::Err: Drop,
    {
        match self.next_word().parse::<N>() {
            Ok(number) => number,
            Err(_) => {
                self.is_malformed = true;
                N::default()
            }
        }
    }

    /// Takes the next field, and returns the number that it is, or none for the word `none`. Any other field is
    /// malformed, and none stands for it.
    pub fn next_number_or_none<N: FromStr>(&mut self) -> Option<N>
    where
        <N as FromStr>::Err: Drop,
    {
        let word = self.next_word();
        if word == "none" {
            return None;
        }
        match word.parse::<N>() {
            Ok(number) => Some(number),
            Err(_) => {
                self.is_malformed = true;
                None
            }
        }
    }

    /// Takes the next field, and returns the bytes that it stands for: `~` is a blank, `%` with two hexadecimal digits
    /// is the byte of that number, and `%` alone is no byte at all. The row must not be malformed until there.
    pub fn next_bytes(&mut self, alloc: Global) -> Result<Vec<u8>, RowError> {
        let word = self.next_word();
        if self.is_malformed {
            return Err(RowError::Malformed);
        }
        unescaped_bytes(alloc, word)
    }
}
