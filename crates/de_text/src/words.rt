// A cursor over the tokens of a line.
ghost use Rattle.std.specs.Prelude.{◌≡◌, ◌∷◌, IfNone, IfSome, List, Ok, ℕ};
ghost use Rattle.std.specs.Iterator.{YieldsFirstRef, item_count};
ghost use Rattle.spec_text.specs.Lines.{tokens};
ghost use Rattle.spec_text.specs.Reading.{reading};

use crate::fields::cut_number;
use crate::tokens::cut_token;
use spec_text::Decimal;
use std::marker::Model;

/// A cursor over the tokens of a line, from left to right. Its value is the list of those that are left.
#[derive(Drop)]
pub struct Words<'a> {
    pub(crate) rest: &'a [u8],
}

impl<'a> Model for Words<'a> {
    ghost use Rattle.std.specs.Prelude.{List, ℕ};
    ghost use Rattle.spec_text.specs.Lines.{tokens};

    ghost Value = { List (List ℕ) };

    ghost view = { λ w. tokens w.rest.now };
}

impl<'a> Words<'a> {
    /// Makes a cursor over the tokens of a line, which comes without its line end.
    pub fn of(line: &'a [u8]) -> Self
        ensures { result ≡ tokens line.entry.now }
    {
        Words { rest: line }
    }

    /// Reads the next word as a number and passes it, if it is written as JPL writes those of blocks. None for any
    /// other word, which is not passed, and if no word is left.
    #[inline(always)]
    pub fn next_number(&mut self) -> Option<Decimal>
        ensures number { IfSome result (λ d. (word : List ℕ)
            × (self.old ≡ word ∷ self.new) × (Ok d ≡ reading word)) }
        ensures other { IfNone result (self.new ≡ self.old) }
    {
        let (number, rest) = cut_number(self.rest)?;
        self.rest = rest;
        Some(number)
    }
}

impl<'a> Iterator for Words<'a> {
    type Item = &'a [u8];

    ghost next_gives = { YieldsFirstRef (λ left. left) };

    ghost remaining = { item_count (λ left. left) };

    // Returns the next word, and passes it. None if no word is left.
    fn next(&mut self) -> Option<&'a [u8]> {
        match cut_token(self.rest) {
            Some((word, rest)) => {
                self.rest = rest;
                Some(word)
            }
            None => {
                self.rest = &[];
                None
            }
        }
    }
}
