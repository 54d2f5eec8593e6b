// A text in memory as the one file of a shelf.
use gf_edges::{Failed, Shelf};

/// A shelf whose one file, of the empty name, is a text in memory. Only the opening of a file of another name fails.
#[derive(Drop)]
pub(crate) struct TextShelf<'t> {
    text: &'t [u8],
    rest: Option<&'t [u8]>,
}

impl<'t> TextShelf<'t> {
    ghost use Rattle.std.specs.Prelude.{◌≡◌};

    /// Makes a shelf with this text as its one file, whose name is empty. No file is open yet.
    pub(crate) fn new(text: &'t [u8]) -> Self
        ensures { result.text.now ≡ text.entry.now }
    {
        TextShelf { text, rest: None }
    }
}

impl<'t> Shelf for TextShelf<'t> {
    ghost use Rattle.std.specs.Prelude.{[], ◌∷◌, IsSome, Some, option_map};

    ghost files = { λ s. Some (([], s.text.now) ∷ []) };

    ghost left = { λ s. option_map (λ rest. rest.now) s.rest };

    ghost ready = { λ s. IsSome s.rest };

    ghost faults = { λ _. 0 };

    // Opens the text at its start if the name is empty. For any other name it fails, and no file is open then.
    fn open(&mut self, name: &str) -> Result<(), Failed> {
        if name.is_empty() {
            self.rest = Some(self.text);
            Ok(())
        } else {
            self.rest = None;
            Err(Failed)
        }
    }

    // Reads the next bytes of the text into the buffer, and returns their number. It is 0 at the text's end, and if no
    // file is open.
    fn read(&mut self, buf: &mut [u8]) -> Result<usize, Failed> {
        let Some(rest) = self.rest else {
            return Ok(0);
        };
        let count = rest.len().min(buf.len());
        buf[..count].copy_from_slice(&rest[..count]);
        self.rest = Some(&rest[count..]);
        Ok(count)
    }
}
