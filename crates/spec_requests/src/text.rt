// Texts and lists of names, as contracts see them.
ghost use Rattle.std.specs.Prelude.{◌≡◌, map, string_bytes};

use std::marker::Model;

/// A text. Contracts see its bytes.
#[derive(Drop)]
pub struct Text {
    string: String,
}

impl Model for Text {
    ghost use Rattle.std.specs.Prelude.{ℕ, List, string_bytes};

    ghost Value = { List ℕ };

    ghost view = { λ t. string_bytes t.string };
}

impl Text {
    /// Wraps a string as a text, of which contracts see the bytes. It does not allocate.
    pub fn new(string: String) -> Self
        ensures { result ≡ string_bytes string }
    {
        Text { string }
    }

    /// Returns the string that this text wraps, and consumes the text. It does not allocate.
    pub fn into_string(self) -> String
        ensures { string_bytes result ≡ self }
    {
        self.string
    }

    /// Returns the characters of this text, borrowed from it.
    pub fn as_str(&self) -> &str
        ensures { result.now ≡ self.now }
    {
        self.string.as_str()
    }
}

/// The names of files, in their order. Contracts see the bytes of each.
#[derive(Drop)]
pub struct FileNames {
    names: Vec<String>,
}

impl Model for FileNames {
    ghost use Rattle.std.specs.Prelude.{ℕ, List, map, string_bytes};

    ghost Value = { List (List ℕ) };

    ghost view = { λ f. map string_bytes f.names.items };
}

impl FileNames {
    /// Wraps a vector of names as a list of file names, in its order, of which contracts see the bytes. It does not
    /// allocate.
    pub fn new(names: Vec<String>) -> Self
        ensures { result ≡ map string_bytes names.items }
    {
        FileNames { names }
    }

    /// Returns the names of the files in their order, borrowed from the list.
    pub fn as_slice(&self) -> &[String]
        ensures { map string_bytes result.now ≡ self.now }
    {
        &self.names
    }
}
