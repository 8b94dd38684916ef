//! Classes of bytes.

ghost use Rattle.std.specs.Prelude.{◌≡◌, ◌++◌, ◌≤◌, length};
ghost use Rattle.reader.specs.Class.{is_in, AreAll};
ghost use Rattle.reader.specs.Reading.{front, after};

/// A class of bytes that tokens are told apart by.
#[derive(Clone, Copy, Debug, PartialEq, Eq)]
pub enum Class {
    /// What stands between tokens: space, tab, line feed, carriage return.
    Blank,
    /// What begins a word.
    Letter,
    /// What goes on with a word: letters, digits and `_`.
    WordByte,
    /// What integers are made of.
    Digit,
}

impl Class {
    /// Whether the byte is of the class.
    pub(crate) fn has(self, byte: u8) -> bool
        ensures { result ≡ is_in self byte }
    {
        match self {
            Class::Blank => byte == b' ' || byte == b'\t' || byte == b'\n' || byte == b'\r',
            Class::Letter => byte.is_ascii_alphabetic(),
            Class::WordByte => byte.is_ascii_alphanumeric() || byte == b'_',
            Class::Digit => byte.is_ascii_digit(),
        }
    }

    /// The longest front of the class, and what follows it.
    pub(crate) fn split(self, bytes: &[u8]) -> (&[u8], &[u8])
        ensures of_class { AreAll self result.0.now }
        ensures front { result.0.now ≡ front (is_in self) bytes.now }
        ensures rest { result.1.now ≡ after (is_in self) bytes.now }
    {
        let mut end = 0;
        while end < bytes.len() && self.has(bytes[end]) {
            end += 1;
        }
        bytes.split_at(end)
    }
}
