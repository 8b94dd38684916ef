//! Texts that are one keyword and nothing else.

ghost use Rattle.std.specs.Prelude.{◌≡◌};
ghost use Rattle.reader.specs.Alone as spec;

use crate::class::Class;
use crate::keyword::Keyword;

/// The keyword that is all of a text, in any case, with blanks around it and perhaps a semicolon.
pub fn keyword_alone(text: &[u8]) -> Option<Keyword>
    ensures { result ≡ spec.keyword_alone text.now }
{
    let (_, text) = Class::Blank.split(text);
    let (word, rest) = Class::WordByte.split(text);
    if is_end(rest) {
        Keyword::of_word(word)
    } else {
        None
    }
}

fn is_end(rest: &[u8]) -> bool
    ensures { result ≡ spec.is_end rest.now }
{
    let (_, rest) = Class::Blank.split(rest);
    match rest.split_first() {
        Some((first, more)) => *first == b';' && is_blank(more),
        None => true,
    }
}

fn is_blank(bytes: &[u8]) -> bool
    ensures { result ≡ spec.is_blank bytes.now }
{
    let (_, rest) = Class::Blank.split(bytes);
    rest.is_empty()
}
