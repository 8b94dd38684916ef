//! Texts.

ghost use Rattle.std.specs.Prelude.{◌≡◌, List, ℕ, IfOk, IsTrue, ◌↔◌, Some, refl, string_bytes, nat_eq, ◌≤◌, All};
ghost use Rattle.std.specs.Arc.{arc_str_bytes};
ghost use Rattle.std.specs.Ordering.{nat_cmp};
ghost use Rattle.std.specs.Str.{chars, IsUtf8};
ghost use Rattle.std.specs.Cmp.{partial_equiv_from_equiv};
ghost use Rattle.std.specs.Cmp.Lexicographic.{slice_cmp, pointwise, nat_list_eq_equiv, nat_list_cmp_total, texts_ties, texts_po};
ghost use Rattle.terms.specs.Text.{IsTextUpTo, IsPrintable};

use crate::copy::TryCopy;
use crate::memory::Memory;
use crate::same::Same;
use std::alloc::Global;
use std::cmp::Ordering;
use std::fmt;
use std::marker::Model;
use std::sync::ArcStr;

/// A text, which contracts see as the list of its bytes. Its copies share them, so that a copy takes no memory.
#[derive(Debug, Drop)]
pub struct Text {
    text: ArcStr,
}

impl Model for Text {
    ghost use Rattle.std.specs.Prelude.{List, ℕ};
    ghost use Rattle.std.specs.Arc.{arc_str_bytes};

    ghost Value = { List ℕ };

    ghost view = { λ t. arc_str_bytes t.text };
}

impl Text {
    pub fn new(text: String) -> Result<Text, Memory>
        ensures { IfOk result (λ made. made ≡ string_bytes text) }
    {
        let text = ArcStr::from_string(text)?;
        Ok(Text { text })
    }

    /// A text of its own with these characters.
    pub fn copy_of(alloc: Global, characters: &str) -> Result<Text, Memory>
        ensures { IfOk result (λ text. text ≡ characters.now) }
    {
        Text::new(String::from_str(alloc, characters)?)
    }

    pub fn as_str(&self) -> &str
        ensures { result.now ≡ self.now }
    {
        self.text.as_str()
    }
}

/// Whether a text has at most `limit` bytes, and no control character: none below U+0020, no U+007F.
pub fn is_text_up_to(limit: usize, text: &str) -> bool
    ensures { IsTrue result ↔ IsTextUpTo limit text.now }
{
    text.len() <= limit && is_printable(text)
}

fn is_printable(text: &str) -> bool
    ensures { IsTrue result ↔ All IsPrintable (chars text.now) }
{
    text.chars().all(|c| c >= ' ' && c != '\u{7f}')
}

/// Whether two texts are the same, byte by byte. Names are short, and most that differ do so in length or in the first byte.
fn are_same(bytes: &[u8], others: &[u8]) -> bool
    ensures { result ≡ pointwise nat_eq bytes.now others.now }
{
    if bytes.len() != others.len() {
        return false;
    }
    for place in 0..bytes.len() {
        if bytes[place] != others[place] {
            return false;
        }
    }
    true
}

/// How two texts compare, byte by byte.
fn order_of(bytes: &[u8], others: &[u8]) -> Ordering
    ensures { result ≡ slice_cmp nat_cmp bytes.now others.now }
{
    let Some((byte, rest)) = bytes.split_first() else {
        return if others.is_empty() {
            Ordering::Equal
        } else {
            Ordering::Less
        };
    };
    let Some((other, others)) = others.split_first() else {
        return Ordering::Greater;
    };
    match byte.cmp(other) {
        Ordering::Equal => order_of(rest, others),
        Ordering::Less => Ordering::Less,
        Ordering::Greater => Ordering::Greater,
    }
}

impl TryCopy for Text {
    fn copy(&self) -> Result<Text, Memory> {
        Ok(Text {
            text: self.text.clone()?,
        })
    }
}

impl Same for Text {
    fn same(&self, other: &Text) -> bool {
        are_same(self.as_str().as_bytes(), other.as_str().as_bytes())
    }
}

impl fmt::Display for Text {
    ghost output = { λ text. Some text };

    fn fmt<W: fmt::Write>(&self, f: &mut fmt::Formatter<W>) -> fmt::Result {
        fmt::Display::fmt(&self.as_str(), f)
    }
}

impl PartialEq for Text {
    ghost eq = { pointwise nat_eq };

    ghost laws = { partial_equiv_from_equiv nat_list_eq_equiv };

    fn eq(&self, other: &Text) -> bool {
        are_same(self.as_str().as_bytes(), other.as_str().as_bytes())
    }
}

impl Eq for Text {
    ghost laws = { nat_list_eq_equiv };
}

impl PartialOrd for Text {
    ghost partial_cmp = { λ a b. Some (slice_cmp nat_cmp a b) };

    ghost laws = { texts_po };

    fn partial_cmp(&self, other: &Text) -> Option<Ordering> {
        Some(self.cmp(other))
    }
}

impl Ord for Text {
    ghost cmp = { slice_cmp nat_cmp };

    ghost total = { nat_list_cmp_total };

    ghost matches_partial_cmp = { λ a b. refl };

    ghost matches_eq = { texts_ties };

    fn cmp(&self, other: &Text) -> Ordering {
        order_of(self.as_str().as_bytes(), other.as_str().as_bytes())
    }
}
