//! Words: keywords and names.

ghost use Rattle.std.specs.Prelude.{◌≡◌, ◌↔◌, IsTrue, IfErr};
ghost use Rattle.std.specs.Char.{is_ascii_uppercase};
ghost use Rattle.std.specs.List.{list_any};
ghost use Rattle.reader.specs.Breaks.{WordBreaks};
ghost use Rattle.reader.specs.Class.{AreAll};
ghost use Rattle.reader.specs.Symbol.{symbol_of};
ghost use Rattle.reader.specs.Reading.{Gives, word_of, name_of};
ghost use Rattle.reader.specs.Tokens.{IsWord, IsName};

use crate::class::Class;
use crate::fault::{ReadFault, Rule};
use crate::keyword::Keyword;
use crate::token::Token;

/// The largest number of bytes of a name.
pub const NAME_LIMIT: usize = 24;

/// Whether bytes are a name: a short word without capitals that is no keyword.
#[tactic(auto, using(crate::proofs::Words::is_name_so, crate::proofs::Words::name_small, crate::proofs::Words::name_no_keyword))]
pub fn is_name(word: &[u8]) -> bool
    ensures { IsTrue result ↔ IsName word.now }
{
    is_word(word)
        && !has_capital(word)
        && Keyword::of_word(word).is_none()
        && word.len() <= NAME_LIMIT
}

/// Whether bytes are a letter, and after it letters, digits and underscores.
fn is_word(word: &[u8]) -> bool
    ensures { IsTrue result ↔ IsWord word.now }
{
    match word.split_first() {
        Some((first, others)) => Class::Letter.has(*first) && are_word_bytes(others),
        None => false,
    }
}

fn are_word_bytes(bytes: &[u8]) -> bool
    ensures { IsTrue result ↔ AreAll Class.WordByte bytes.now }
{
    bytes.iter().all(|byte| Class::WordByte.has(*byte))
}

/// Whether one of the letters is a capital.
fn has_capital(word: &[u8]) -> bool
    ensures { result ≡ list_any is_ascii_uppercase word.now }
{
    word.iter().any(|byte| byte.is_ascii_uppercase())
}

/// The name that a word is.
#[tactic(auto, unfolding(crate::specs::Reading::name_of))]
fn name(word: &[u8], offset: usize) -> Result<Token<'_>, ReadFault>
    ensures exact { Gives symbol_of result (name_of word.now) }
    ensures rule { IfErr result (λ fault. WordBreaks fault.rule word.now) }
    ensures within { IfErr result (λ fault. fault.offset ≡ offset) }
{
    if has_capital(word) {
        return Err(ReadFault::new(Rule::Character, offset));
    }
    if word.len() > NAME_LIMIT {
        return Err(ReadFault::new(Rule::Limit, offset));
    }
    Ok(Token::Name(word))
}

/// The keyword or the name that a word is, which stands at the offset.
#[tactic(auto, unfolding(crate::specs::Reading::word_of))]
pub(crate) fn keyword_or_name(word: &[u8], offset: usize) -> Result<Token<'_>, ReadFault>
    ensures exact { Gives symbol_of result (word_of word.now) }
    ensures rule { IfErr result (λ fault. WordBreaks fault.rule word.now) }
    ensures within { IfErr result (λ fault. fault.offset ≡ offset) }
{
    match Keyword::of_word(word) {
        Some(keyword) => Ok(Token::Keyword(keyword)),
        None => name(word, offset),
    }
}
