//! The tokens of a text.

ghost use Rattle.std.specs.Prelude.{◌≡◌, ◌≢◌, ◌+◌, ◌<◌, ◌≤◌, ◌^◌, List, All, length, IfOk, IfErr};
ghost use Rattle.reader.specs.Breaks.{Refuses, IsTokenRule};
ghost use Rattle.reader.specs.Symbol.{Symbol, symbol_of, symbols_of};
ghost use Rattle.reader.specs.Tokens.{AreTokens, OneListOfTokens};
ghost use Rattle.reader.specs.Reading.{Gives, token_at};

use crate::class::Class;
use crate::fault::{ReadFault, Rule};
use crate::integer::magnitude;
use crate::sign::Sign;
use crate::text::{QUOTE, text_at};
use crate::token::{Placed, Token};
use crate::word::keyword_or_name;
use std::alloc::Global;

/// The token at the front, and what follows it. The bytes stand at the offset.
#[tactic(auto, unfolding(crate::specs::Reading::token_at))]
fn token(alloc: Global, bytes: &[u8], offset: usize) -> Result<(Token<'_>, &[u8]), ReadFault>
    requires room { offset + length bytes.now < 2 ^ 64 }
    requires begun { 0 < length bytes.now }
    ensures exact { Gives (λ x. (symbol_of x.0, x.1.now)) result (token_at bytes.now) }
    ensures rule { Refuses result (λ rule. IsTokenRule rule) }
    ensures within { IfErr result (λ fault. fault.offset ≤ offset + length bytes.now) }
{
    let first = bytes[0];
    if Class::Letter.has(first) {
        let (word, rest) = Class::WordByte.split(bytes);
        return Ok((keyword_or_name(word, offset)?, rest));
    }
    if Class::Digit.has(first) {
        let (digits, rest) = Class::Digit.split(bytes);
        return Ok((Token::Integer(magnitude(digits)), rest));
    }
    if first == QUOTE {
        return text_at(alloc, bytes, offset);
    }
    match Sign::at_front(bytes) {
        Some(sign) => {
            let (_, rest) = bytes.split_at(sign.text().len());
            Ok((Token::Sign(sign), rest))
        }
        None => Err(ReadFault::new(Rule::Character, offset)),
    }
}

/// The tokens of the text, each with its offset, or the leftmost fault.
pub fn tokens(alloc: Global, text: &[u8]) -> Result<Vec<Placed<'_>>, ReadFault>
    // What is found are the text's tokens.
    ensures found { IfOk result (λ tokens. AreTokens text.now (symbols_of tokens.items)) }
    ensures placed { IfOk result (λ tokens. All (λ placed. placed.offset ≤ length text.now) tokens.items) }

    // A text that has tokens is refused only where memory runs out.
    ensures none { IfErr result (λ fault. fault.rule ≢ Rule.Memory → (symbols : List Symbol) → ¬ AreTokens text.now symbols) }
    ensures rule { Refuses result (λ rule. IsTokenRule rule) }
    ensures within { IfErr result (λ fault. fault.offset ≤ length text.now) }
{
    let mut tokens = Vec::with_capacity(alloc, text.len() / 3)?;
    let mut rest = text;
    loop {
        let (_, begun) = Class::Blank.split(rest);
        if begun.is_empty() {
            return Ok(tokens);
        }
        let offset = text.len() - begun.len();
        let (token, behind) = token(alloc, begun, offset)?;
        tokens.push(Placed { token, offset })?;
        rest = behind;
    }
}

/// A text is one list of tokens at most.
pub fn one_list_of_tokens()
    ensures { OneListOfTokens }
{}
