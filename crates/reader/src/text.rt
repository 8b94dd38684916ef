//! Texts in quotes.

ghost use Rattle.std.specs.Prelude.{◌≡◌, ◌≢◌, ◌+◌, ◌<◌, ◌≤◌, ◌^◌, length, drop, option_map, string_bytes, Some, None, if◌then◌else◌, IfOk, IfErr};
ghost use Rattle.std.specs.Char.{is_ascii_control};
ghost use Rattle.std.specs.List.{list_any};
ghost use Rattle.std.specs.Str.{is_utf8};
ghost use Rattle.reader.specs.declared.fault.Rule.TheVariants as rules;
ghost use Rattle.reader.specs.Breaks.{Refuses, QuotedBreaks, IsTokenRule};
ghost use Rattle.reader.specs.Symbol.{symbol_of};
ghost use Rattle.reader.specs.Reading.{Gives, unquoted, text_of, text_at};

use crate::fault::{ReadFault, Rule};
use crate::token::Token;
use std::alloc::{AllocError, Global};
use terms::value::TEXT_LIMIT;

/// What a text begins and ends with; inside it two stand for one.
pub const QUOTE: u8 = b'\'';

/// After an opening quote: the value up to the closing quote, and what follows that; nothing
/// where there is no closing quote.
fn unquoted(alloc: Global, bytes: &[u8]) -> Result<Option<(Vec<u8>, &[u8])>, AllocError>
    ensures { IfOk result (λ found. option_map (λ x. (x.0.items, x.1.now)) found ≡ unquoted bytes.now) }
{
    let mut value = Vec::new(alloc);
    let mut rest = bytes;
    while let Some((&byte, behind)) = rest.split_first() {
        rest = behind;
        if byte == QUOTE {
            let Some(others) = behind.strip_prefix(&[QUOTE]) else {
                return Ok(Some((value, behind)));
            };
            rest = others;
        }
        value.push(byte)?;
    }
    Ok(None)
}

/// Whether one of the bytes is a control character, which no text has.
fn has_control(value: &[u8]) -> bool
    ensures { result ≡ list_any is_ascii_control value.now }
{
    value.iter().any(|byte| byte.is_ascii_control())
}

/// The place of the first control character.
fn first_control(bytes: &[u8]) -> usize
    ensures { result ≤ length bytes.now }
{
    bytes
        .iter()
        .position(|byte| byte.is_ascii_control())
        .unwrap_or(bytes.len())
}

/// The value as text, where it is UTF-8.
fn utf8(value: Vec<u8>) -> Option<String>
    ensures { option_map (λ s. string_bytes s) result ≡ (if is_utf8 value.items then Some value.items else None) }
{
    String::from_utf8(value).ok()
}

/// The text that a value is. The bytes begin with the text as it is written, with its quotes,
/// and stand at the offset.
#[tactic(auto, unfolding(crate::specs::Reading::text_of))]
fn text_of(value: Vec<u8>, bytes: &[u8], offset: usize) -> Result<Token<'_>, ReadFault>
    requires { offset + length bytes.now < 2 ^ 64 }
    ensures exact { Gives symbol_of result (text_of value.items) }
    ensures rule { IfErr result (λ fault. QuotedBreaks fault.rule value.items) }
    ensures within { IfErr result (λ fault. fault.offset ≤ offset + length bytes.now) }
{
    if value.len() > TEXT_LIMIT {
        return Err(ReadFault::new(Rule::Limit, offset));
    }
    let is_excluded = has_control(&value);
    let Some(string) = utf8(value) else {
        return Err(ReadFault::new(Rule::Character, offset));
    };
    if is_excluded {
        return Err(ReadFault::new(Rule::Character, offset + first_control(bytes)));
    }
    Ok(Token::Text(string))
}

/// The text whose opening quote is the first of the bytes, and what follows it. The bytes stand at
/// the offset.
#[tactic(auto, unfolding(crate::specs::Reading::text_at))]
pub(crate) fn text_at(
    alloc: Global,
    bytes: &[u8],
    offset: usize,
) -> Result<(Token<'_>, &[u8]), ReadFault>
    requires room { offset + length bytes.now < 2 ^ 64 }
    requires begun { 0 < length bytes.now }
    ensures exact { Gives (λ x. (symbol_of x.0, x.1.now)) result (text_at (drop 1 bytes.now)) }
    ensures rule { Refuses result (λ rule. IsTokenRule rule) }
    ensures within { IfErr result (λ fault. fault.offset ≤ offset + length bytes.now) }
{
    match unquoted(alloc, &bytes[1..])? {
        Some((value, rest)) => Ok((text_of(value, bytes, offset)?, rest)),
        None => Err(ReadFault::new(Rule::Character, offset)),
    }
}
