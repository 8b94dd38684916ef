//! Parts as bytes, as stores keep them.

ghost use Rattle.std.specs.Prelude.{◌≡◌, ◌≤◌, ◌++◌, ◌∷◌, [], length, IfOk, OnOk};
ghost use Rattle.terms.specs.Value.{Fits};
ghost use Rattle.terms.specs.Stored.{IsStorable, value_spelling, spelling, Gives, printable_from, int_from, text_from, key_from, value_from, values_from, behind, part_from, SpelledIsRead, ReadIsSpelled};

use crate::memory::Memory;
use crate::part::{Part, VALUE_LIMIT};
use crate::part_fault::PartFault;
use crate::text::{Text, is_text_up_to};
use crate::value::{TEXT_LIMIT, Value};
use std::alloc::Global;

/// The spelling of a part.
pub fn encode_part(alloc: Global, part: &Part) -> Result<Vec<u8>, Memory>
    ensures bytes { IfOk result (λ bytes. bytes.items ≡ spelling part.now) }
    ensures storable { IsStorable part.now }
{
    let values = part.values();
    let mut bytes = Vec::new(alloc);
    bytes.push(values.len() as u8)?;
    for value in values {
        put_value(&mut bytes, value)?;
    }
    Ok(bytes)
}

fn put_value(out: &mut Vec<u8>, value: &Value) -> Result<(), Memory>
    requires { Fits value.now }
    ensures { OnOk result (out.new.items ≡ out.old.items ++ value_spelling value.now) }
{
    match value {
        Value::Int(number) => {
            out.push(1)?;
            out.extend_from_slice(&number.to_be_bytes())?;
        }
        Value::Text(text) => {
            let bytes = text.as_str().as_bytes();
            out.push(2)?;
            out.push(bytes.len() as u8)?;
            out.extend_from_slice(bytes)?;
        }
    }
    Ok(())
}

/// The part that bytes spell, all of them; else the first fault from the left.
pub fn decode_part(alloc: Global, bytes: &[u8]) -> Result<Part, PartFault>
    ensures { Gives (λ part. part) result (part_from bytes.now) }
{
    let values = values_of(alloc, bytes)?;
    let Some(part) = Part::new(values)? else {
        unreachable!("what bytes spell can be stored")
    };
    Ok(part)
}

/// The values of the part that bytes spell.
#[tactic(auto, unfolding(crate::specs::Stored::part_from))]
fn values_of(alloc: Global, bytes: &[u8]) -> Result<Vec<Value>, PartFault>
    ensures { Gives (λ values. values.items) result (part_from bytes.now) }
{
    let Some((count, bytes)) = bytes.split_first() else {
        return Err(PartFault::Truncated);
    };
    if *count == 0 || usize::from(*count) > VALUE_LIMIT {
        return Err(PartFault::BadTag);
    }
    let (key, bytes) = key_at(bytes)?;
    let (values, bytes) = values_at(alloc, key, *count - 1, bytes)?;
    if bytes.is_empty() {
        Ok(values)
    } else {
        Err(PartFault::Trailing)
    }
}

/// An integer at the front, and the bytes after it.
#[tactic(auto, unfolding(crate::specs::Stored::int_from))]
fn int_at(bytes: &[u8]) -> Result<(Value, &[u8]), PartFault>
    ensures { Gives (λ read. (read.0, read.1.now)) result (int_from bytes.now) }
{
    let Some((front, rest)) = bytes.split_first_chunk::<8>() else {
        return Err(PartFault::Truncated);
    };
    Ok((Value::Int(i64::from_be_bytes(*front)), rest))
}

/// A text at the front, behind its length, and the bytes after it.
#[tactic(auto, unfolding(crate::specs::Stored::text_from))]
fn text_at(alloc: Global, bytes: &[u8]) -> Result<(Value, &[u8]), PartFault>
    ensures { Gives (λ read. (read.0, read.1.now)) result (text_from bytes.now) }
{
    let Some((length, bytes)) = bytes.split_first() else {
        return Err(PartFault::Truncated);
    };
    let length = usize::from(*length);
    if length > TEXT_LIMIT {
        return Err(PartFault::BadText);
    }
    let Some((text, rest)) = bytes.split_at_checked(length) else {
        return Err(PartFault::Truncated);
    };
    Ok((Value::Text(text_of(alloc, text)?), rest))
}

/// The text of these bytes.
#[tactic(auto, unfolding(crate::specs::Stored::printable_from))]
fn text_of(alloc: Global, bytes: &[u8]) -> Result<Text, PartFault>
    requires { length bytes.now ≤ 200 }
    ensures { Gives (λ text. text) result (printable_from bytes.now) }
{
    let Ok(text) = str::from_utf8(bytes) else {
        return Err(PartFault::BadText);
    };
    if is_text_up_to(TEXT_LIMIT, text) {
        Ok(Text::copy_of(alloc, text)?)
    } else {
        Err(PartFault::BadText)
    }
}

/// A key at the front: an integer behind its tag.
#[tactic(auto, unfolding(crate::specs::Stored::key_from))]
fn key_at(bytes: &[u8]) -> Result<(Value, &[u8]), PartFault>
    ensures { Gives (λ read. (read.0, read.1.now)) result (key_from bytes.now) }
{
    match bytes {
        [] => Err(PartFault::Truncated),
        [1, rest @ ..] => int_at(rest),
        [_, ..] => Err(PartFault::BadTag),
    }
}

/// A value at the front, behind its tag, and the bytes after it.
#[tactic(auto, unfolding(crate::specs::Stored::value_from))]
fn value_at(alloc: Global, bytes: &[u8]) -> Result<(Value, &[u8]), PartFault>
    ensures { Gives (λ read. (read.0, read.1.now)) result (value_from bytes.now) }
{
    match bytes {
        [] => Err(PartFault::Truncated),
        [1, rest @ ..] => int_at(rest),
        [2, rest @ ..] => text_at(alloc, rest),
        [_, ..] => Err(PartFault::BadTag),
    }
}

/// So many values at the front behind a key, and the bytes after them.
fn values_at(
    alloc: Global,
    key: Value,
    count: u8,
    bytes: &[u8],
) -> Result<(Vec<Value>, &[u8]), PartFault>
    ensures { Gives (λ read. (read.0.items, read.1.now)) result (behind (key ∷ []) (values_from count bytes.now)) }
{
    let mut values = Vec::new(alloc);
    values.push(key)?;
    let mut rest = bytes;
    for _ in 0..count {
        let (value, after) = value_at(alloc, rest)?;
        values.push(value)?;
        rest = after;
    }
    Ok((values, rest))
}

/// A part that is stored is read again from its spelling.
pub fn spelled_is_read()
    ensures { SpelledIsRead }
{}

/// Bytes that are read as a part are its spelling, so a part has one spelling.
pub fn read_is_spelled()
    ensures { ReadIsSpelled }
{}
