//! Fields: the values that they are in columns of a type.

ghost use Rattle.std.specs.Prelude.{◌≡◌, IfOk, Ok, Err, if◌then◌else◌};
ghost use Rattle.std.specs.List.{list_all, list_any};
ghost use Rattle.std.specs.Char.{is_ascii_control, is_ascii_digit};
ghost use Rattle.terms.specs.Value.{Fits, kind_of};
ghost use Rattle.exchange.specs.declared.field.FieldFault.TheVariants as faults;
ghost use Rattle.exchange.specs.Field.{IsAnswer, digits_of, integer_of, is_numeral, text_of, value_of};

use std::alloc::Global;
use terms::memory::Memory;
use terms::text::Text;
use terms::value::{Kind, TEXT_LIMIT, Value};
use thiserror::Error;

/// Why a field is no value of a column's type. Its text stands behind the field, for a person's eyes, so no clause says it.
#[derive(Clone, Copy, Debug, PartialEq, Eq, Error)]
pub enum FieldFault {
    /// A minus or nothing and then digits are an integer; this is none.
    #[error("is no integer")]
    NoInteger,
    /// An integer that 64 bits don't hold.
    #[error("is no integer of 64 bits")]
    TooLarge,
    /// A text of more than `TEXT_LIMIT` bytes.
    #[error("has more than {TEXT_LIMIT} bytes")]
    TooLong,
    /// No UTF-8, or a control character in it.
    #[error("is no text: not UTF-8, or with a control character")]
    NoText,
    #[error("takes more memory than there is")]
    Memory,
}

impl From<Memory> for FieldFault {
    ghost from_gives = { λ _ fault. fault ≡ faults.Memory };

    fn from(_error: Memory) -> FieldFault {
        FieldFault::Memory
    }
}

/// The value that a field is in a column of this type.
pub fn value(alloc: Global, kind: Kind, field: &[u8]) -> Result<Value, FieldFault>
    ensures exact { IsAnswer result (value_of kind field.now) }
    ensures kind { IfOk result (λ value. kind_of value ≡ kind) }
    ensures fits { IfOk result (λ value. Fits value) }
{
    match kind {
        Kind::Int => Ok(Value::Int(integer(field)?)),
        Kind::Text => Ok(Value::Text(text(alloc, field)?)),
    }
}

/// What follows a minus, if there is one.
fn without_minus(field: &[u8]) -> &[u8]
    ensures { result.now ≡ digits_of field.now }
{
    field.strip_prefix(b"-").unwrap_or(field)
}

/// Whether bytes are one digit or more.
fn is_numeral(bytes: &[u8]) -> bool
    ensures { result ≡ is_numeral bytes.now }
{
    !bytes.is_empty() && are_digits(bytes)
}

fn are_digits(bytes: &[u8]) -> bool
    ensures { result ≡ list_all is_ascii_digit bytes.now }
{
    bytes.iter().all(|byte| byte.is_ascii_digit())
}

fn integer(field: &[u8]) -> Result<i64, FieldFault>
    ensures { result ≡ integer_of field.now }
{
    if !is_numeral(without_minus(field)) {
        return Err(FieldFault::NoInteger);
    }
    let Ok(text) = str::from_utf8(field) else {
        return Err(FieldFault::NoInteger);
    };
    text.parse().or(Err(FieldFault::TooLarge))
}

fn text(alloc: Global, field: &[u8]) -> Result<Text, FieldFault>
    ensures { IsAnswer result (text_of field.now) }
{
    if field.len() > TEXT_LIMIT {
        return Err(FieldFault::TooLong);
    }
    let Ok(text) = str::from_utf8(field) else {
        return Err(FieldFault::NoText);
    };
    if has_control(field) {
        return Err(FieldFault::NoText);
    }
    Ok(Text::copy_of(alloc, text)?)
}

fn has_control(field: &[u8]) -> bool
    ensures { result ≡ list_any is_ascii_control field.now }
{
    field.iter().any(|byte| byte.is_ascii_control())
}
