//! What is refused, as it is shown to a person.

use crate::order::HeaderFault;
use crate::row::{RowFault, field_of};
use std::alloc::Global;
use terms::memory::Memory;

/// The most characters that are shown.
const SHOWN_LIMIT: usize = 40;

/// What stands for a character that can't be shown.
const NOT_SHOWN: char = '\u{fffd}';

/// The name that a fault is at.
pub(crate) fn refused_name(
    alloc: Global,
    names: &[&[u8]],
    fault: HeaderFault,
) -> Result<Option<String>, Memory> {
    let place = match fault {
        HeaderFault::Unknown(place) | HeaderFault::Twice(place) => place,
        HeaderFault::Lacking(_) | HeaderFault::Memory => return Ok(None),
    };
    match names.get(place) {
        Some(name) => Ok(Some(shown(alloc, name)?)),
        None => Ok(None),
    }
}

/// The field that a fault is at.
pub(crate) fn refused_field(
    alloc: Global,
    order: &[usize],
    fields: &[&[u8]],
    fault: RowFault,
) -> Result<Option<String>, Memory> {
    match fault {
        RowFault::Field(number, _) => Ok(Some(shown(alloc, field_of(order, fields, number))?)),
        RowFault::Count(_) | RowFault::Memory => Ok(None),
    }
}

/// The characters of bytes, cut where they are many.
fn shown(alloc: Global, bytes: &[u8]) -> Result<String, Memory> {
    let text = String::from_utf8_lossy(alloc, bytes)?;
    let mut out = String::new(alloc);
    for character in text.chars().take(SHOWN_LIMIT) {
        out.push(if character.is_control() {
            NOT_SHOWN
        } else {
            character
        })?;
    }
    if text.chars().nth(SHOWN_LIMIT).is_some() {
        out.push_str("...")?;
    }
    Ok(out)
}
