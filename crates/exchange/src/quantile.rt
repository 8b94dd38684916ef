//! Where the rows of a file are cut into parts of about the same number.

use std::alloc::Global;
use terms::copy::TryCopy;
use terms::memory::Memory;
use terms::value::Value;

/// The values at which ascending values are cut into so many parts, each larger than the one before and than the least
/// value: fewer than wanted where they are equal.
pub(crate) fn cuts(alloc: Global, values: &[Value], parts: usize) -> Result<Vec<Value>, Memory> {
    let mut cuts: Vec<Value> = Vec::new(alloc);
    let Some(mut last) = values.first() else {
        return Ok(cuts);
    };
    for part in 1..parts {
        let Some(value) = values.get(place_of(part, parts, values.len())) else {
            continue;
        };
        if value > last {
            cuts.push(value.copy()?)?;
            last = value;
        }
    }
    Ok(cuts)
}

/// The place of the first value of a part.
fn place_of(part: usize, parts: usize, count: usize) -> usize {
    let place = part as u128 * count as u128 / parts.max(1) as u128;
    usize::try_from(place).unwrap_or(count)
}
