//! The fields of records.

ghost use Rattle.std.specs.Prelude.{◌≡◌, IfOk, map};
ghost use Rattle.csv.specs.Records.{fields_of};

use csv::ByteRecord;
use std::alloc::Global;
use terms::memory::Memory;

/// The fields of a record, in order.
pub(crate) fn fields(alloc: Global, current: &ByteRecord) -> Result<Vec<&[u8]>, Memory>
    ensures { IfOk result (λ fields. map (λ field. field.now) fields.items ≡ fields_of current.now) }
{
    let mut fields = Vec::with_capacity(alloc, current.len())?;
    for field in current {
        fields.push(field)?;
    }
    Ok(fields)
}
