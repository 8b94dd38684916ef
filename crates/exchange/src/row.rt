//! Rows: what the records of a file are under a relation's columns.

ghost use Rattle.std.specs.Prelude.{◌≡◌, map};
ghost use Rattle.exchange.specs.declared.row.RowFault.TheVariants as faults;
ghost use Rattle.exchange.specs.Each.{each_from};
ghost use Rattle.exchange.specs.Field.{value_of};
ghost use Rattle.exchange.specs.Row.{IsAnswer, column_value, field_of, in_column, row_of};

use crate::field::{FieldFault, value};
use meaning::schema::Column;
use std::alloc::{AllocError, AllocFailed, Global};
use terms::memory::Memory;
use terms::row::Row;
use terms::value::Value;

/// Why a record is no row.
#[derive(Clone, Copy, Debug, PartialEq, Eq)]
pub enum RowFault {
    /// It has so many fields, and not one for each column.
    Count(usize),
    /// The field of this column, the first such in the relation's order, is no value of its type.
    Field(usize, FieldFault),
    Memory,
}

impl From<AllocError> for RowFault {
    ghost from_gives = { λ _ fault. fault ≡ faults.Memory };

    fn from(_error: AllocError) -> RowFault {
        RowFault::Memory
    }
}

impl From<Memory> for RowFault {
    ghost from_gives = { λ _ fault. fault ≡ faults.Memory };

    fn from(_error: Memory) -> RowFault {
        RowFault::Memory
    }
}

impl<T: Drop> From<AllocFailed<T>> for RowFault {
    ghost from_gives = { λ _ fault. fault ≡ faults.Memory };

    fn from(_error: AllocFailed<T>) -> RowFault {
        RowFault::Memory
    }
}

/// The row of a record, of which each column has the field that stands at its place in the order.
pub fn row(
    alloc: Global,
    columns: &[Column],
    order: &[usize],
    fields: &[&[u8]],
) -> Result<Row, RowFault>
    ensures { IsAnswer (λ row. row) result (row_of columns.now order.now (map (λ field. field.now) fields.now)) }
{
    if fields.len() != columns.len() {
        return Err(RowFault::Count(fields.len()));
    }
    Ok(Row::new(values(alloc, columns, order, fields)?)?)
}

fn values(
    alloc: Global,
    columns: &[Column],
    order: &[usize],
    fields: &[&[u8]],
) -> Result<Vec<Value>, RowFault>
    ensures { IsAnswer (λ values. values.items) result (each_from (column_value order.now (map (λ field. field.now) fields.now)) 0 columns.now) }
{
    let mut values = Vec::with_capacity(alloc, columns.len())?;
    for (number, column) in columns.iter().enumerate() {
        let field = field_of(order, fields, number);
        values.push(in_column(alloc, column, number, field)?)?;
    }
    Ok(values)
}

/// The value of a column by its field.
fn in_column(alloc: Global, column: &Column, number: usize, field: &[u8]) -> Result<Value, RowFault>
    ensures { IsAnswer (λ value. value) result (in_column number (value_of column.now.kind field.now)) }
{
    match value(alloc, column.kind, field) {
        Ok(value) => Ok(value),
        Err(FieldFault::Memory) => Err(RowFault::Memory),
        Err(fault) => Err(RowFault::Field(number, fault)),
    }
}

/// The field of a column; an empty one where there is none.
pub(crate) fn field_of<'a>(order: &[usize], fields: &[&'a [u8]], number: usize) -> &'a [u8]
    ensures { result.now ≡ field_of order.now (map (λ field. field.now) fields.now) number }
{
    let Some(&place) = order.get(number) else {
        return &[];
    };
    match fields.get(place) {
        Some(field) => field,
        None => &[],
    }
}
