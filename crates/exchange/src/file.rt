//! All rows of a file.

ghost use Rattle.std.specs.Prelude.{◌≡◌, ◌++◌, ◌∷◌, [], IfOk, OnOk};
ghost use Rattle.exchange.specs.Incoming.{IsReading, reader_in};
ghost use Rattle.exchange.specs.File.{BringsAll, HasRows};

use crate::incoming::Incoming;
use crate::line_fault::LineFault;
use meaning::schema::RelationSchema;
use std::alloc::Global;
use std::io::Read;
use terms::memory::Memory;
use terms::row::Row;

/// The rows of a file of comma-separated values, whose first line names the relation's columns. It is read to its end, or up to the
/// first line that is no row.
pub fn rows<R: Read + Drop>(
    alloc: Global,
    relation: &RelationSchema,
    input: R,
) -> Result<Vec<Row>, LineFault>
    ensures { IfOk result (λ rows. HasRows R.remaining relation.now.columns input rows.items) }
{
    let mut incoming = Incoming::open(alloc, relation, input)?;
    rows_from(alloc, &mut incoming)
}

/// The rows that are left of a file.
fn rows_from<R: Read + Drop>(
    alloc: Global,
    incoming: &mut Incoming<R>,
) -> Result<Vec<Row>, LineFault>
    ensures { IfOk result (λ rows. IsReading (reader_in incoming.old) → BringsAll R.remaining rows.items incoming.old) }
{
    let mut rows = Vec::new(alloc);
    for _ in 0..u64::MAX {
        match incoming.next()? {
            Some(row) => push(&mut rows, row)?,
            None => return Ok(rows),
        }
    }
    Err(LineFault::from(Memory))
}

fn push(rows: &mut Vec<Row>, row: Row) -> Result<(), Memory>
    ensures { OnOk result (rows.new.items ≡ rows.old.items ++ row ∷ []) }
{
    rows.push(row)?;
    Ok(())
}
