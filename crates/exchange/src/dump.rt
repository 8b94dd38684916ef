//! Many rows as the transactions that bring them.

ghost use Rattle.std.specs.Prelude.{◌≡◌, ◌++◌, [], ◌==◌, if◌then◌else◌, codes, IfOk, OnOk, length, string_bytes};
ghost use Rattle.exchange.specs.Dump.{dump_bytes, line, lines_before, rows_from};
ghost use Rattle.exchange.specs.Insert.{insert_of};
ghost use Rattle.reader.specs.PrintStatement.{statement_bytes};

use crate::insert::insert_text;
use meaning::schema::RelationSchema;
use std::alloc::Global;
use terms::memory::Memory;
use terms::row::Row;

/// The most INSERTs that a transaction has.
pub const TRANSACTION_LIMIT: usize = 1000;

/// Transactions that bring these rows into a relation, a statement on each line; no rows, no text.
pub fn dump(alloc: Global, relation: &RelationSchema, rows: &[Row]) -> Result<String, Memory>
    ensures { IfOk result (λ text. string_bytes text ≡ dump_bytes relation.now.name rows.now) }
{
    let mut out = String::new(alloc);
    put_rows(alloc, &mut out, relation, rows)?;
    if !rows.is_empty() {
        out.push_str("COMMIT\n")?;
    }
    Ok(out)
}

fn put_rows(
    alloc: Global,
    out: &mut String,
    relation: &RelationSchema,
    rows: &[Row],
) -> Result<(), Memory>
    ensures { OnOk result (string_bytes out.new ≡ string_bytes out.old ++ rows_from relation.now.name 0 rows.now) }
{
    for (number, row) in rows.iter().enumerate() {
        put_before(out, number)?;
        put_row(alloc, out, relation, row)?;
    }
    Ok(())
}

/// Puts what stands before a row: where a transaction is full, its end, and the begin of the next.
fn put_before(out: &mut String, number: usize) -> Result<(), Memory>
    ensures { OnOk result (string_bytes out.new ≡ string_bytes out.old ++ lines_before number) }
{
    if number % TRANSACTION_LIMIT != 0 {
        return Ok(());
    }
    if number != 0 {
        out.push_str("COMMIT\n")?;
    }
    out.push_str("BEGIN\n")?;
    Ok(())
}

fn put_row(
    alloc: Global,
    out: &mut String,
    relation: &RelationSchema,
    row: &Row,
) -> Result<(), Memory>
    ensures { OnOk result (string_bytes out.new ≡ string_bytes out.old ++ line (statement_bytes (insert_of relation.now.name row.now))) }
{
    out.push_str(insert_text(alloc, relation, row)?.as_str())?;
    out.push('\n')?;
    Ok(())
}
