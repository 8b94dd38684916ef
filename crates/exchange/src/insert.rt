//! Rows as the statements that bring them.

ghost use Rattle.std.specs.Prelude.{◌≡◌, IfOk, string_bytes};
ghost use Rattle.exchange.specs.Insert.{insert_of};
ghost use Rattle.reader.specs.PrintStatement.{statement_bytes};

use meaning::schema::RelationSchema;
use meaning::statement::{Insert, Statement};
use reader::print_statement::print;
use std::alloc::Global;
use terms::copy::TryCopy;
use terms::memory::Memory;
use terms::row::Row;

/// The INSERT of a row into a relation.
pub fn insert(relation: &RelationSchema, row: Row) -> Result<Statement, Memory>
    ensures { IfOk result (λ statement. statement ≡ insert_of relation.now.name row) }
{
    let into = relation.name.copy()?;
    Ok(Statement::Insert(Insert { into, row }))
}

/// The text of that INSERT, as it is read again.
pub fn insert_text(alloc: Global, relation: &RelationSchema, row: &Row) -> Result<String, Memory>
    ensures { IfOk result (λ text. string_bytes text ≡ statement_bytes (insert_of relation.now.name row.now)) }
{
    print(alloc, &insert(relation, row.copy()?)?)
}
