//! Whether a schema is the coordinator's.

ghost use Rattle.std.specs.Bool.{Decides};
ghost use Rattle.std.specs.Prelude.{◌≡◌, ◌∷◌, [], IfOk, codes};
ghost use Rattle.sqlstore.specs.DeskTables.{decided_table, epoch_table, desk_schema};
ghost use Rattle.sqlstore.specs.Schemas.{index_of};

use crate::schema::{
    are_state_checks, is_bare, is_column, is_index, is_keyed_by_number, is_keyed_table,
};
use sqlite_schema::schema::{Column, Index, Kind, Schema, Table};
use std::alloc::Global;
use terms::memory::Memory;

fn are_decided_columns(columns: &[Column]) -> bool
    ensures { Decides result (columns.now ≡ decided_table.columns) }
{
    let [txn_life, txn_number, site, life, visit] = columns else {
        return false;
    };
    is_column(txn_life, "tlife", Kind::Integer)
        && is_column(txn_number, "tnumber", Kind::Integer)
        && is_column(site, "site", Kind::Text)
        && is_column(life, "life", Kind::Integer)
        && is_column(visit, "visit", Kind::Integer)
}

fn are_epoch_columns(columns: &[Column]) -> bool
    ensures { Decides result (columns.now ≡ epoch_table.columns) }
{
    let [one, life, version] = columns else {
        return false;
    };
    is_column(one, "one", Kind::Integer)
        && is_column(life, "life", Kind::Integer)
        && is_column(version, "version", Kind::Integer)
}

fn is_epoch_table(alloc: Global, table: &Table) -> Result<bool, Memory>
    ensures { IfOk result (λ is. Decides is (table.now ≡ record epoch_table { tree = 2 })) }
{
    if table.name.as_slice() != "state".as_bytes()
        || table.tree != 2
        || !are_epoch_columns(table.columns.as_slice())
        || !is_keyed_by_number(table)
    {
        return Ok(false);
    }
    match are_state_checks(alloc, &table.checks) {
        Ok(true) => is_bare(alloc, table),
        other => other,
    }
}

fn are_desk_tables(alloc: Global, tables: &[Table]) -> Result<bool, Memory>
    ensures { IfOk result (λ are. Decides are (tables.now ≡ desk_schema.tables)) }
{
    let [decided, epoch] = tables else {
        return Ok(false);
    };
    if !are_decided_columns(decided.columns.as_slice()) {
        return Ok(false);
    }
    match is_keyed_table(alloc, decided, "decided", 0, &[1, 2, 3]) {
        Ok(true) => is_epoch_table(alloc, epoch),
        other => other,
    }
}

fn are_desk_indexes(indexes: &[Index]) -> bool
    ensures { Decides result (indexes.now ≡ index_of (codes "sqlite_autoindex_decided_1") 1 0 (1 ∷ 2 ∷ 3 ∷ []) ∷ []) }
{
    let [decided] = indexes else {
        return false;
    };
    is_index(decided, "sqlite_autoindex_decided_1", 1, 0, &[1, 2, 3])
}

/// Whether a schema is the coordinator's.
pub fn is_desk_schema(alloc: Global, schema: &Schema) -> Result<bool, Memory>
    ensures { IfOk result (λ is. Decides is (schema.now ≡ desk_schema)) }
{
    if !schema.views.is_empty() {
        return Ok(false);
    }
    if !are_desk_indexes(schema.indexes.as_slice()) {
        return Ok(false);
    }
    are_desk_tables(alloc, schema.tables.as_slice())
}
