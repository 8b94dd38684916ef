//! Whether a schema is a site's.

ghost use Rattle.std.specs.Prelude.{◌≡◌, ◌∷◌, [], IfOk, OnOk, IsTrue, false};
ghost use Rattle.std.specs.Bool.{Decides};
ghost use Rattle.sqlite.specs.Held.{state};
ghost use Rattle.sqlite_sql.specs.Syntax.{term_of};
ghost use Rattle.sqlstore.specs.Schemas.{is_one, IsBare, IsKeyedBy, IsKeyedByNumber, keyed_table, index_of, site_indexes};
ghost use Rattle.sqlstore.specs.Tables.{column_of, part_table, prepared_table, intent_table, state_table, site_schema};
ghost use Rattle.sqlstore.specs.Frame.{FailsUnless};

use sqlite::{Alter, Connection};
use sqlite_items::Items;
use sqlite_schema::code::Terms;
use sqlite_schema::schema::{Column, Index, Kind, Schema, Table};
use sqlite_sql::expr::{Node, open};
use sqlite_sql::ops::{BinaryOp, CompareOp};
use sqlite_value::keys::{Collation, Order};
use sqlite_value::value::{Value, ValueRef};
use std::alloc::Global;
use store::fault::StoreFault;
use terms::memory::Memory;

/// Whether a column has this name and type, and is never NULL.
pub fn is_column(column: &Column, name: &str, kind: Kind) -> bool
    ensures { Decides result (column.now ≡ column_of name.now kind) }
{
    column.name.as_slice() == name.as_bytes()
        && column.kind == kind
        && column.is_strict
        && column.not_null
        && matches!(&column.default, Value::Null)
        && column.collation == Collation::Binary
}

fn are_part_columns(columns: &[Column]) -> bool
    ensures { Decides result (columns.now ≡ part_table.columns) }
{
    let [leaf, id, body] = columns else {
        return false;
    };
    is_column(leaf, "leaf", Kind::Text)
        && is_column(id, "id", Kind::Integer)
        && is_column(body, "body", Kind::Blob)
}

fn are_prepared_columns(columns: &[Column]) -> bool
    ensures { Decides result (columns.now ≡ prepared_table.columns) }
{
    let [life, visit, txn_life, txn_number] = columns else {
        return false;
    };
    is_column(life, "life", Kind::Integer)
        && is_column(visit, "visit", Kind::Integer)
        && is_column(txn_life, "tlife", Kind::Integer)
        && is_column(txn_number, "tnumber", Kind::Integer)
}

fn are_intent_columns(columns: &[Column]) -> bool
    ensures { Decides result (columns.now ≡ intent_table.columns) }
{
    let [life, visit, leaf, id, body] = columns else {
        return false;
    };
    is_column(life, "life", Kind::Integer)
        && is_column(visit, "visit", Kind::Integer)
        && is_column(leaf, "leaf", Kind::Text)
        && is_column(id, "id", Kind::Integer)
        && is_column(body, "body", Kind::Blob)
}

fn are_state_columns(columns: &[Column]) -> bool
    ensures { Decides result (columns.now ≡ state_table.columns) }
{
    let [one, life] = columns else {
        return false;
    };
    is_column(one, "one", Kind::Integer) && is_column(life, "life", Kind::Integer)
}

/// Whether an expression is that the first column of a row is 1.
fn is_one_check(nodes: &[Node<'_>], root: usize) -> bool
    ensures { Decides result (term_of nodes.now root ≡ is_one) }
{
    let (node, depth) = open(nodes, nodes.len(), root);
    let Node::Binary(BinaryOp::Compare(CompareOp::Eq, Collation::Binary), one, other) = node else {
        return false;
    };
    matches!(open(nodes, depth, one).0, Node::Column(1, 0))
        && matches!(open(nodes, depth, other).0, Node::Literal(ValueRef::Int(1)))
}

fn are_no_terms(alloc: Global, terms: &Terms) -> Result<bool, Memory>
    ensures { IfOk result (λ is. Decides is (terms.now ≡ [])) }
{
    let lent = terms.lend(alloc)?;
    Ok(lent.roots.is_empty())
}

pub fn are_state_checks(alloc: Global, terms: &Terms) -> Result<bool, Memory>
    ensures { IfOk result (λ is. Decides is (terms.now ≡ state_table.checks)) }
{
    let lent = terms.lend(alloc)?;
    match lent.roots {
        [root] => Ok(is_one_check(&lent.nodes, *root)),
        _ => Ok(false),
    }
}

/// Whether a table refers to no other, computes no column and doesn't count.
pub fn is_bare(alloc: Global, table: &Table) -> Result<bool, Memory>
    ensures { IfOk result (λ is. Decides is (IsBare table.now)) }
{
    let bare = table.references.is_empty()
        && table.computed.is_empty()
        && table.stamps.places.is_empty()
        && table.stamps.formats.is_empty()
        && !table.is_counted;
    match are_no_terms(alloc, &table.stamps.terms) {
        Ok(true) => Ok(bare),
        other => other,
    }
}

fn is_one_key(keys: &[Items<usize>], key: &[usize]) -> bool
    ensures { Decides result (keys.now ≡ key.now ∷ []) }
{
    match keys {
        [only] => only.as_slice() == key,
        _ => false,
    }
}

fn is_ascending(orders: &[Order]) -> bool
    ensures { Decides result (orders.now ≡ record { digits = 0 } ∷ []) }
{
    match orders {
        [order] => order.digits == 0,
        _ => false,
    }
}

/// Whether the one key of a table that isn't its number is this, in ascending order.
fn is_keyed(table: &Table, key: &[usize]) -> bool
    ensures { Decides result (IsKeyedBy key.now table.now) }
{
    table.key.is_none()
        && table.primary.as_slice() == key
        && is_one_key(table.uniques.as_slice(), key)
        && is_ascending(table.orders.as_slice())
}

/// Whether a table of these columns has this name, place and key, and nothing else.
pub fn is_keyed_table(
    alloc: Global,
    table: &Table,
    name: &str,
    tree: u32,
    key: &[usize],
) -> Result<bool, Memory>
    ensures { IfOk result (λ is. Decides is (table.now ≡ keyed_table name.now tree table.now.columns key.now)) }
{
    if table.name.as_slice() != name.as_bytes() || table.tree != tree || !is_keyed(table, key) {
        return Ok(false);
    }
    match are_no_terms(alloc, &table.checks) {
        Ok(true) => is_bare(alloc, table),
        other => other,
    }
}

/// Whether the number of a table is its key.
pub fn is_keyed_by_number(table: &Table) -> bool
    ensures { Decides result (IsKeyedByNumber table.now) }
{
    table.key == Some(0)
        && table.primary.as_slice() == [0].as_slice()
        && table.uniques.is_empty()
        && table.orders.is_empty()
}

fn is_state_table(alloc: Global, table: &Table) -> Result<bool, Memory>
    ensures { IfOk result (λ is. Decides is (table.now ≡ record state_table { tree = 6 })) }
{
    if table.name.as_slice() != "state".as_bytes()
        || table.tree != 6
        || !are_state_columns(table.columns.as_slice())
        || !is_keyed_by_number(table)
    {
        return Ok(false);
    }
    match are_state_checks(alloc, &table.checks) {
        Ok(true) => is_bare(alloc, table),
        other => other,
    }
}

fn are_site_tables(alloc: Global, tables: &[Table]) -> Result<bool, Memory>
    ensures { IfOk result (λ are. Decides are (tables.now ≡ site_schema.tables)) }
{
    let [part, prepared, intent, state] = tables else {
        return Ok(false);
    };
    if !are_part_columns(part.columns.as_slice())
        || !are_prepared_columns(prepared.columns.as_slice())
        || !are_intent_columns(intent.columns.as_slice())
    {
        return Ok(false);
    }
    match is_keyed_table(alloc, part, "part", 0, &[1, 2]) {
        Ok(true) => {}
        other => return other,
    }
    match is_keyed_table(alloc, prepared, "prepared", 2, &[1, 2]) {
        Ok(true) => {}
        other => return other,
    }
    match is_keyed_table(alloc, intent, "intent", 4, &[1, 2, 3, 4]) {
        Ok(true) => is_state_table(alloc, state),
        other => other,
    }
}

/// Whether an index is a table's own, over these places in ascending order.
pub fn is_index(index: &Index, name: &str, tree: u32, table: u32, columns: &[usize]) -> bool
    ensures { Decides result (index.now ≡ index_of name.now tree table columns.now) }
{
    index.name.as_slice() == name.as_bytes()
        && index.tree == tree
        && index.table == table
        && index.columns.as_slice() == columns
        && index.order.digits == 0
        && index.is_unique
}

fn are_site_indexes(indexes: &[Index]) -> bool
    ensures { Decides result (indexes.now ≡ site_indexes) }
{
    let [part, prepared, intent] = indexes else {
        return false;
    };
    is_index(part, "sqlite_autoindex_part_1", 1, 0, &[1, 2])
        && is_index(prepared, "sqlite_autoindex_prepared_1", 3, 2, &[1, 2])
        && is_index(intent, "sqlite_autoindex_intent_1", 5, 4, &[1, 2, 3, 4])
}

/// Whether a schema is a site's.
pub fn is_site_schema(alloc: Global, schema: &Schema) -> Result<bool, Memory>
    ensures { IfOk result (λ is. Decides is (schema.now ≡ site_schema)) }
{
    if !schema.views.is_empty() {
        return Ok(false);
    }
    if !are_site_indexes(schema.indexes.as_slice()) {
        return Ok(false);
    }
    are_site_tables(alloc, schema.tables.as_slice())
}

/// The tables of a connection are a site's.
pub fn test_schema<S: Alter>(alloc: Global, conn: &Connection<S>) -> Result<(), StoreFault>
    requires { conn.now.in_transaction ≡ false }
    ensures ours { OnOk result (IsTrue (state S.Store conn.now).is_open → (state S.Store conn.now).committed.schema ≡ site_schema) }
    ensures fails { FailsUnless (IsTrue (state S.Store conn.now).is_open × ((state S.Store conn.now).committed.schema ≡ site_schema)) result }
{
    let _settled = conn.is_autocommit();
    match is_site_schema(alloc, conn.schema()) {
        Ok(true) => Ok(()),
        Ok(false) => Err(StoreFault::Damaged),
        Err(_) => Err(StoreFault::Memory),
    }
}
