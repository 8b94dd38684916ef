//! Scopes: the columns that a written column may mean.

ghost use Rattle.std.specs.Prelude.{◌≡◌, ◌≤◌, ◌^◌, ◌-◌, [], ◌∷◌, ◌++◌, length, map, nat_eq, IfOk, IfErr};
ghost use Rattle.std.specs.Cmp.Lexicographic.{pointwise};
ghost use Rattle.std.specs.List.{position_from};
ghost use Rattle.reader.specs.Breaks.{ColumnBreaks};
ghost use Rattle.reader.specs.Resolving.{Resolves};
ghost use Rattle.reader.specs.Scope.{table_of, relation_table, one_relation, columns_alone, types_in, is_qualifier, column_named, found_in_table, found_in};
ghost use Rattle.reader.specs.Tree.{column_tree};

use crate::fault::{ReadFault, Rule};
use crate::tree::Column;
use meaning::schema;
use meaning::schema::RelationSchema;
use std::alloc::Global;
use std::marker::Model;
use terms::memory::Memory;
use terms::value::Kind;

/// A column that a name means.
#[derive(Clone, Copy)]
pub struct Found {
    /// Its place, counted from 0 over all columns of the scope.
    pub place: usize,
    pub kind: Kind,
}

/// Columns, and the name that may stand before theirs.
#[derive(Clone, Copy)]
pub struct Table<'a> {
    /// None where only plain names mean them.
    pub name: Option<&'a [u8]>,
    pub columns: &'a [schema::Column],
}

/// The tables whose columns a written column may mean.
#[derive(Drop)]
pub struct Scope<'a> {
    first: Table<'a>,
    others: Vec<Table<'a>>,
    /// The number of all columns.
    width: usize,
}

impl<'a> Model for Scope<'a> {
    ghost use Rattle.std.specs.Prelude.{◌≡◌, ◌≤◌, ◌^◌, ◌-◌, ◌∷◌, length, map};
    ghost use Rattle.reader.specs.Scope.{Scope, table_of, types_in};

    ghost Value = { Scope };

    ghost view = { λ s. table_of s.first ∷ map table_of s.others.items };

    ghost invariant = { λ s. (s.width ≡ length (types_in (table_of s.first ∷ map table_of s.others.items))) × (s.width ≤ 2 ^ 64 - 1) };
}

/// The columns of a relation.
fn relation_columns(relation: &RelationSchema) -> Table<'_>
    ensures { table_of result ≡ relation_table relation.now }
{
    Table {
        name: Some(relation.name.as_str().as_bytes()),
        columns: relation.columns.as_slice(),
    }
}

/// The scope of a statement of one relation.
pub fn of_one(alloc: Global, relation: &RelationSchema) -> Scope<'_>
    ensures { result ≡ one_relation relation.now }
{
    of_table(alloc, relation_columns(relation))
}

/// The scope of conditions that stand alone: their columns have plain names.
pub fn of_columns(alloc: Global, columns: &[schema::Column]) -> Scope<'_>
    ensures { result ≡ columns_alone columns.now }
{
    of_table(
        alloc,
        Table {
            name: None,
            columns,
        },
    )
}

fn of_table(alloc: Global, table: Table<'_>) -> Scope<'_>
    ensures { result ≡ table_of table.entry ∷ [] }
{
    Scope {
        first: table,
        others: Vec::new(alloc),
        width: table.columns.len(),
    }
}

/// The scope with one relation more, unless no memory holds as many columns.
pub fn with_relation<'a>(
    scope: Scope<'a>,
    relation: &'a RelationSchema,
) -> Result<Scope<'a>, Memory>
    ensures { IfOk result (λ wider. wider ≡ scope.entry ++ relation_table relation.now ∷ []) }
{
    let table = relation_columns(relation);
    let Some(width) = scope.width.checked_add(table.columns.len()) else {
        return Err(Memory);
    };
    let mut others = scope.others;
    others.push(table)?;
    Ok(Scope {
        first: scope.first,
        others,
        width,
    })
}

/// The number of all columns of a scope.
pub fn width(scope: &Scope<'_>) -> usize
    ensures { result ≡ length (types_in scope.now) }
{
    scope.width
}

fn first_named(columns: &[schema::Column], name: &[u8]) -> Option<usize>
    ensures { result ≡ position_from (λ c. pointwise nat_eq c.name name.now) 0 columns.now }
{
    columns
        .iter()
        .position(|column| column.name.as_str().as_bytes() == name)
}

/// The first column of a name.
pub fn find_named(columns: &[schema::Column], name: &[u8]) -> Option<Found>
    ensures { result ≡ column_named columns.now name.now }
{
    match first_named(columns, name) {
        Some(place) => match columns.get(place) {
            Some(column) => Some(Found {
                place,
                kind: column.kind,
            }),
            None => None,
        },
        None => None,
    }
}

/// Whether a column's qualifier, where there is one, is the name that may stand there.
fn qualifies(table: &Table<'_>, column: &Column<'_>) -> bool
    ensures { result ≡ is_qualifier (table_of table.now).name (column_tree column.now).relation }
{
    match column.relation {
        None => true,
        Some(qualifier) => match table.name {
            None => false,
            Some(name) => name == qualifier,
        },
    }
}

fn find_in_table(table: &Table<'_>, column: &Column<'_>) -> Option<Found>
    ensures { result ≡ found_in_table (table_of table.now) (column_tree column.now) }
{
    if qualifies(table, column) {
        find_named(table.columns, column.name)
    } else {
        None
    }
}

/// The column that a written one means.
pub fn find(scope: &Scope<'_>, column: &Column<'_>) -> Result<Found, ReadFault>
    ensures exact { Resolves (λ found. found) result (found_in scope.now (column_tree column.now)) }
    ensures rule { IfErr result (λ fault. ColumnBreaks fault.rule scope.now (column_tree column.now)) }
{
    find_among(&scope.first, scope.others.as_slice(), column)
}

fn find_among(
    first: &Table<'_>,
    others: &[Table<'_>],
    column: &Column<'_>,
) -> Result<Found, ReadFault>
    requires { length (types_in (table_of first.now ∷ map table_of others.now)) ≤ 2 ^ 64 - 1 }
    ensures exact { Resolves (λ found. found) result (found_in (table_of first.now ∷ map table_of others.now) (column_tree column.now)) }
    ensures rule { IfErr result (λ fault. ColumnBreaks fault.rule (table_of first.now ∷ map table_of others.now) (column_tree column.now)) }
{
    let mut only = find_in_table(first, column);
    let mut before = first.columns.len();
    for table in others {
        if let Some(found) = find_in_table(table, column) {
            if only.is_some() {
                return Err(ReadFault::new(Rule::Ambiguous, column.offset));
            }
            only = Some(Found {
                place: before + found.place,
                kind: found.kind,
            });
        }
        before += table.columns.len();
    }
    match only {
        Some(found) => Ok(found),
        None => Err(ReadFault::new(Rule::NoColumn, column.offset)),
    }
}
