//! What a statement answers and writes, by its table.

ghost use Rattle.std.specs.Prelude.{◌≡◌, true, IfOk, length, map};
ghost use Rattle.std.specs.List.{AllByRecursion, filter_map};
ghost use Rattle.std.specs.Option.{option_map};
ghost use Rattle.meaning.specs.Meaning.{meaning};
ghost use Rattle.meaning.specs.Statement.{IsStatementOf};
ghost use Rattle.meaning.specs.Whole.{FitsSchema, Relations};
ghost use Rattle.catalog.specs.FragmentLeaf.{catalogue_leaves, schemas_of};
ghost use Rattle.catalog.specs.Relation.{catalogue_of};
ghost use Rattle.plan.specs.Need.{places_to};
ghost use Rattle.answers.specs.Laid.{column_of, numbers, row_of, seen_in};
ghost use Rattle.answers.specs.Outcome.{changes_of, delete_outcome, insert_outcome, outcome_of, refragment_outcome, removed, rows_changed, select_outcome, shown, update_outcome};
ghost use Rattle.answers.specs.Table.{IsTableOf};
ghost use Rattle.answers.specs.Writes.{is_leaf_in, leaf_of, writes_between};

use crate::change::{Change, writes_of};
use crate::joined::{Column, Joined, column_of};
use crate::pick::{are_in_order, are_numbers, are_once, are_wide, row_of};
use crate::table::Table;
use catalog::catalogue::Catalog;
use catalog::fragment_leaf::FragmentLeaf;
use meaning::answer::Answer;
use meaning::select::header;
use meaning::statement::{Assignment, Delete, Insert, Select, Statement, Update};
use meaning::update::assign;
use std::alloc::Global;
use terms::copy::TryCopy;
use terms::memory::Memory;
use terms::row::Row;
use terms::seq::Seq;
use terms::text::Text;
use terms::write::Write;

/// What a statement answers, and the writes that it makes, by leaf and then by key.
#[derive(Debug, Drop)]
pub struct Outcome {
    pub answer: Answer,
    pub writes: Seq<Write>,
}

/// What a statement answers and writes, by its table.
///
/// Where it is a statement of the catalogue's schema, then over each whole database of which the table has
/// what the statement is to find there it is the statement's meaning: the answer, and the writes that lead
/// to the whole database after it.
pub fn finish(
    alloc: Global,
    catalog: &Catalog,
    statement: &Statement,
    table: &Table,
) -> Result<Outcome, Memory>
    ensures answer { IsStatementOf (schemas_of (catalogue_of catalog.now)) statement.now
        → IfOk result (λ outcome. (whole : Relations) → FitsSchema (schemas_of (catalogue_of catalog.now)) whole → IsTableOf statement.now whole table.now → outcome.answer ≡ (meaning statement.now whole).0) }
    ensures writes { IsStatementOf (schemas_of (catalogue_of catalog.now)) statement.now
        → IfOk result (λ outcome. (whole : Relations) → FitsSchema (schemas_of (catalogue_of catalog.now)) whole → IsTableOf statement.now whole table.now →
        outcome.writes ≡ writes_between (catalogue_of catalog.now) whole (meaning statement.now whole).1) }
    // And whatever the table has, each write is to a leaf of the catalogue.
    ensures leaves { IfOk result (λ outcome. AllByRecursion (λ write. is_leaf_in (catalogue_leaves (catalogue_of catalog.now)) (leaf_of write) ≡ true) outcome.writes) }
{
    let _relations = catalog.relations();
    outcome_by(alloc, catalog.leaves(), statement, table)
}

/// What a statement makes of its table.
pub(crate) fn outcome_by(
    alloc: Global,
    leaves: &[FragmentLeaf],
    statement: &Statement,
    table: &Table,
) -> Result<Outcome, Memory>
    ensures { IfOk result (λ made. made ≡ outcome_of leaves.now statement.now table.now) }
{
    match statement {
        Statement::Select(select) => selected(alloc, select, table),
        Statement::Insert(insert) => inserted(alloc, leaves, insert, table),
        Statement::Update(update) => {
            let width = update.relation.columns.as_slice().len();
            updated(alloc, leaves, update, rows_changed(alloc, width, table)?)
        }
        Statement::Delete(delete) => {
            let width = delete.relation.columns.as_slice().len();
            deleted(alloc, leaves, delete, rows_changed(alloc, width, table)?)
        }
        Statement::Refragment(_) => Ok(refragmented(alloc, table)),
    }
}

fn selected(alloc: Global, select: &Select, table: &Table) -> Result<Outcome, Memory>
    ensures { IfOk result (λ made. made ≡ select_outcome select.now table.now) }
{
    let names = header(alloc, select)?;
    let places = select.columns.as_slice();
    let rows = shown(
        alloc,
        places,
        table.columns.as_slice(),
        table.rows.as_slice(),
    )?;
    Ok(Outcome {
        answer: Answer::Rows(Seq::new(names), Seq::new(rows)),
        writes: Seq::new(Vec::new(alloc)),
    })
}

fn inserted(
    alloc: Global,
    leaves: &[FragmentLeaf],
    insert: &Insert,
    table: &Table,
) -> Result<Outcome, Memory>
    ensures { IfOk result (λ made. made ≡ insert_outcome leaves.now insert.now table.now.rows) }
{
    if !table.rows.as_slice().is_empty() {
        return Ok(Outcome {
            answer: Answer::Exists,
            writes: Seq::new(Vec::new(alloc)),
        });
    }
    let mut changes = Vec::new(alloc);
    changes.push(Change {
        key: insert.row.key(),
        before: None,
        after: Some(insert.row.copy()?),
    })?;
    let writes = writes_of(alloc, &insert.into, changes.as_slice(), leaves)?;
    Ok(Outcome {
        answer: Answer::Changed(1),
        writes: Seq::new(writes),
    })
}

fn updated(
    alloc: Global,
    leaves: &[FragmentLeaf],
    update: &Update,
    rows: Vec<Row>,
) -> Result<Outcome, Memory>
    ensures { IfOk result (λ made. made ≡ update_outcome leaves.now update.now rows.items) }
{
    let count = rows.len() as u64;
    match changes_of(alloc, update.sets.as_slice(), rows.as_slice())? {
        Some(changes) => {
            let writes = writes_of(alloc, &update.relation.name, changes.as_slice(), leaves)?;
            Ok(Outcome {
                answer: Answer::Changed(count),
                writes: Seq::new(writes),
            })
        }
        None => Ok(Outcome {
            answer: Answer::Overflow,
            writes: Seq::new(Vec::new(alloc)),
        }),
    }
}

/// The changes that assignments make of rows; none where a sum leaves 64 bits.
fn changes_of(
    alloc: Global,
    sets: &[Assignment],
    rows: &[Row],
) -> Result<Option<Vec<Change>>, Memory>
    ensures { IfOk result (λ found. option_map (λ changes. changes.items) found ≡ changes_of sets.now rows.now) }
{
    let mut changes = Vec::new(alloc);
    for row in rows {
        match assign(alloc, sets, row)? {
            Some(new) => changes.push(Change {
                key: row.key(),
                before: Some(row.copy()?),
                after: Some(new),
            })?,
            None => return Ok(None),
        }
    }
    Ok(Some(changes))
}

fn deleted(
    alloc: Global,
    leaves: &[FragmentLeaf],
    delete: &Delete,
    rows: Vec<Row>,
) -> Result<Outcome, Memory>
    ensures { IfOk result (λ made. made ≡ delete_outcome leaves.now delete.now rows.items) }
{
    let count = rows.len() as u64;
    let changes = removals(alloc, rows.as_slice())?;
    let writes = writes_of(alloc, &delete.relation.name, changes.as_slice(), leaves)?;
    Ok(Outcome {
        answer: Answer::Changed(count),
        writes: Seq::new(writes),
    })
}

fn removals(alloc: Global, rows: &[Row]) -> Result<Vec<Change>, Memory>
    ensures { IfOk result (λ changes. changes.items ≡ map removed rows.now) }
{
    let mut changes = Vec::new(alloc);
    for row in rows {
        changes.push(Change {
            key: row.key(),
            before: Some(row.copy()?),
            after: None,
        })?;
    }
    Ok(changes)
}

/// What a REFRAGMENT answers; it writes nothing between whole databases.
pub(crate) fn refragmented(alloc: Global, table: &Table) -> Outcome
    ensures { result ≡ refragment_outcome table.now }
{
    Outcome {
        answer: Answer::Changed(table.rows.as_slice().len() as u64),
        writes: Seq::new(Vec::new(alloc)),
    }
}

/// The whole rows of a table of a relation with so many columns.
pub(crate) fn rows_changed(alloc: Global, width: usize, table: &Table) -> Result<Vec<Row>, Memory>
    ensures { IfOk result (λ rows. rows.items ≡ rows_changed width table.now) }
{
    let mut places = Vec::new(alloc);
    for place in 0..width {
        places.push(place)?;
    }
    shown(
        alloc,
        places.as_slice(),
        table.columns.as_slice(),
        table.rows.as_slice(),
    )
}

/// The values that rows over these columns have in the listed ones: the rows themselves where these are all columns in order.
fn shown(
    alloc: Global,
    places: &[usize],
    columns: &[Column],
    rows: &[Joined],
) -> Result<Vec<Row>, Memory>
    ensures { IfOk result (λ found. found.items ≡ shown places.now (numbers columns.now) (map (row_of columns.now) rows.now)) }
{
    if are_in_order(columns)
        && are_numbers(places, columns)
        && are_once(places)
        && are_wide(columns, rows)
    {
        return firsts(alloc, rows);
    }
    rows_shown(alloc, places, columns, rows)
}

/// The values that each row has in the listed columns.
fn rows_shown(
    alloc: Global,
    places: &[usize],
    columns: &[Column],
    rows: &[Joined],
) -> Result<Vec<Row>, Memory>
    ensures { IfOk result (λ found. found.items ≡ map (λ row. filter_map (seen_in columns.now row) places.now) rows.now) }
{
    let listed = columns_listed(alloc, places, columns)?;
    rows_made(alloc, listed.as_slice(), rows)
}

/// The columns of these numbers, as far as they are there.
fn columns_listed(
    alloc: Global,
    places: &[usize],
    columns: &[Column],
) -> Result<Vec<Column>, Memory>
    ensures { IfOk result (λ found. found.items ≡ filter_map (λ place. column_of place columns.now) places.now) }
{
    let mut found = Vec::with_capacity(alloc, places.len())?;
    for place in places {
        if let Some(column) = column_of(columns, *place) {
            found.push(*column)?;
        }
    }
    Ok(found)
}

/// The first one of those that each row is made of.
fn firsts(alloc: Global, rows: &[Joined]) -> Result<Vec<Row>, Memory>
    ensures { IfOk result (λ found. found.items ≡ map (λ row. row.first) rows.now) }
{
    let mut found = Vec::with_capacity(alloc, rows.len())?;
    for row in rows {
        found.push(row.first.copy()?)?;
    }
    Ok(found)
}

/// The values of rows.
fn rows_made(alloc: Global, columns: &[Column], rows: &[Joined]) -> Result<Vec<Row>, Memory>
    ensures { IfOk result (λ found. found.items ≡ map (row_of columns.now) rows.now) }
{
    let mut found = Vec::with_capacity(alloc, rows.len())?;
    for row in rows {
        found.push(row_of(alloc, columns, row)?)?;
    }
    Ok(found)
}
