//! A statement's plan shown as a tree.

ghost use Rattle.std.specs.Prelude.{◌≡◌, ◌++◌, IfOk, OnOk, length, string_bytes};
ghost use Rattle.catalog.specs.FragmentLeaf.{schemas_of};
ghost use Rattle.catalog.specs.Relation.{catalogue_of};
ghost use Rattle.meaning.specs.Statement.{IsStatementOf};
ghost use Rattle.lines.specs.FetchLine.{count_line};
ghost use Rattle.lines.specs.PlanTree.{IsPlanTree, qualified, qualified_all, select_columns, statement_columns, tree_lines};
ghost use Rattle.plan.specs.Shape.{shape};

use crate::check::columns_of;
use crate::level::put_line;
use crate::plan_lines::{Within, put_plan, reads_nothing};
use crate::plan_text::put_count;
use catalog::catalogue::Catalog;
use meaning::schema::{Column, Schema};
use meaning::statement::{Select, Statement};
use plan::localize::localize;
use plan::plan::Plan;
use plan::reduce::{Reduced, reduce};
use std::alloc::Global;
use terms::copy::copy_all;
use terms::memory::Memory;
use terms::text::Text;

/// The plan of a statement as a tree, and how many fetches there are.
pub fn tree_text(alloc: Global, catalog: &Catalog, statement: &Statement) -> Result<String, Memory>
    requires { IsStatementOf (schemas_of (catalogue_of catalog.now)) statement.now }
    ensures { IfOk result (λ text. IsPlanTree (catalogue_of catalog.now) statement.now (string_bytes text)) }
{
    let plan = localize(alloc, catalog, statement)?;
    let less = reduce(alloc, catalog, statement, plan)?;
    let text = reduced_text(alloc, catalog, statement, &less);
    drop(less);
    text
}

/// The plan of a statement, reduced to these fetches, as a tree, and how many fetches there are.
fn reduced_text(
    alloc: Global,
    catalog: &Catalog,
    statement: &Statement,
    less: &Reduced,
) -> Result<String, Memory>
    ensures { IfOk result (λ text. string_bytes text ≡ tree_lines (catalogue_of catalog.now) (statement_columns (schemas_of (catalogue_of catalog.now)) statement.now) (shape less.now.plan) ++ count_line (length less.now.fetches.items)) }
{
    let columns = statement_columns(alloc, catalog.schema(), statement)?;
    let mut text = String::new(alloc);
    put_tree(&mut text, catalog, columns.as_slice(), &less.plan)?;
    put_count(&mut text, less.fetches.len())?;
    Ok(text)
}

/// The lines of a plan of rows over these columns.
fn put_tree(
    out: &mut String,
    catalog: &Catalog,
    columns: &[Column],
    plan: &Plan,
) -> Result<(), Memory>
    ensures { OnOk result (string_bytes out.new ≡ string_bytes out.old ++ tree_lines (catalogue_of catalog.now) columns.now (shape plan.now)) }
{
    if reads_nothing(plan) {
        return put_line(out, "", "nothing");
    }
    put_plan(out, catalog, columns, Within::Nothing, "", plan)
}

/// The columns of the rows that a statement is to find.
fn statement_columns(
    alloc: Global,
    schema: &Schema,
    statement: &Statement,
) -> Result<Vec<Column>, Memory>
    ensures { IfOk result (λ columns. columns.items ≡ statement_columns schema.now.relations statement.now) }
{
    match statement {
        Statement::Select(select) => select_columns(alloc, schema, select),
        Statement::Insert(insert) => copy_all(alloc, columns_of(schema, &insert.into)),
        Statement::Update(update) => copy_all(alloc, columns_of(schema, &update.relation.name)),
        Statement::Delete(delete) => copy_all(alloc, columns_of(schema, &delete.relation.name)),
        Statement::Refragment(refragment) => {
            copy_all(alloc, columns_of(schema, &refragment.relation.name))
        }
    }
}

/// The columns of a select's rows: with their relations' names exactly in a join.
fn select_columns(alloc: Global, schema: &Schema, select: &Select) -> Result<Vec<Column>, Memory>
    ensures { IfOk result (λ columns. columns.items ≡ select_columns schema.now.relations select.now.from.name select.now.joins) }
{
    let joins = select.joins.as_slice();
    if joins.is_empty() {
        return copy_all(alloc, columns_of(schema, &select.from.name));
    }
    let mut columns = Vec::new(alloc);
    put_qualified(&mut columns, schema, &select.from.name)?;
    for join in joins {
        put_qualified(&mut columns, schema, &join.relation.name)?;
    }
    Ok(columns)
}

/// The columns of a relation behind others, by their names with its own.
fn put_qualified(columns: &mut Vec<Column>, schema: &Schema, relation: &Text) -> Result<(), Memory>
    ensures { OnOk result (columns.new.items ≡ columns.old.items ++ qualified_all schema.now.relations relation.now) }
{
    for column in columns_of(schema, relation) {
        columns.push(qualified(*columns.allocator(), relation, column)?)?;
    }
    Ok(())
}

/// A column by its name with its relation's.
fn qualified(alloc: Global, relation: &Text, column: &Column) -> Result<Column, Memory>
    ensures { IfOk result (λ named. named ≡ qualified relation.now column.now) }
{
    let name = format!(in alloc; "{relation}.{}", column.name)?;
    Ok(Column {
        name: Text::new(name)?,
        kind: column.kind,
    })
}
