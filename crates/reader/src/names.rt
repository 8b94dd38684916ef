//! Names, types and limits: what a written command means under a schema.

ghost use Rattle.std.specs.Prelude.{◌≡◌, ◌≢◌, length, map, IfOk, IfErr};
ghost use Rattle.reader.specs.declared.fault.Rule.TheVariants as rules;
ghost use Rattle.meaning.specs.Schema.{kinds_of};
ghost use Rattle.reader.specs.Tree.{constant_tree, constants_tree, written_tree, select_tree, insert_tree, update_tree, delete_tree};
ghost use Rattle.reader.specs.Names.{row_of, joined_of, joined_relations, select_from, select_of, insert_of, update_of, delete_of, refragment_of, command_of};
ghost use Rattle.reader.specs.Breaks.{Refuses, WrittenBreaks, SelectBreaks, SelectFromBreaks, InsertBreaks, RowBreaks, ValuesBreak, UpdateBreaks, DeleteBreaks, RelationBreaks};
ghost use Rattle.reader.specs.Resolving.{Resolves};

use crate::assignments::assignments;
use crate::command::Command;
use crate::conditions::{conds, places};
use crate::constants::value;
use crate::fault::{ReadFault, Rule};
use crate::joins::{Joined, all_joined, joins, scope_of_joined};
use crate::relations::{relation, source};
use crate::scope::of_one;
use crate::tree::{Constant, Delete, Insert, Named, Select, Update, Written};
use meaning::schema::{Column, RelationSchema, Schema};
use meaning::statement;
use meaning::statement::Statement;
use std::alloc::Global;
use terms::cond::Conds;
use terms::copy::TryCopy;
use terms::memory::Memory;
use terms::row::Row;
use terms::seq::Seq;
use terms::text::Text;
use terms::value::{Kind, Value};

/// The command that a written one is under a schema.
pub fn command(alloc: Global, schema: &Schema, written: &Written<'_>) -> Result<Command, ReadFault>
    ensures exact { Resolves (λ c. c) result (command_of schema.now.relations (written_tree written.now)) }
    ensures rule { Refuses result (λ rule. WrittenBreaks rule schema.now.relations (written_tree written.now)) }
{
    match written {
        Written::Select(written) => {
            let select = select(alloc, schema, written)?;
            Ok(Command::Run(Statement::Select(select)))
        }
        Written::Insert(written) => {
            let insert = insert(alloc, schema, written)?;
            Ok(Command::Run(Statement::Insert(insert)))
        }
        Written::Update(written) => {
            let update = update(alloc, schema, written)?;
            Ok(Command::Run(Statement::Update(update)))
        }
        Written::Delete(written) => {
            let delete = delete(alloc, schema, written)?;
            Ok(Command::Run(Statement::Delete(delete)))
        }
        Written::Refragment(name) => {
            let refragment = refragment(alloc, schema, name)?;
            Ok(Command::Run(Statement::Refragment(refragment)))
        }
        Written::Begin => Ok(Command::Begin),
        Written::Commit => Ok(Command::Commit),
        Written::Rollback => Ok(Command::Rollback),
    }
}

fn select(
    alloc: Global,
    schema: &Schema,
    written: &Select<'_>,
) -> Result<statement::Select, ReadFault>
    ensures exact { Resolves (λ s. s) result (select_of schema.now.relations (select_tree written.now)) }
    ensures rule { Refuses result (λ rule. SelectBreaks rule schema.now.relations (select_tree written.now)) }
{
    let from = relation(schema, &written.relation)?;
    let joined = all_joined(alloc, schema, from, written.joins.as_slice())?;
    select_from(alloc, from, joined.as_slice(), written)
}

fn select_from(
    alloc: Global,
    from: &RelationSchema,
    joined: &[Joined<'_>],
    written: &Select<'_>,
) -> Result<statement::Select, ReadFault>
    ensures exact { Resolves (λ s. s) result (select_from from.now (map joined_of joined.now) (select_tree written.now)) }
    ensures rule { Refuses result (λ rule. SelectFromBreaks rule (joined_relations from.now (map joined_of joined.now)) (map joined_of joined.now) (select_tree written.now)) }
{
    let scope = &scope_of_joined(alloc, from, joined)?;
    let columns = places(alloc, scope, &written.listed)?;
    let joins = joins(alloc, scope, joined)?;
    let conds = conds(alloc, scope, written.conditions.as_slice())?;
    Ok(statement::Select {
        from: source(alloc, from)?,
        joins: Seq::new(joins),
        columns: Seq::new(columns),
        conds: Conds::new(conds)?,
    })
}

fn insert(
    alloc: Global,
    schema: &Schema,
    written: &Insert<'_>,
) -> Result<statement::Insert, ReadFault>
    ensures exact { Resolves (λ i. i) result (insert_of schema.now.relations (insert_tree written.now)) }
    ensures rule { Refuses result (λ rule. InsertBreaks rule schema.now.relations (insert_tree written.now)) }
{
    let relation = relation(schema, &written.relation)?;
    let values = row(alloc, relation, written)?;
    Ok(statement::Insert {
        into: relation.name.copy()?,
        row: Row::new(values)?,
    })
}

/// The values of a row, one for each column.
fn row(
    alloc: Global,
    relation: &RelationSchema,
    insert: &Insert<'_>,
) -> Result<Vec<Value>, ReadFault>
    ensures exact { Resolves (λ values. values.items) result (row_of (kinds_of relation.now) (constants_tree insert.now.values)) }
    ensures rule { Refuses result (λ rule. RowBreaks rule (kinds_of relation.now) (constants_tree insert.now.values)) }
{
    let columns = relation.columns.as_slice();
    let constants = insert.values.as_slice();
    if constants.len() != columns.len() {
        return Err(ReadFault::new(Rule::Count, insert.close));
    }
    values(alloc, columns, constants)
}

fn values(
    alloc: Global,
    columns: &[Column],
    constants: &[Constant<'_>],
) -> Result<Vec<Value>, ReadFault>
    requires { length constants.now ≡ length columns.now }
    ensures exact { Resolves (λ values. values.items) result (row_of (map (λ c. c.kind) columns.now) (map constant_tree constants.now)) }
    ensures rule { Refuses result (λ rule. ValuesBreak rule (map (λ c. c.kind) columns.now) (map constant_tree constants.now)) }
{
    let mut values = Vec::new(alloc);
    for (place, constant) in constants.iter().enumerate() {
        values.push(value(alloc, columns[place].kind, constant)?)?;
    }
    Ok(values)
}

fn update(
    alloc: Global,
    schema: &Schema,
    written: &Update<'_>,
) -> Result<statement::Update, ReadFault>
    ensures exact { Resolves (λ u. u) result (update_of schema.now.relations (update_tree written.now)) }
    ensures rule { Refuses result (λ rule. UpdateBreaks rule schema.now.relations (update_tree written.now)) }
{
    let relation = relation(schema, &written.relation)?;
    let sets = assignments(alloc, relation.columns.as_slice(), written.sets.as_slice())?;
    let conds = conds(
        alloc,
        &of_one(alloc, relation),
        written.conditions.as_slice(),
    )?;
    Ok(statement::Update {
        relation: source(alloc, relation)?,
        sets: Seq::new(sets),
        conds: Conds::new(conds)?,
    })
}

fn delete(
    alloc: Global,
    schema: &Schema,
    written: &Delete<'_>,
) -> Result<statement::Delete, ReadFault>
    ensures exact { Resolves (λ d. d) result (delete_of schema.now.relations (delete_tree written.now)) }
    ensures rule { Refuses result (λ rule. DeleteBreaks rule schema.now.relations (delete_tree written.now)) }
{
    let relation = relation(schema, &written.relation)?;
    let conds = conds(
        alloc,
        &of_one(alloc, relation),
        written.conditions.as_slice(),
    )?;
    Ok(statement::Delete {
        relation: source(alloc, relation)?,
        conds: Conds::new(conds)?,
    })
}

fn refragment(
    alloc: Global,
    schema: &Schema,
    name: &Named<'_>,
) -> Result<statement::Refragment, ReadFault>
    ensures exact { Resolves (λ r. r) result (refragment_of schema.now.relations name.now.name.now) }
    ensures rule { Refuses result (λ rule. RelationBreaks rule schema.now.relations name.now.name.now) }
{
    let relation = relation(schema, name)?;
    Ok(statement::Refragment {
        relation: source(alloc, relation)?,
    })
}
